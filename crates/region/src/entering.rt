// Where the entries of a line lie.
ghost use Rattle.std.specs.Prelude.{◌≡◌, ℕ, ◌+◌, ◌<◌, ◌≤◌, List, length};
ghost use Rattle.region.specs.declared.row.Row.{Row as RowOf};
ghost use Rattle.region.specs.Kept.{Kept, kept};
ghost use Rattle.region.specs.Lines.{assembled, entered};
ghost use Rattle.region.specs.Entries.{Enters, start_of};

use super::line_rows::LineRows;
use super::piece::Piece;
use super::row::Row;

/// A place among main rows: how many rows and how many exits stand above it.
#[derive(Clone, Copy)]
pub struct Position {
    pub place: usize,
    pub exits: usize,
}

/// The place below the join that has j joins above it, among main rows: what entry j + 1 runs after that join's piece.
/// A join that has no row stands at the end.
pub fn below(main: &[Row], j: usize) -> Position
    ensures inside { result.place ≤ length main.now }
    ensures counted { result.exits ≤ result.place }
    ensures entered { (part : List RowOf) (sh : Kept) (n : ℕ) → j < n → Enters part sh j n main.now result.place result.exits }
{
    let mut above = 0;
    let mut exits = 0;
    for (i, row) in main.iter().enumerate() {
        match *row {
            Row::Act(_) => {}
            Row::Exit { .. } => exits += 1,
            Row::Join => {
                if above == j {
                    return Position {
                        place: i + 1,
                        exits,
                    };
                }
                above += 1;
            }
        }
    }
    Position {
        place: main.len(),
        exits,
    }
}

/// What an entry runs: the piece of its join, and then the main rows ahead, which have so many exits above them.
#[derive(Clone, Copy)]
pub struct Entered<'a> {
    pub piece: &'a [Row],
    pub ahead: &'a [Row],
    pub exits: usize,
}

impl<'a> LineRows<'a> {
    /// What an entry of the line runs: entry 0 all main rows, and entry j + 1 the piece of join j and then the rows below it.
    pub fn entered(self, entry: usize) -> Entered<'a>
        ensures start { entry ≤ self.entry.shape.joins → entered entry (assembled self.entry.side self.entry.rows.now (kept self.entry.shape)).places ≡ start_of self.entry.rows.now (kept self.entry.shape) entry result.exits result.piece.now result.ahead.now }
        ensures short { length result.piece.now ≤ 16 }
        ensures few { result.exits + length result.ahead.now ≤ 96 }
    {
        let main = self.main();
        if entry == 0 {
            return Entered {
                piece: &[],
                ahead: main,
                exits: 0,
            };
        }
        let Position { place, exits } = below(main, entry - 1);
        Entered {
            piece: self.piece(Piece::OfJoin(entry - 1)),
            ahead: &main[place..],
            exits,
        }
    }
}
