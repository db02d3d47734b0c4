// A line where it lies.
ghost use Rattle.std.specs.Prelude.{◌≡◌, ◌≤◌, length};
ghost use Rattle.region.specs.Kept.{kept};
ghost use Rattle.region.specs.Layout.{main_at, main_rows};
ghost use Rattle.region.specs.PieceNumbers.{piece_rows};

use super::layout::{EXIT_PIECES, MAIN_ROWS, PIECE_ROWS, REGION_ROWS};
use super::piece::Piece;
use super::row::Row;
use super::shape::Shape;
use super::side::Side;

/// A line by the rows of its region and by what is kept of it beside them.
#[derive(Clone, Copy)]
pub struct LineRows<'a> {
    pub rows: &'a [Row; REGION_ROWS],
    pub side: Side,
    pub shape: Shape,
}

fn main_begins(side: Side) -> usize
    ensures { result ≡ main_at side }
{
    match side {
        Side::Source => 0,
        Side::Schedule => MAIN_ROWS,
    }
}

impl<'a> LineRows<'a> {
    /// The main rows.
    pub fn main(self) -> &'a [Row]
        ensures rows { result.now ≡ main_rows self.entry.side self.entry.rows.now (kept self.entry.shape) }
        ensures few { length result.now ≤ 96 }
    {
        let at = main_begins(self.side);
        &self.rows[at..at + self.shape.rows()]
    }

    /// The rows of a piece: none beyond the eighth exit and the fourth join.
    pub fn piece(self, piece: Piece) -> &'a [Row]
        ensures rows { result.now ≡ piece_rows piece self.entry.rows.now (kept self.entry.shape) }
        ensures few { length result.now ≤ 16 }
    {
        let Some(p) = piece.number() else {
            return &[];
        };
        let at = EXIT_PIECES + PIECE_ROWS * p;
        &self.rows[at..at + self.shape.piece_rows(piece)]
    }
}
