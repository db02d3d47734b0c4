// What is kept of a line beside its rows.
ghost use Rattle.std.specs.Prelude.{◌≡◌, ℕ, ◌≤◌, length, slice_index};

use super::layout::PIECES;
use super::main_rows::MainRows;
use super::numbers::LabelNumber;
use super::piece::Piece;
use super::piece_rows::PieceRows;

/// What is kept of a line beside its rows: how many main rows it has, how long each of its twelve pieces is (a source's
/// are all 0), how many joins it has, and its end label.
#[derive(Clone, Copy)]
pub struct Shape {
    rows: u8,
    pieces: [u8; PIECES],
    joins: u8,
    end: LabelNumber,
    ghost few_rows: { rows ≤ 96 },
    ghost twelve: { length pieces ≡ 12 },
    ghost short: { (p : ℕ) → slice_index pieces p ≤ 16 },
    ghost few_joins: { joins ≤ 4 },
}

impl Shape {
    ghost use Rattle.region.specs.Kept.{kept};
    ghost use Rattle.region.specs.Listing.{listed, listed_pieces, schedule_kept, source_kept};
    ghost use Rattle.region.specs.PieceNumbers.{piece_length};
    ghost use Rattle.region.specs.Pieces.{exit_pieces, join_pieces};

    /// What is kept of a source that has these main rows and that end label.
    pub fn of_source(main: &MainRows, end: LabelNumber) -> Shape
        ensures { kept result ≡ source_kept (listed main.now) end }
    {
        Shape {
            rows: main.len() as u8,
            pieces: [0; PIECES],
            joins: main.joins(),
            end,
        }
    }

    /// What is kept of a schedule that has these main rows, these pieces and that end label.
    pub fn of_schedule(main: &MainRows, pieces: &PieceRows, end: LabelNumber) -> Shape
        ensures { kept result ≡ schedule_kept (listed main.now) (exit_pieces (listed_pieces pieces.now)) (join_pieces (listed_pieces pieces.now)) end }
    {
        Shape {
            rows: main.len() as u8,
            pieces: pieces.lens(),
            joins: main.joins(),
            end,
        }
    }

    /// How many main rows the line has.
    pub fn rows(&self) -> usize
        ensures value { result ≡ self.now.rows }
        ensures few { result ≤ 96 }
    {
        self.rows as usize
    }

    /// How many rows a piece has: 0 beyond the eighth exit and the fourth join.
    pub fn piece_rows(&self, piece: Piece) -> usize
        ensures value { result ≡ piece_length piece (kept self.now) }
        ensures short { result ≤ 16 }
    {
        match piece.number() {
            Some(p) => self.pieces[p] as usize,
            None => 0,
        }
    }

    /// How many joins the line has.
    pub fn joins(&self) -> usize
        ensures value { result ≡ self.now.joins }
        ensures few { result ≤ 4 }
    {
        self.joins as usize
    }

    /// The label that a run past the last row ends at.
    pub fn end(&self) -> LabelNumber
        ensures { result ≡ self.now.end }
    {
        self.end
    }
}
