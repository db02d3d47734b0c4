// The pieces of a schedule as they are put in.
ghost use Rattle.std.specs.Prelude.{◌≡◌, length};

use super::buffer::RowBuffer;
use super::full::Full;
use super::layout::{MAIN_ROWS, PIECE_ROWS, PIECES, SCHEDULE_ROWS};
use super::main_rows::MainRows;
use super::row::Row;

/// The twelve pieces of a schedule as their rows are put in: those of eight exits, and then those of four joins.
/// Each has sixteen places.
#[derive(Clone, Copy)]
pub struct PieceRows {
    pieces: [RowBuffer<PIECE_ROWS>; PIECES],
    ghost twelve: { length pieces ≡ 12 },
}

impl PieceRows {
    ghost use Rattle.std.specs.Prelude.{ℕ, ◌≤◌, [], map, replicate, if◌then◌else◌, is_ok, slice_index};
    ghost use Rattle.region.specs.Listing.{listed, listed_pieces};
    ghost use Rattle.region.specs.Pieces.{exit_pieces, join_pieces, piece_takes, put_in, schedule_rows};

    /// No rows yet.
    pub fn new() -> PieceRows
        ensures { listed_pieces result ≡ replicate 12 [] }
    {
        PieceRows {
            pieces: [RowBuffer::new(); PIECES],
        }
    }

    /// Puts a row behind the others of a piece, unless there is no such piece or it is full.
    pub fn push(&mut self, piece: usize, row: Row) -> Result<(), Full>
        ensures answer { is_ok result ≡ piece_takes (listed_pieces self.old) piece }
        ensures after { listed_pieces self.new ≡ (if is_ok result then put_in (listed_pieces self.old) piece row else listed_pieces self.old) }
    {
        if piece >= PIECES {
            return Err(Full);
        }
        // Lent by a name of their own, since the check takes no loan of one element out of a field; a copy put back took longer.
        let pieces = &mut self.pieces;
        pieces[piece].push(row)
    }

    // How long each piece is.
    pub(crate) fn lens(&self) -> [u8; PIECES]
        ensures lengths { result ≡ map length (listed_pieces self.now) }
        ensures short { (p : ℕ) → slice_index result p ≤ 16 }
    {
        self.pieces.map(|piece| piece.len() as u8)
    }

    /// The rows of a schedule that has this main line and these pieces, blank rows behind each.
    pub fn laid_behind(&self, main: &MainRows) -> [Row; SCHEDULE_ROWS]
        ensures { result ≡ schedule_rows (listed main.now) (exit_pieces (listed_pieces self.now)) (join_pieces (listed_pieces self.now)) }
    {
        let mut rows = [Row::blank(); SCHEDULE_ROWS];
        main.rows.lay(&mut rows, 0);
        for (p, piece) in self.pieces.iter().enumerate() {
            piece.lay(&mut rows, MAIN_ROWS + PIECE_ROWS * p);
        }
        rows
    }
}
