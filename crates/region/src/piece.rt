// The pieces of compensation code.
ghost use Rattle.std.specs.Prelude.{◌≡◌};

use super::layout::{EXITS, JOINS};

/// A piece of compensation code: that of an exit or that of a join, each counted from 0 from the top of the line.
#[derive(Clone, Copy, PartialEq, Eq)]
pub enum Piece {
    OfExit(usize),
    OfJoin(usize),
}

impl Piece {
    ghost use Rattle.region.specs.PieceNumbers.{piece_number};

    // The piece's number among the twelve of a line, or nothing beyond the eighth exit and the fourth join.
    pub(crate) fn number(self) -> Option<usize>
        ensures { result ≡ piece_number self }
    {
        match self {
            Piece::OfExit(k) if k < EXITS => Some(k),
            Piece::OfJoin(j) if j < JOINS => Some(EXITS + j),
            _ => None,
        }
    }
}
