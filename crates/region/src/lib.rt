// The rows of a region, how they are laid out, and what they mean.
#![tactic(auto)]

mod buffer;
mod entering;
mod full;
mod label;
mod layout;
mod line_rows;
mod main_rows;
mod numbers;
mod outcome;
mod piece;
mod piece_rows;
mod row;
mod shape;
mod side;

pub use entering::{Entered, Position, below};
pub use full::Full;
pub use label::{LabelRow, Name};
pub use layout::{
    EXIT_PIECES, EXITS, JOIN_PIECES, JOINS, MAIN_ROWS, PIECE_ROWS, PIECES, REGION_LABELS,
    REGION_ROWS, SCHEDULE_ROWS, STATE_WORDS,
};
pub use line_rows::LineRows;
pub use main_rows::MainRows;
pub use numbers::{Bank, LabelNumber, Register};
pub use outcome::{Misfit, Outcome};
pub use piece::Piece;
pub use piece_rows::PieceRows;
pub use row::{Action, Row};
pub use shape::Shape;
pub use side::Side;
