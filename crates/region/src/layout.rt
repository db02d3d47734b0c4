// The sizes of regions, lines and states, and where things lie among a region's rows.

/// The rows of a region.
pub const REGION_ROWS: usize = 384;
/// The label rows of a region.
pub const REGION_LABELS: usize = 9;
/// The words of a state: sixteen registers and four banks of sixteen cells.
pub const STATE_WORDS: usize = 80;
/// The most rows of a line, and where the schedule's main line begins.
pub const MAIN_ROWS: usize = 96;
/// The most exits of a line.
pub const EXITS: usize = 8;
/// The most joins of a line.
pub const JOINS: usize = 4;
/// The pieces of a line: one for each exit, and then one for each join.
pub const PIECES: usize = 12;
/// The rows of a schedule: its main line and its pieces.
pub const SCHEDULE_ROWS: usize = 288;
/// The most rows of a piece.
pub const PIECE_ROWS: usize = 16;
/// Where the pieces begin; those of the exits come first.
pub const EXIT_PIECES: usize = 192;
/// Where the pieces of the joins begin.
pub const JOIN_PIECES: usize = 320;
