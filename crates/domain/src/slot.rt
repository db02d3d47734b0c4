use super::below::Below;

/// The place of a cell in its bank: 0 to 15.
pub type Slot = Below<16>;
