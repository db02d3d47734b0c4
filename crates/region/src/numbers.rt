// The numbers that a row may hold. None can hold a number out of its range.
use domain::Below;

/// A register: 0 to 15.
pub type Register = Below<16>;

/// A bank of sixteen cells: 0 to 3.
pub type Bank = Below<4>;

/// A label, by its place in the order of declaration: 0 to 8.
pub type LabelNumber = Below<9>;
