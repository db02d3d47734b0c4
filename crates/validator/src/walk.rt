// Walks on the numbers of terms.
use super::terms::TERM_ROWS;
use region::LabelNumber;

/// A symbolic state: the numbers of the registers' and of the banks' terms, and the set of those that may have trapped.
#[derive(Clone, Copy)]
pub(crate) struct Walk {
    pub(crate) registers: [u16; 16],
    pub(crate) banks: [u16; 4],
    // A set of numbers below 512, as an array of marks: no heap.
    pub(crate) traps: [bool; TERM_ROWS],
}

/// A stop of a walk; the last one has no condition.
#[derive(Clone, Copy)]
pub(crate) struct Reached {
    pub(crate) condition: Option<u16>,
    pub(crate) label: LabelNumber,
    pub(crate) walk: Walk,
}
