// How a run ends, and why there may be none.
use super::numbers::LabelNumber;

/// How a run ends: at a label, or by a trap.
// No `Option` of a label: it stands in another's `Ok`, where a trap would read as if there were no run.
#[derive(Clone, Copy)]
pub enum Outcome {
    Reached(LabelNumber),
    Trapped,
}

/// Why there is no run: the rows are not a region's, the line has no such entry, or the state is not 80 words.
#[derive(Clone, Copy)]
pub enum Misfit {
    Rows,
    Entry,
    State,
}
