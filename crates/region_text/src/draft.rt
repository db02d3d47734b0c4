// What the readers answer. Rows and labels stand in arrays, since no library uses the heap: the shelf copies them into the memory that it is lent.
use region::{LabelRow, MAIN_ROWS, REGION_LABELS, Row, SCHEDULE_ROWS, Shape};

/// A source as it was read: its labels and then unused label rows, its rows and then blank rows, and what is kept of it beside them.
#[derive(Clone, Copy)]
pub struct SourceDraft {
    pub labels: [LabelRow; REGION_LABELS],
    pub rows: [Row; MAIN_ROWS],
    pub shape: Shape,
}

/// A schedule as it was read: its main rows, the pieces of eight exits and those of four joins, with blank rows behind each, and what is kept of it beside them.
#[derive(Clone, Copy)]
pub struct ScheduleDraft {
    pub rows: [Row; SCHEDULE_ROWS],
    pub shape: Shape,
}
