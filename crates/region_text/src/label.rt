use region::LabelRow;

/// A label row among those that a source declares.
/// A type of its own, since the kind of rows that a table numbers is told where their type is declared.
#[derive(Clone, Copy)]
pub(crate) struct Declared {
    pub(crate) row: LabelRow,
}
