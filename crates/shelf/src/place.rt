// Where a region lies.
use super::record::Record;

/// A region that a call found: what is kept of it, and where its rows and its label rows begin.
#[derive(Clone, Copy)]
pub(crate) struct Place {
    pub(crate) record: Record,
    pub(crate) rows: usize,
    pub(crate) labels: usize,
}
