ghost use Rattle.std.specs.Prelude.{◌≤◌, length, take};
ghost use Rattle.numbering.specs.Rows.{Distinct};
ghost use Rattle.numbering.specs.Chains.{Chained, linked_buckets};

use crate::chains::Chains;
use crate::kind::Kind;

/// Numbered rows in lent memory: the first `len` have a number, which is their place. No two of them are equal.
/// A length stands beside the rows since no library uses the heap: the memory is the caller's.
#[derive(Drop)]
pub struct Table<'a, R: Kind + Copy> {
    pub(crate) rows: &'a mut [R],
    pub(crate) len: usize,
    pub(crate) chains: Chains,
    ghost inside: { len ≤ length rows.now },
    ghost distinct: { Distinct R.equals (take len rows.now) },
    ghost chained: { Chained (linked_buckets R.hash_of (take len rows.now)) chains },
}
