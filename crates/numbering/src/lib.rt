//! A numbering table: rows of any kind get numbers, and equal rows get one number.
//!
//! This is hash-consing: a row that is numbered again is found, not put in again, so that two rows are equal exactly where their numbers are.
//! The rows lie in memory that the caller lends. A row is looked for in the chain of its bucket; from number 512 on rows are not linked, and are scanned.
#![tactic(auto)]

ghost use Rattle.std.specs.Prelude.{◌≡◌, ◌+◌, ◌<◌, None, length, take, drop, slice_set};
ghost use Rattle.numbering.specs.Rows.{KeptDistinct, OneNumber, found, numbered, with_row};
ghost use Rattle.numbering.specs.Chains.{bucket as bucket_of};
ghost use Rattle.numbering.specs.Used.{capacity, used};

mod chains;
mod kind;
mod table;
#[cfg(test)]
mod tests;

use chains::{BUCKETS, Chains, LINKED_ROWS};
pub use kind::Kind;
pub use table::Table;

impl<'a, R: Kind + Copy> Table<'a, R> {
    /// A table in which no row has a number yet; it has room for as many as are lent.
    pub fn new(rows: &'a mut [R]) -> Self
        ensures empty { result.len ≡ 0 }
        ensures lent { result.rows.now ≡ rows.old }
        ensures named { result.rows.ghost_name ≡ rows.entry.ghost_name }
    {
        Table {
            len: 0,
            rows,
            chains: Chains::new(),
        }
    }

    /// The rows that have a number, each at the place that is its number.
    pub fn rows(&self) -> &[R]
        ensures { result.now ≡ used self.now }
    {
        &self.rows[..self.len]
    }

    /// How many rows have a number.
    pub fn len(&self) -> usize
        ensures { result ≡ length (used self.now) }
    {
        self.rows().len()
    }

    /// The number of the row, or `None` where it has none.
    pub fn find(&self, row: &R) -> Option<usize>
        ensures { result ≡ found R.equals (used self.now) row.now }
    {
        self.find_in(bucket(row), row)
    }

    /// The number of the row, which gets the next one where it had none; `None` where there is no room for it, and then nothing is altered.
    pub fn number(&mut self, row: R) -> Option<usize>
        ensures answer { result ≡ numbered R.equals (capacity self.old) (used self.old) row }
        ensures used { used self.new ≡ with_row R.equals (capacity self.old) (used self.old) row }
        ensures beyond { drop self.new.len self.new.rows.now ≡ drop self.new.len self.old.rows.now }
        ensures room { capacity self.new ≡ capacity self.old }
        ensures named { self.new.rows.ghost_name ≡ self.old.rows.ghost_name }
        ensures distinct { KeptDistinct R.equals (used self.old) (used self.new) }
        ensures one { OneNumber R.equals (used self.old) (used self.new) row result }
    {
        let bucket = bucket(&row);
        if let Some(i) = self.find_in(bucket, &row) {
            return Some(i);
        }
        let i = self.len;
        if i == self.rows.len() {
            return None;
        }
        self.push(bucket, row);
        Some(i)
    }

    /// The number of a row of that bucket, or `None` where it has none.
    fn find_in(&self, bucket: usize, row: &R) -> Option<usize>
        requires { bucket ≡ bucket_of R.hash_of row.now }
        ensures { result ≡ found R.equals (used self.now) row.now }
    {
        match self.find_linked(bucket, row) {
            Some(i) => Some(i),
            None => self.find_unlinked(row),
        }
    }

    /// The number of a row of that bucket among the rows that are linked: the search goes down the bucket's chain.
    fn find_linked(&self, bucket: usize, row: &R) -> Option<usize>
        requires { bucket ≡ bucket_of R.hash_of row.now }
        ensures { result ≡ found R.equals (take 512 (used self.now)) row.now }
    {
        let rows = self.rows();
        let mut link = self.chains.heads[bucket] as usize;
        while link > 0 {
            let i = link - 1;
            if rows[i].same(row) {
                return Some(i);
            }
            link = self.chains.links[i] as usize;
        }
        None
    }

    /// The number of a row that is none of the rows that are linked: the others are scanned.
    fn find_unlinked(&self, row: &R) -> Option<usize>
        requires { found R.equals (take 512 (used self.now)) row.now ≡ None }
        ensures { result ≡ found R.equals (used self.now) row.now }
    {
        let rows = self.rows();
        for i in LINKED_ROWS..rows.len() {
            if rows[i].same(row) {
                return Some(i);
            }
        }
        None
    }

    /// Puts a row of that bucket that has no number behind the used rows, where there is room for it.
    fn push(&mut self, bucket: usize, row: R)
        requires room { self.old.len < capacity self.old }
        requires bucket { bucket ≡ bucket_of R.hash_of row }
        requires new { found R.equals (used self.old) row ≡ None }
        ensures rows { self.new.rows.now ≡ slice_set self.old.rows.now self.old.len row }
        ensures count { self.new.len ≡ self.old.len + 1 }
        ensures named { self.new.rows.ghost_name ≡ self.old.rows.ghost_name }
    {
        self.rows[self.len] = row;
        self.chains.link(self.len, bucket);
        self.len += 1;
    }
}

/// The bucket of a row.
fn bucket<R: Kind>(row: &R) -> usize
    ensures { result ≡ bucket_of R.hash_of row.now }
{
    row.hash() % BUCKETS
}
