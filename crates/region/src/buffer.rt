// Rows that are put in one after the other.
ghost use Rattle.std.specs.Prelude.{◌≡◌, ◌≤◌, take};
ghost use Rattle.region.specs.Rows.{blank, laid};

use super::full::Full;
use super::row::Row;

/// Rows that are put in one after the other, among `N` places; blank rows stand behind them.
// An array and a length: a region's rows lie in memory of a fixed size, and no call of a library here uses the heap.
#[derive(Clone, Copy)]
pub struct RowBuffer<const N: usize> {
    rows: [Row; N],
    len: usize,
    ghost few: { len ≤ N },
    ghost padded: { rows ≡ laid N blank (take len rows) },
}

impl<const N: usize> RowBuffer<N> {
    ghost use Rattle.std.specs.Prelude.{◌+◌, [], ◌∷◌, ◌++◌, if◌then◌else◌, is_ok, length, nat_lt, drop};
    ghost use Rattle.region.specs.Filled.{filled};

    // No rows yet.
    pub(crate) fn new() -> RowBuffer<N>
        ensures { filled result ≡ [] }
    {
        RowBuffer {
            rows: [Row::blank(); N],
            len: 0,
        }
    }

    // Puts a row behind the others, where there is a place.
    pub(crate) fn push(&mut self, row: Row) -> Result<(), Full>
        ensures answer { is_ok result ≡ nat_lt (length (filled self.old)) N }
        ensures after { filled self.new ≡ (if is_ok result then filled self.old ++ row ∷ [] else filled self.old) }
    {
        if self.len >= N {
            return Err(Full);
        }
        self.rows[self.len] = row;
        self.len += 1;
        Ok(())
    }

    // How many rows were put in.
    pub(crate) fn len(&self) -> usize
        ensures count { result ≡ length (filled self.now) }
        ensures few { result ≤ N }
    {
        self.len
    }

    // The rows that were put in, and blank rows behind them.
    pub(crate) fn rows(&self) -> [Row; N]
        ensures { result ≡ laid N blank (filled self.now) }
    {
        self.rows
    }

    // Lays all the places over rows, from a place on.
    pub(crate) fn lay(&self, rows: &mut [Row], at: usize)
        requires { at + N ≤ length rows.old }
        ensures { rows.new ≡ take at rows.old ++ (laid N blank (filled self.now) ++ drop (at + N) rows.old) }
    {
        rows[at..at + N].copy_from_slice(&self.rows);
    }
}
