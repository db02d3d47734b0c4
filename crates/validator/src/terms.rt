// Hash-consing: each term has one number.
ghost use Rattle.std.specs.Prelude.{◌≡◌, ◌+◌, ◌<◌, ◌≤◌, Bool, [], length};

use super::term_row::TermRow;
use numbering::Table;
use std::marker::Model;

/// How many rows of terms a comparison works with.
pub const TERM_ROWS: usize = 512;

/// The terms that have a number, in a table with room for 512. A contract sees their rows, in the order of their numbers.
// Rows name their parts by number, and no boxes: there is no heap, and a term has one number.
#[derive(Drop)]
pub(crate) struct Terms<'a> {
    table: Table<'a, TermRow>,
}

impl<'a> Model for Terms<'a> {
    ghost use Rattle.std.specs.Prelude.{◌≡◌, List};
    ghost use Rattle.numbering.specs.Used.{capacity, used};
    ghost use Rattle.validator.specs.declared.term_row.TermRow.{TermRow as RowOf};

    ghost Value = { List RowOf };

    ghost view = { λ t. used t.table };

    ghost invariant = { λ t. capacity t.table ≡ 512 };
}

impl<'a> Terms<'a> {
    ghost use Rattle.domain.specs.declared.op.Op.{Op as OpOf};
    ghost use Rattle.validator.specs.Terms.{Term};
    ghost use Rattle.validator.specs.Tidy.{Says, Tidy, Interned};

    /// No terms yet; they are put into the rows that are lent.
    pub(crate) fn new(rows: &'a mut [TermRow; TERM_ROWS]) -> Terms<'a>
        ensures { result ≡ [] }
    {
        Terms {
            table: Table::new(rows),
        }
    }

    /// The number of a term by its row, which is put in where it is new.
    pub(crate) fn intern(&mut self, row: TermRow) -> u16
        requires room { length self.old < 512 }
        ensures few { length self.new ≤ length self.old + 1 }
        ensures inside { result < 512 }
        ensures interned { (commutes : OpOf → Bool) (t : Term) → Tidy commutes self.old → Says commutes self.old row t → Interned commutes self.old self.new result t }
    {
        self.table.number(row).unwrap() as u16
    }
}
