// Where walks begin.
ghost use Rattle.std.specs.Prelude.{◌≡◌, ℕ, ◌+◌, ◌≤◌, Bool, [], length};
ghost use Rattle.domain.specs.declared.op.Op.{Op as OpOf};
ghost use Rattle.validator.specs.Terms.{Term};
ghost use Rattle.validator.specs.Tidy.{Tidy};
ghost use Rattle.validator.specs.Means.{EachSays, Named, Begun};

use super::term_row::TermRow;
use super::terms::{TERM_ROWS, Terms};
use super::walk::Walk;

impl Terms<'_> {
    // The numbers of what a walk holds at an entry, where `row` gives the row of each.
    fn name<const N: usize, F: Fn(u8) -> TermRow>(&mut self, row: F) -> [u16; N]
        requires callable { F.IsAlwaysCallable row }
        requires bytes { N ≤ 256 }
        requires room { length self.old + N ≤ 512 }
        ensures few { length self.new ≤ length self.old + N }
        ensures long { length result ≡ N }
        ensures named { (commutes : OpOf → Bool) (f : ℕ → Term) → EachSays commutes (F.post row) f → Tidy commutes self.old → Named commutes self.old self.new result f N }
    {
        let mut numbers = [0; N];
        for (i, number) in numbers.iter_mut().enumerate() {
            *number = self.intern(row(i as u8));
        }
        numbers
    }
}

impl Walk {
    /// The symbolic state at an entry, in a table that has no terms.
    pub(crate) fn at_entry(terms: &mut Terms) -> Walk
        requires empty { terms.old ≡ [] }
        ensures few { length terms.new ≤ 20 }
        ensures begun { (commutes : OpOf → Bool) → Begun commutes terms.new result }
    {
        let registers = terms.name(TermRow::RegisterAtEntry);
        let banks = terms.name(TermRow::BankAtEntry);
        Walk {
            registers,
            banks,
            traps: [false; TERM_ROWS],
        }
    }
}
