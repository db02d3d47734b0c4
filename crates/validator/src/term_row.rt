// The rows of the table of terms.
ghost use Rattle.std.specs.Prelude.{◌≡◌};

use domain::Op;
use numbering::Kind;

/// A term, whose parts are named by the numbers of their rows.
#[derive(Clone, Copy, PartialEq, Eq)]
pub enum TermRow {
    RegisterAtEntry(u8),
    BankAtEntry(u8),
    Literal(u16),
    /// `exchangeable` tells whether the operands may be exchanged.
    Operate {
        op: Op,
        exchangeable: bool,
        left: u16,
        right: u16,
    },
    Load {
        bank: u16,
        address: u16,
    },
    Store {
        bank: u16,
        address: u16,
        value: u16,
    },
}

impl TermRow {
    ghost use Rattle.validator.specs.TermRows.{ordered as ordered_row, mixed as mix};

    // The row with operands that may be exchanged in ascending order.
    fn ordered(self) -> TermRow
        ensures { result ≡ ordered_row self }
    {
        match self {
            TermRow::Operate {
                op,
                exchangeable: true,
                left,
                right,
            } => TermRow::Operate {
                op,
                exchangeable: true,
                left: left.min(right),
                right: left.max(right),
            },
            row => row,
        }
    }

    // The parts of a row, mixed: each has a weight of its own, so that rows spread over the buckets.
    fn mixed(self) -> usize
        ensures { result ≡ mix self }
    {
        match self {
            TermRow::RegisterAtEntry(i) => i as usize,
            TermRow::BankAtEntry(k) => 16 + k as usize,
            TermRow::Literal(n) => 20 + n as usize,
            TermRow::Operate {
                op,
                left,
                right,
                ..
            } => 31 * (op as usize) + 67 * (left as usize) + 29 * (right as usize),
            TermRow::Load { bank, address } => 7 + 113 * (bank as usize) + 37 * (address as usize),
            TermRow::Store {
                bank,
                address,
                value,
            } => 5 + 113 * (bank as usize) + 37 * (address as usize) + 67 * (value as usize),
        }
    }
}

/// Two rows are equal where they are built alike, exchangeable operands in either order.
impl Kind for TermRow {
    ghost use Rattle.validator.specs.TermRows.{row_equals, row_hash};
    ghost use Rattle.validator.specs.Equal;

    ghost equals = { row_equals };

    ghost hash_of = { row_hash };

    ghost equivalence = { Equal.equivalence };

    ghost alike = { Equal.alike };

    fn same(&self, other: &Self) -> bool {
        self.ordered() == other.ordered()
    }

    fn hash(&self) -> usize {
        self.ordered().mixed()
    }
}
