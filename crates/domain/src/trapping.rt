// T: numbers of 32 bits with a sign. A result that does not fit traps.
ghost use Rattle.std.specs.Prelude.{◌≡◌};
ghost use Rattle.std.proofs.Math.IntN.{+ℤ_comm, *ℤ_comm};
ghost use Rattle.domain.specs.Trapping.{trapping, addressed};
ghost use Rattle.std.proofs.Common.{rules};
ghost use Rattle.std.proofs.lemmas.Nat.{and_comm, or_comm};

use super::{Domain, Op, Slot};

/// A number of 32 bits with a sign.
#[derive(Clone, Copy, PartialEq, Eq)]
pub struct Trapping {
    pub value: i32,
}

fn addressed_cell(value: i32) -> Option<Slot>
    ensures { result ≡ addressed value }
{
    let index = usize::try_from(value).ok()?;
    Slot::new(index)
}

impl Domain for Trapping {
    ghost meaning = { trapping };

    ghost lawful = { record {
      trapless = Prim.search rules;
      trapless_address = Prim.search rules;
      commuting = Prim.search (rules, and_comm, or_comm, +ℤ_comm, *ℤ_comm);
    } };

    fn apply(op: Op, a: Trapping, b: Trapping) -> Option<Trapping> {
        let x = a.value;
        let y = b.value;
        let value = match op {
            Op::Add => x.checked_add(y)?,
            Op::Sub => x.checked_sub(y)?,
            Op::Mul => x.checked_mul(y)?,
            Op::Div => x.checked_div(y)?,
            Op::Lt => i32::from(x < y),
            Op::Eq => i32::from(x == y),
            Op::And => x & y,
            Op::Or => x | y,
        };
        Some(Trapping { value })
    }

    fn literal(n: u16) -> Trapping {
        Trapping {
            value: i32::from(n),
        }
    }

    fn truth(self) -> bool {
        self.value != 0
    }

    fn slot(self) -> Option<Slot> {
        addressed_cell(self.value)
    }

    fn may_trap(op: Op) -> bool {
        matches!(op, Op::Add | Op::Sub | Op::Mul | Op::Div)
    }

    fn may_trap_address() -> bool {
        true
    }

    fn commutes(op: Op) -> bool {
        op.is_symmetric()
    }
}
