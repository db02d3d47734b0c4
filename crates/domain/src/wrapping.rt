// W: words modulo 2^32. Nothing traps.
ghost use Rattle.domain.specs.Wrapping.{wrapping};
ghost use Rattle.std.proofs.Common.{rules, mul_comm, mod-lt, lit<};
ghost use Rattle.std.proofs.lemmas.Nat.{and_comm, or_comm};
ghost use Rattle.std.specs.Prelude.{◌%◌};
ghost use Rattle.domain.specs.Ranges.{below_some};

use super::{Domain, Op, Slot};

/// A number of 32 bits without a sign.
#[derive(Clone, Copy, PartialEq, Eq)]
pub struct Wrapping {
    pub value: u32,
}

impl Domain for Wrapping {
    ghost meaning = { wrapping };

    ghost lawful = { record {
      trapless = Prim.search rules;
      trapless_address = λ a _. below_some 16 (λ n h. record { index = n; fits = h }) (a.value % 16) (mod-lt a.value (lit< tt));
      commuting = Prim.search (rules, and_comm, or_comm, mul_comm);
    } };

    fn apply(op: Op, a: Wrapping, b: Wrapping) -> Option<Wrapping> {
        let x = a.value;
        let y = b.value;
        let value = match op {
            Op::Add => x.wrapping_add(y),
            Op::Sub => x.wrapping_sub(y),
            Op::Mul => x.wrapping_mul(y),
            Op::Div => x.checked_div(y).unwrap_or(u32::MAX),
            Op::Lt => u32::from(x < y),
            Op::Eq => u32::from(x == y),
            Op::And => x & y,
            Op::Or => x | y,
        };
        Some(Wrapping { value })
    }

    fn literal(n: u16) -> Wrapping {
        Wrapping {
            value: u32::from(n),
        }
    }

    fn truth(self) -> bool {
        self.value != 0
    }

    fn slot(self) -> Option<Slot> {
        Slot::new((self.value % 16) as usize)
    }

    fn may_trap(_op: Op) -> bool {
        false
    }

    fn may_trap_address() -> bool {
        false
    }

    fn commutes(op: Op) -> bool {
        op.is_symmetric()
    }
}
