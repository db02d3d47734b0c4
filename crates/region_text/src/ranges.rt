// What the numbers of fields stand for.
ghost use Rattle.domain.specs.Numbered.{numbered};
ghost use Rattle.region_text.specs.Bounds.{none_beyond};
ghost use Rattle.region_text.specs.Numbers.{op_at, literal_at};
ghost use Rattle.std.proofs.Common.{rules};

use super::fields::Ranged;
use domain::{Below, Op};

/// The operations in the order of their numbers.
const OPERATIONS: [Op; 8] = [
    Op::Add,
    Op::Sub,
    Op::Mul,
    Op::Div,
    Op::Lt,
    Op::Eq,
    Op::And,
    Op::Or,
];

impl<const N: u8> Ranged for Below<N> {
    ghost make = { numbered N };

    ghost bounded = { Prim.search (rules, none_beyond) };

    fn from_number(n: u16) -> Option<Below<N>> {
        Below::new(n as usize)
    }
}

impl Ranged for Op {
    ghost make = { op_at };

    ghost bounded = { Prim.search rules };

    fn from_number(n: u16) -> Option<Op> {
        OPERATIONS.get(n as usize).copied()
    }
}

impl Ranged for u16 {
    ghost make = { literal_at };

    ghost bounded = { Prim.search rules };

    fn from_number(n: u16) -> Option<u16> {
        Some(n)
    }
}
