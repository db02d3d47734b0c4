ghost use Rattle.std.specs.Prelude.{◌≡◌};
ghost use Rattle.domain.specs.Wrapping.{commuting_words};

/// The operations of a row, in the order of their numbers: add is 0, or is 7.
#[derive(Clone, Copy, PartialEq, Eq)]
pub enum Op {
    Add,
    Sub,
    Mul,
    Div,
    Lt,
    Eq,
    And,
    Or,
}

impl Op {
    /// Whether the operation on two numbers is the same with its operands exchanged, wrapping or not.
    pub(crate) fn is_symmetric(self) -> bool
        ensures { result ≡ commuting_words self }
    {
        matches!(self, Op::Add | Op::Mul | Op::Eq | Op::And | Op::Or)
    }
}
