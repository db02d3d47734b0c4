// The rows of a region.
ghost use Rattle.std.specs.Prelude.{◌≡◌};

use super::numbers::{Bank, LabelNumber, Register};
use domain::Op;

/// What a row does to a state, and what a scheduler may move: all but the places where a line is left or entered.
#[derive(Clone, Copy)]
pub enum Action {
    /// Register `to` becomes the operation on registers `left` and `right`.
    Operate {
        op: Op,
        to: Register,
        left: Register,
        right: Register,
    },
    /// Register `to` becomes a literal.
    Literal {
        to: Register,
        value: u16,
    },
    /// Register `to` becomes the cell of `bank` at the slot of register `address`.
    Load {
        to: Register,
        bank: Bank,
        address: Register,
    },
    /// That cell of `bank` becomes register `from`.
    Store {
        bank: Bank,
        address: Register,
        from: Register,
    },
}

/// A row: an action, a side exit, or a join.
#[derive(Clone, Copy)]
pub enum Row {
    Act(Action),
    /// Leaves the line for the label when register `tested` is true.
    Exit {
        tested: Register,
        label: LabelNumber,
    },
    /// A place where control enters the line from elsewhere.
    Join,
}

impl Row {
    ghost use Rattle.region.specs.Rows.{blank as unused};

    /// The row that stands in an unused place: register 0 becomes literal 0.
    pub fn blank() -> Row
        ensures { result ≡ unused }
    {
        Row::Act(Action::Literal {
            to: Register::new(0).unwrap(),
            value: 0,
        })
    }
}
