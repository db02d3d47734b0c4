// Why a call is declined.
ghost use Rattle.std.specs.Prelude.{◌≡◌};

use region::Misfit;
use region_text::{Fault, Layer};
use validator::Unfit;

/// What a call is declined for, in the order of the printed numbers.
#[derive(Clone, Copy)]
pub enum Number {
    /// 1: the rows or labels are not as many as the regions own, or a CHECK is lent fewer than 512 term rows.
    Sizes,
    /// 2: there is no such region.
    Region,
    /// 3: the region holds no source.
    Source,
    /// 4: the region holds no schedule.
    Schedule,
    /// 5: the schedule has not passed.
    NotPassed,
    /// 6 to 10: the text is at fault.
    Text(Fault),
    /// 11: the line has no such entry.
    Entry,
    /// 12: the state is not 80 words.
    State,
}

impl Number {
    ghost use Rattle.shelf.specs.Refusals.{printed_number};

    /// The number that is printed.
    // No `as u8`: a text's fault has a number of its own.
    pub fn printed(self) -> u8
        ensures { result ≡ printed_number self }
    {
        match self {
            Number::Sizes => 1,
            Number::Region => 2,
            Number::Source => 3,
            Number::Schedule => 4,
            Number::NotPassed => 5,
            Number::Text(fault) => fault.number(),
            Number::Entry => 11,
            Number::State => 12,
        }
    }
}

/// Why a call is declined. A line or a field that does not apply is 0.
#[derive(Clone, Copy)]
pub struct Refusal {
    pub number: Number,
    pub line: usize,
    pub field: usize,
    pub layer: Layer,
}

// A refusal that is not about a text has no place in one.
impl From<Number> for Refusal {
    ghost use Rattle.shelf.specs.Refusals.{without_place};

    ghost from_gives = { λ n r. r ≡ without_place n };

    fn from(number: Number) -> Refusal {
        Refusal {
            number,
            line: 0,
            field: 0,
            layer: Layer::Shelf,
        }
    }
}

impl From<region_text::Refusal> for Refusal {
    ghost use Rattle.shelf.specs.Refusals.{of_text};

    ghost from_gives = { λ f r. r ≡ of_text f };

    fn from(f: region_text::Refusal) -> Refusal {
        Refusal {
            number: Number::Text(f.fault),
            line: f.line,
            field: f.field,
            layer: f.layer,
        }
    }
}

impl From<Misfit> for Refusal {
    ghost use Rattle.shelf.specs.Refusals.{of_misfit};

    ghost from_gives = { λ f r. r ≡ of_misfit f };

    fn from(f: Misfit) -> Refusal {
        match f {
            Misfit::Rows => Number::Sizes.into(),
            Misfit::Entry => Number::Entry.into(),
            Misfit::State => Number::State.into(),
        }
    }
}

impl From<Unfit> for Refusal {
    ghost use Rattle.shelf.specs.declared.refusal.Number.TheVariants.{Sizes};
    ghost use Rattle.shelf.specs.Refusals.{without_place};

    ghost from_gives = { λ _ r. r ≡ without_place Sizes };

    fn from(_f: Unfit) -> Refusal {
        Number::Sizes.into()
    }
}
