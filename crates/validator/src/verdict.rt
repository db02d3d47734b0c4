// What the comparison of a schedule with its source answers.
ghost use Rattle.std.specs.Prelude.{◌≡◌};
ghost use Rattle.validator.specs.Comparison.{verdict as verdict_of};
ghost use Rattle.validator.specs.Reasons.{reason_name};

/// What differs first between the walks of a source and of its schedule.
#[derive(Clone, Copy)]
pub enum Reason {
    /// The two lines have different numbers of joins.
    Joins,
    /// Only one of the two walks is at its last stop.
    End,
    /// The exits test different terms.
    Condition,
    /// The stops lead to different labels.
    Label,
    /// A live register holds different terms.
    Register,
    /// A bank holds different terms.
    Bank,
    /// The sets of rows that may have trapped differ.
    Traps,
}

impl Reason {
    /// The word that is printed for the reason. No `Display`: lines are made of the words of several.
    pub fn name(self) -> &'static str
        ensures { result.now ≡ reason_name self }
    {
        match self {
            Reason::Joins => "joins",
            Reason::End => "end",
            Reason::Condition => "condition",
            Reason::Label => "label",
            Reason::Register => "register",
            Reason::Bank => "bank",
            Reason::Traps => "traps",
        }
    }
}

/// The first mismatch: entries count from 0 and stops from 1; `number` is the register or bank, and else 0.
#[derive(Clone, Copy)]
pub struct Mismatch {
    pub entry: u8,
    pub stop: u8,
    pub reason: Reason,
    pub number: u8,
}

/// What a comparison answers.
// No Result<(), Mismatch>: it stands in another's Ok, where a failed pair would read as a failed call.
#[derive(Clone, Copy)]
pub enum Verdict {
    Passed,
    Failed(Mismatch),
}

impl From<Option<Mismatch>> for Verdict {
    ghost from_gives = { λ first v. v ≡ verdict_of first };

    fn from(first: Option<Mismatch>) -> Verdict {
        match first {
            None => Verdict::Passed,
            Some(mismatch) => Verdict::Failed(mismatch),
        }
    }
}
