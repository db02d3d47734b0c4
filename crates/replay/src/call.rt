// Calls on a shelf, and what they answer.
use shelf::Refusal;
use validator::Verdict;

/// A call on a shelf, with its arguments.
#[derive(Clone, Copy)]
pub enum Call<'a> {
    Source { region: usize, text: &'a [u8] },
    Schedule { region: usize, text: &'a [u8] },
    /// `lent` is how many term rows the check is lent, or all that there are where they are fewer.
    Check { region: usize, lent: usize },
    HandOut { region: usize },
    Drop { region: usize },
}

/// What a granted call answers.
#[derive(Clone, Copy)]
pub enum Granted {
    /// A SOURCE, SCHEDULE or DROP.
    Done,
    /// A CHECK, and this is its verdict.
    Judged(Verdict),
    /// A HAND-OUT: it saw the schedule's rows.
    HandedOut,
}

/// What a call answers.
pub type Answer = Result<Granted, Refusal>;
