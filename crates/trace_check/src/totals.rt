// How many pairs came to each end.
use desk::Declined;
use std::fmt;
use validator::Verdict;

/// How many pairs came to each end, and how many schedules could not be written. The sums saturate, as nothing says here
/// how many pairs there are.
#[derive(Clone, Copy, Default)]
pub struct Totals {
    passed: usize,
    failed: usize,
    refused: usize,
    unwritten: usize,
}

impl Totals {
    pub(crate) fn count(&mut self, answer: Result<Verdict, Declined>) {
        match answer {
            Ok(Verdict::Passed) => self.passed = self.passed.saturating_add(1),
            Ok(Verdict::Failed(_)) => self.failed = self.failed.saturating_add(1),
            Err(_) => self.count_refused(),
        }
    }

    pub(crate) fn count_refused(&mut self) {
        self.refused = self.refused.saturating_add(1);
    }

    pub(crate) fn count_unwritten(&mut self) {
        self.unwritten = self.unwritten.saturating_add(1);
    }

    /// Whether all pairs passed, and what was to be written is written.
    pub(crate) fn all_well(self) -> bool {
        self.failed == 0 && self.refused == 0 && self.unwritten == 0
    }
}

impl fmt::Display for Totals {
    fn fmt<W: fmt::Write>(&self, f: &mut fmt::Formatter<W>) -> fmt::Result {
        let passed = self.passed;
        let failed = self.failed;
        let refused = self.refused;
        write!(
            f,
            "total {passed} passed, {failed} failed, {refused} refused"
        )
    }
}
