// What is kept of a region.
ghost use Rattle.std.specs.Prelude.{◌≡◌};

use super::refusal::{Number, Refusal};
use region::{Shape, Side};
use validator::Verdict;

/// What is kept of a region: the shapes of the source and of the schedule that are held, and the mark, which is the
/// verdict of the last check of that schedule. A region that holds nothing has the default.
#[derive(Clone, Copy, Default)]
pub struct Record {
    pub source: Option<Shape>,
    pub schedule: Option<Shape>,
    pub mark: Option<Verdict>,
}

impl Record {
    ghost use Rattle.region.specs.Kept.{kept};
    ghost use Rattle.shelf.specs.Store.{kept_region};
    ghost use Rattle.shelf.specs.Calls.{kept_line, line_of, marked as with_mark, passing, scheduled as with_schedule};

    // The shape of a line that is held.
    pub(crate) fn line(self, side: Side) -> Result<Shape, Refusal>
        ensures { kept_line result ≡ line_of side (kept_region self) }
    {
        match (self.source, side, self.schedule) {
            (None, _, _) => Err(Number::Source.into()),
            (Some(_), Side::Schedule, None) => Err(Number::Schedule.into()),
            (Some(held), Side::Source, _) | (Some(_), Side::Schedule, Some(held)) => Ok(held),
        }
    }

    // Declines what only a passed schedule is granted.
    pub(crate) fn passed(self) -> Result<(), Refusal>
        ensures { result ≡ passing self.mark }
    {
        match self.mark {
            Some(Verdict::Passed) => Ok(()),
            Some(Verdict::Failed(_)) | None => Err(Number::NotPassed.into()),
        }
    }

    // The record with that schedule in place of any other, and no mark.
    pub(crate) fn scheduled(self, shape: Shape) -> Record
        ensures { kept_region result ≡ with_schedule (kept_region self) (kept shape) }
    {
        Record {
            schedule: Some(shape),
            mark: None,
            ..self
        }
    }

    // The record with that verdict as its mark.
    pub(crate) fn marked(self, verdict: Verdict) -> Record
        ensures { kept_region result ≡ with_mark (kept_region self) verdict }
    {
        Record {
            mark: Some(verdict),
            ..self
        }
    }
}
