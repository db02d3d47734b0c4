// The calls that check pairs, and what they answer.
use super::texts::Waiting;
use desk::{Call as Step, Declined};
use replay::{Answer, Call, Granted};
use std::alloc::{AllocError, Global};
use validator::{TERM_ROWS, Verdict};

/// SOURCE, SCHEDULE and CHECK of a region.
pub(crate) fn pair_calls<'a>(region: usize, source: &'a [u8], schedule: &'a [u8]) -> [Call<'a>; 3] {
    [
        Call::Source {
            region,
            text: source,
        },
        Call::Schedule {
            region,
            text: schedule,
        },
        Call::Check {
            region,
            lent: TERM_ROWS,
        },
    ]
}

/// The calls that check the pairs of a shelf, each in the region of its place. A pair that cannot be read has none.
pub(crate) fn shelf_calls<'a>(
    heap: Global,
    shelf: &'a [Waiting<'a>],
) -> Result<Vec<Call<'a>>, AllocError> {
    let mut calls = Vec::new(heap);
    for (region, waiting) in shelf.iter().enumerate() {
        if let Ok(texts) = &waiting.read {
            calls.extend_from_slice(&pair_calls(
                region,
                texts.source.bytes.as_slice(),
                texts.schedule.bytes.as_slice(),
            ))?;
        }
    }
    Ok(calls)
}

/// The answers of calls, as far as they are still to be read.
#[derive(Clone, Copy)]
pub struct Answers<'a>(pub &'a [Answer]);

impl Answers<'_> {
    /// What the calls of the next pair answer: the verdict, or the first call that was declined. Nothing where no three
    /// answers are left; by the law over calls a CHECK that is granted has a verdict.
    pub(crate) fn next_pair(&mut self) -> Option<Result<Verdict, Declined>> {
        let [source, schedule, check, left @ ..] = self.0 else {
            return None;
        };
        self.0 = left;
        let (call, refusal) = match (source, schedule, check) {
            (Err(refusal), _, _) => (Step::Source, *refusal),
            (_, Err(refusal), _) => (Step::Schedule, *refusal),
            (_, _, Err(refusal)) => (Step::Check, *refusal),
            (_, _, Ok(Granted::Judged(verdict))) => return Some(Ok(*verdict)),
            (_, _, Ok(Granted::Done | Granted::HandedOut)) => return None,
        };
        Some(Err(Declined { call, refusal }))
    }
}
