// Calls, one after the other. What they work on stays four parameters: a struct of four `&mut` would have to say in each
// contract that it still holds the same four.
ghost use Rattle.std.specs.Prelude.{◌≡◌, ℕ, ◌≤◌, min, [], length, take, drop};
ghost use Rattle.shelf.specs.Calls.{check_answer, check_put, settled};
ghost use Rattle.shelf.specs.Store.{store};
ghost use Rattle.replay.specs.Events.{history};
ghost use Rattle.replay.specs.Requests.{asked};
ghost use Rattle.replay.specs.Answers.{answer_to};
ghost use Rattle.replay.specs.Steps.{Kept, store_after};

use super::call::{Answer, Call, Granted};
use domain::Domain;
use region::{LabelRow, Row};
use shelf::{Refusal, Shelf};
use validator::{TermRow, Verdict};

// A check that is lent the first so many of the term rows, or all of them where they are fewer.
fn check_lent<D: Domain>(
    shelf: &mut Shelf,
    rows: &[Row],
    labels: &[LabelRow],
    terms: &mut [TermRow],
    region: usize,
    lent: usize,
) -> Result<Verdict, Refusal>
    ensures answer { let st = store shelf.old rows.now labels.now in result ≡ check_answer D.meaning st region (min lent (length terms.old)) }
    ensures after { let st = store shelf.old rows.now labels.now in store shelf.new rows.now labels.now ≡ settled st (check_put st region) result }
    ensures room { length terms.new ≡ length terms.old }
{
    let count = lent.min(terms.len());
    shelf.check::<D>(rows, labels, &mut terms[..count], region)
}

/// Makes a call.
pub(crate) fn make<D: Domain>(
    shelf: &mut Shelf,
    rows: &mut [Row],
    labels: &mut [LabelRow],
    terms: &mut [TermRow],
    call: Call,
) -> Answer
    ensures answer { let st = store shelf.old rows.old labels.old in result ≡ answer_to D.meaning (length terms.old) st (asked call.entry) }
    ensures after { let st = store shelf.old rows.old labels.old in store shelf.new rows.new labels.new ≡ store_after D.meaning (length terms.old) st (asked call.entry) }
    ensures room { length terms.new ≡ length terms.old }
{
    match call {
        Call::Source { region, text } => shelf
            .put_source(rows, labels, region, text)
            .map(|()| Granted::Done),
        Call::Schedule { region, text } => shelf
            .put_schedule(rows, labels, region, text)
            .map(|()| Granted::Done),
        Call::Check { region, lent } => {
            check_lent::<D>(shelf, rows, labels, terms, region, lent).map(Granted::Judged)
        }
        Call::HandOut { region } => shelf
            .hand_out(rows, labels, region)
            .map(|_| Granted::HandedOut),
        Call::Drop { region } => shelf
            .drop_region(rows, labels, region)
            .map(|()| Granted::Done),
    }
}

/// Makes the calls in order, and writes each one's answer at its place.
pub(crate) fn make_all<D: Domain>(
    shelf: &mut Shelf,
    rows: &mut [Row],
    labels: &mut [LabelRow],
    terms: &mut [TermRow],
    calls: &[Call],
    answers: &mut [Answer],
)
    requires { length calls.now ≤ length answers.old }
    ensures kept { let st = store shelf.old rows.old labels.old in let st' = store shelf.new rows.new labels.new in ((n : ℕ) → Kept D.meaning (length terms.old) n st [] → Kept D.meaning (length terms.old) n st' (history [] calls.now (take (length calls.now) answers.new))) }
    ensures beyond { drop (length calls.now) answers.new ≡ drop (length calls.now) answers.old }
    ensures room { length terms.new ≡ length terms.old }
{
    // By index: tried as a zip with the answers, and the proof didn't close, since nothing says then which of them were written.
    for (i, call) in calls.iter().enumerate() {
        answers[i] = make::<D>(shelf, rows, labels, terms, *call);
    }
}
