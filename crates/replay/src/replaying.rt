// Replays of lists of calls.
ghost use Rattle.std.specs.Prelude.{◌≡◌, length, OnErr};
ghost use Rattle.shelf.specs.Store.{store};
ghost use Rattle.replay.specs.Law.{Replayed};

use super::call::{Answer, Call};
use super::making::make_all;
use domain::Domain;
use region::{LabelRow, Row};
use shelf::{Refusal, Shelf};
use validator::TermRow;

/// Opens the shelf, makes the calls on it in order, and writes each call's answer at its place. As many calls are made as
/// there is room for answers, and that number is answered. Where OPEN is declined no call is made, and nothing is altered.
///
/// The law over calls holds of every such list (`Law` in the crate's specs).
pub fn replay<D: Domain>(
    shelf: &mut Shelf,
    rows: &mut [Row],
    labels: &mut [LabelRow],
    terms: &mut [TermRow],
    calls: &[Call],
    answers: &mut [Answer],
) -> Result<usize, Refusal>
    ensures law { let st = store shelf.old rows.old labels.old in let st' = store shelf.new rows.new labels.new in Replayed D.meaning (length terms.old) calls.now st st' answers.old answers.new result }
    ensures room { length terms.new ≡ length terms.old }
    ensures unopened { OnErr result (terms.new ≡ terms.old) }
{
    let _ = shelf.open(rows, labels)?;
    let made = calls.len().min(answers.len());
    make_all::<D>(shelf, rows, labels, terms, &calls[..made], answers);
    Ok(made)
}
