// RUN.
ghost use Rattle.std.specs.Prelude.{◌≡◌};
ghost use Rattle.shelf.specs.Store.{store};
ghost use Rattle.shelf.specs.Calls.{outcome_of, run_answer, state_of};

use super::super::parts::part_at;
use super::super::refusal::Refusal;
use super::Shelf;
use domain::Domain;
use machine::run;
use region::{LabelRow, Outcome, REGION_ROWS, Row, Side};

impl Shelf {
    /// RUN: runs the source or the schedule of a region from an entry, on a state of its own.
    pub fn run<D: Domain>(
        &self,
        rows: &[Row],
        labels: &[LabelRow],
        region: usize,
        side: Side,
        entry: usize,
        state: &mut [D],
    ) -> Result<Outcome, Refusal>
        ensures answer { let st = store self.now rows.now labels.now in result ≡ outcome_of (run_answer D.meaning st region side entry state.old) }
        ensures after { let st = store self.now rows.now labels.now in state.new ≡ state_of state.old (run_answer D.meaning st region side entry state.old) }
    {
        let place = self.placed(rows.len(), labels.len(), region)?;
        let shape = place.record.line(side)?;
        let mine = part_at(rows, place.rows, REGION_ROWS);
        Ok(run(mine, side, &shape, entry, state)?)
    }
}
