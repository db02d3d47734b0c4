// CHECK.
ghost use Rattle.std.specs.Prelude.{◌≡◌, length, OnErr};
ghost use Rattle.shelf.specs.Store.{store};
ghost use Rattle.shelf.specs.Calls.{check_answer, check_put, settled};

use super::super::parts::part_at;
use super::super::refusal::{Number, Refusal};
use super::Shelf;
use domain::Domain;
use region::{LabelRow, REGION_LABELS, REGION_ROWS, Row, Side};
use validator::{TERM_ROWS, TermRow, Verdict, compare};

impl Shelf {
    /// CHECK: compares the schedule of a region with its source, sets the mark to the verdict, and answers it.
    /// The term rows are working memory: what they hold after a granted check is left open. A declined one leaves them as they were.
    pub fn check<D: Domain>(
        &mut self,
        rows: &[Row],
        labels: &[LabelRow],
        terms: &mut [TermRow],
        region: usize,
    ) -> Result<Verdict, Refusal>
        ensures answer { let st = store self.old rows.now labels.now in result ≡ check_answer D.meaning st region (length terms.old) }
        ensures after { let st = store self.old rows.now labels.now in store self.new rows.now labels.now ≡ settled st (check_put st region) result }
        ensures room { length terms.new ≡ length terms.old }
        ensures declined { OnErr result (terms.new ≡ terms.old) }
    {
        if terms.len() < TERM_ROWS {
            return Err(Number::Sizes.into());
        }
        let place = self.placed(rows.len(), labels.len(), region)?;
        let source = place.record.line(Side::Source)?;
        let schedule = place.record.line(Side::Schedule)?;
        let verdict = compare::<D>(
            part_at(rows, place.rows, REGION_ROWS),
            part_at(labels, place.labels, REGION_LABELS),
            &source,
            &schedule,
            terms,
        )?;
        self.regions[region] = place.record.marked(verdict);
        Ok(verdict)
    }
}
