// DROP.
ghost use Rattle.std.specs.Prelude.{◌≡◌};
ghost use Rattle.shelf.specs.Store.{store};
ghost use Rattle.shelf.specs.Calls.{drop_answer, dropped, granted, settled};

use super::super::parts::write_at;
use super::super::record::Record;
use super::super::refusal::Refusal;
use super::Shelf;
use region::{LabelRow, REGION_LABELS, REGION_ROWS, Row};

impl Shelf {
    /// DROP: the region holds nothing, and its rows and labels are blank.
    pub fn drop_region(
        &mut self,
        rows: &mut [Row],
        labels: &mut [LabelRow],
        region: usize,
    ) -> Result<(), Refusal>
        ensures answer { let st = store self.old rows.old labels.old in result ≡ granted (drop_answer st region) }
        ensures after { let st = store self.old rows.old labels.old in store self.new rows.new labels.new ≡ settled st (λ _. dropped st region) (drop_answer st region) }
    {
        let place = self.placed(rows.len(), labels.len(), region)?;
        self.regions[region] = Record::default();
        write_at(rows, place.rows, &[Row::blank(); REGION_ROWS]);
        write_at(labels, place.labels, &[LabelRow::unused(); REGION_LABELS]);
        Ok(())
    }
}
