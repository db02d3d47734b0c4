// SCHEDULE.
ghost use Rattle.std.specs.Prelude.{◌≡◌};
ghost use Rattle.shelf.specs.Store.{store};
ghost use Rattle.shelf.specs.Calls.{granted, schedule_answer, schedule_put, settled};

use super::super::parts::{part_at, write_at};
use super::super::refusal::Refusal;
use super::Shelf;
use region::{LabelRow, MAIN_ROWS, REGION_LABELS, Row, Side};
use region_text::read_schedule;

impl Shelf {
    /// SCHEDULE: the region holds the schedule that the text says in place of any other; its mark is none.
    /// Labels are those of the region's label rows as they are given now.
    pub fn put_schedule(
        &mut self,
        rows: &mut [Row],
        labels: &[LabelRow],
        region: usize,
        text: &[u8],
    ) -> Result<(), Refusal>
        ensures answer { let st = store self.old rows.old labels.now in result ≡ granted (schedule_answer st region text.now) }
        ensures after { let st = store self.old rows.old labels.now in store self.new rows.new labels.now ≡ settled st (schedule_put st region) (schedule_answer st region text.now) }
    {
        let place = self.placed(rows.len(), labels.len(), region)?;
        let _ = place.record.line(Side::Source)?;
        let draft = read_schedule(part_at(labels, place.labels, REGION_LABELS), text)?;
        self.regions[region] = place.record.scheduled(draft.shape);
        write_at(rows, place.rows + MAIN_ROWS, &draft.rows);
        Ok(())
    }
}
