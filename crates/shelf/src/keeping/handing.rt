// HAND-OUT.
ghost use Rattle.std.specs.Prelude.{◌≡◌};
ghost use Rattle.shelf.specs.Store.{store};
ghost use Rattle.shelf.specs.Calls.{hand_out_answer, seen};

use super::super::parts::part_at;
use super::super::refusal::Refusal;
use super::Shelf;
use region::{LabelRow, MAIN_ROWS, Row, SCHEDULE_ROWS, Side};

impl Shelf {
    /// HAND-OUT: where the schedule of a region has passed, what lies in the region's rows 96 to 383, row by row. Those
    /// are the rows of a schedule: the main line's 96 and the 192 of the pieces behind them.
    pub fn hand_out<'a>(
        &self,
        rows: &'a [Row],
        labels: &[LabelRow],
        region: usize,
    ) -> Result<&'a [Row], Refusal>
        ensures { let st = store self.now rows.now labels.now in seen result ≡ hand_out_answer st region }
    {
        let place = self.placed(rows.len(), labels.len(), region)?;
        let _ = place.record.line(Side::Schedule)?;
        place.record.passed()?;
        Ok(part_at(rows, place.rows + MAIN_ROWS, SCHEDULE_ROWS))
    }
}
