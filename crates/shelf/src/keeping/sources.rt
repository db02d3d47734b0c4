// SOURCE.
ghost use Rattle.std.specs.Prelude.{◌≡◌};
ghost use Rattle.shelf.specs.Store.{store};
ghost use Rattle.shelf.specs.Calls.{granted, settled, source_answer, source_put};

use super::super::parts::write_at;
use super::super::record::Record;
use super::super::refusal::Refusal;
use super::Shelf;
use region::{LabelRow, MAIN_ROWS, Row, SCHEDULE_ROWS};
use region_text::read_source;

impl Shelf {
    /// SOURCE: the region holds the source that the text says, and no schedule; its mark is none.
    pub fn put_source(
        &mut self,
        rows: &mut [Row],
        labels: &mut [LabelRow],
        region: usize,
        text: &[u8],
    ) -> Result<(), Refusal>
        ensures answer { let st = store self.old rows.old labels.old in result ≡ granted (source_answer st region text.now) }
        ensures after { let st = store self.old rows.old labels.old in store self.new rows.new labels.new ≡ settled st (source_put st region) (source_answer st region text.now) }
    {
        let place = self.placed(rows.len(), labels.len(), region)?;
        let draft = read_source(text)?;
        self.regions[region] = Record {
            source: Some(draft.shape),
            ..Record::default()
        };
        write_at(rows, place.rows, &draft.rows);
        write_at(rows, place.rows + MAIN_ROWS, &[Row::blank(); SCHEDULE_ROWS]);
        write_at(labels, place.labels, &draft.labels);
        Ok(())
    }
}
