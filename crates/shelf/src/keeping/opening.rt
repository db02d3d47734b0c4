// OPEN.
ghost use Rattle.std.specs.Prelude.{◌≡◌, []};
ghost use Rattle.shelf.specs.Store.{store};
ghost use Rattle.shelf.specs.Calls.{open_answer, opened, opening, settled, unopened};

use super::super::record::Record;
use super::super::refusal::{Number, Refusal};
use super::Shelf;
use region::{LabelRow, REGION_LABELS, REGION_ROWS, Row};

// How many regions fit so many rows and labels.
fn fitting(rows: usize, labels: usize) -> Result<usize, Refusal>
    ensures { result ≡ opening rows labels }
{
    match rows / REGION_ROWS {
        n @ 1..=16 if rows == REGION_ROWS * n && labels == REGION_LABELS * n => Ok(n),
        _ => Err(Number::Sizes.into()),
    }
}

impl Shelf {
    /// A shelf that was not opened: it has no regions.
    pub fn new() -> Shelf
        ensures { store result [] [] ≡ unopened }
    {
        Shelf {
            count: 0,
            regions: [Record::default(); 16],
        }
    }

    /// OPEN: empties the shelf and blanks all rows and labels. It answers how many regions fit both.
    pub fn open(&mut self, rows: &mut [Row], labels: &mut [LabelRow]) -> Result<usize, Refusal>
        ensures answer { let st = store self.old rows.old labels.old in result ≡ open_answer st }
        ensures after { let st = store self.old rows.old labels.old in store self.new rows.new labels.new ≡ settled st (opened st) result }
    {
        let count = fitting(rows.len(), labels.len())?;
        *self = Shelf {
            count,
            regions: [Record::default(); 16],
        };
        rows.fill(Row::blank());
        labels.fill(LabelRow::unused());
        Ok(count)
    }
}
