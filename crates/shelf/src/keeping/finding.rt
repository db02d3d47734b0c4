// Which calls find their region.
ghost use Rattle.std.specs.Prelude.{◌≡◌, ◌*◌, ◌<◌, map, IfOk, OnOk};
ghost use Rattle.shelf.specs.Store.{kept_region};
ghost use Rattle.shelf.specs.Calls.{found, placed as placing};

use super::super::place::Place;
use super::super::refusal::{Number, Refusal};
use super::Shelf;
use region::{REGION_LABELS, REGION_ROWS};

impl Shelf {
    // Where a region lies, for a call that is given so many rows and labels.
    pub(crate) fn placed(&self, rows: usize, labels: usize, region: usize) -> Result<Place, Refusal>
        ensures value { found result ≡ placing self.now.count (map kept_region self.now.regions) rows labels region }
        ensures inside { OnOk result (region < self.now.count) }
        ensures rows { OnOk result (rows ≡ 384 * self.now.count) }
        ensures labels { OnOk result (labels ≡ 9 * self.now.count) }
        ensures first_row { IfOk result (λ p. p.rows ≡ 384 * region) }
        ensures first_label { IfOk result (λ p. p.labels ≡ 9 * region) }
    {
        if rows != REGION_ROWS * self.count || labels != REGION_LABELS * self.count {
            return Err(Number::Sizes.into());
        }
        Ok(Place {
            record: self.kept(region)?,
            rows: REGION_ROWS * region,
            labels: REGION_LABELS * region,
        })
    }
}
