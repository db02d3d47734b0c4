// What the shelf keeps can be read.
ghost use Rattle.std.specs.Prelude.{◌≡◌, []};
ghost use Rattle.shelf.specs.Store.{store};
ghost use Rattle.shelf.specs.Calls.{kept_answer, reading};

use super::super::record::Record;
use super::super::refusal::{Number, Refusal};
use super::Shelf;

impl Shelf {
    /// How many regions the shelf has.
    pub fn count(&self) -> usize
        ensures { result ≡ self.now.count }
    {
        self.count
    }

    /// All that is kept of a region. A line that is not held has no shape, and so no lengths, joins or end label.
    pub fn kept(&self, region: usize) -> Result<Record, Refusal>
        ensures { kept_answer result ≡ reading (store self.now [] []) region }
    {
        if region >= self.count {
            return Err(Number::Region.into());
        }
        Ok(self.regions[region])
    }
}
