// The shelf.
ghost use Rattle.std.specs.Prelude.{◌≡◌, ◌≤◌, length};

use super::record::Record;

mod checking;
mod dropping;
mod finding;
mod handing;
mod opening;
mod reading;
mod running;
mod schedules;
mod sources;

// The rows and the labels stay two parameters of each call: by & or &mut it says which of the two it may alter, and one
// struct would lend both alike.
/// Up to sixteen regions. The shelf keeps a record of each; the rows and labels lie in memory that the caller lends
/// to every call. A count stands beside the records, since no library uses the heap.
#[derive(Clone, Copy)]
pub struct Shelf {
    count: usize,
    regions: [Record; 16],
    ghost few: { count ≤ 16 },
    ghost sixteen: { length regions ≡ 16 },
}
