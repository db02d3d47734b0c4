// The chains of the buckets.
ghost use Rattle.std.specs.Prelude.{◌≡◌, ◌+◌, ◌<◌, ◌≤◌, length, replicate, slice_index, slice_set};

/// How many buckets rows are spread over.
pub(crate) const BUCKETS: usize = 256;

/// The rows with the numbers below this are linked.
pub(crate) const LINKED_ROWS: usize = 512;

/// The linked rows of each bucket hang in a chain, from the latest down: `heads` has the link that a bucket's chain begins with,
/// and `links` the one behind each row. A link is 0 at the end of a chain, and else one more than the number of the next row.
#[derive(Clone, Copy)]
pub(crate) struct Chains {
    pub(crate) heads: [u16; BUCKETS],
    pub(crate) links: [u16; LINKED_ROWS],
}

impl Chains {
    /// No row is linked.
    pub(crate) fn new() -> Chains
        ensures heads { result.heads ≡ replicate 256 0 }
        ensures links { length result.links ≡ 512 }
    {
        Chains {
            heads: [0; BUCKETS],
            links: [0; LINKED_ROWS],
        }
    }

    /// Puts a row at the head of its bucket's chain, unless its number is too high to be linked.
    pub(crate) fn link(&mut self, number: usize, bucket: usize)
        requires { bucket < 256 }
        ensures heads { number < 512 → self.new.heads ≡ slice_set self.old.heads bucket (number + 1) }
        ensures links { number < 512 → self.new.links ≡ slice_set self.old.links number (slice_index self.old.heads bucket) }
        ensures unlinked { 512 ≤ number → self.new ≡ self.old }
    {
        if number < LINKED_ROWS {
            self.links[number] = self.heads[bucket];
            self.heads[bucket] = number as u16 + 1;
        }
    }
}
