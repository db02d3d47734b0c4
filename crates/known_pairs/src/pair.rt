// A pair of texts with its verdict.
use validator::Verdict;

// Other domains have no name here, since no pair of the list is proved in them.
/// The domains that pairs are compared in: wrapping and trapping words.
#[derive(Clone, Copy)]
pub enum DomainName {
    Wrapping,
    Trapping,
}

/// The texts of a source and of a schedule, and the verdict of their comparison in a domain.
#[derive(Clone, Copy)]
pub struct KnownPair {
    pub source: &'static [u8],
    pub schedule: &'static [u8],
    pub domain: DomainName,
    pub verdict: Verdict,
}
