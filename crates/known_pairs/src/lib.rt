//! Pairs of a source and a schedule whose verdicts are known: one list, and the theorem that the calls answer just so.
#![tactic(auto)]

ghost use Rattle.std.specs.Prelude.{◌≡◌, length, take, IfSome};
ghost use Rattle.std.specs.Option.{option_map};
ghost use Rattle.std.specs.List.{AllByRecursion, slice_get};
ghost use Rattle.known_pairs.specs.Pairs.{pair_of, pairs};
ghost use Rattle.known_pairs.specs.Checked.{Holds};

mod pair;
mod table;

pub use pair::{DomainName, KnownPair};
use table::PAIRS;

// The pair of a number in a table. It is a function of its own, since a proof cannot name a constant that holds references.
fn at(table: &[KnownPair], number: usize) -> Option<KnownPair>
    ensures { result ≡ slice_get table.now number }
{
    table.get(number).copied()
}

/// The pair of a number in the list, from 0. On an opened shelf of one region, SOURCE and SCHEDULE take its texts, and
/// CHECK answers its verdict.
pub fn known_pair(number: usize) -> Option<KnownPair>
    ensures listed { option_map pair_of result ≡ slice_get pairs number }
    ensures holds { IfSome (option_map pair_of result) Holds }
{
    at(&PAIRS, number)
}

/// How many pairs the list has; each of them holds.
pub fn count() -> usize
    ensures counted { result ≡ length pairs }
    ensures hold { AllByRecursion Holds (take result pairs) }
{
    PAIRS.len()
}
