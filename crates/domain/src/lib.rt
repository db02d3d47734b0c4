// Domains of words: what the rows of a region compute with. The machine, the comparison and their theorems
// are written once, over any domain that meets this trait.
#![tactic(auto)]

ghost use Rattle.std.specs.Prelude.{◌≡◌};
ghost use Rattle.domain.specs.Meaning.{Meaning, Lawful};

mod below;
mod op;
mod slot;
mod tagged;
mod trapping;
mod wrapping;

pub use below::Below;
pub use op::Op;
pub use slot::Slot;
pub use tagged::{Tag, Tagged};
pub use trapping::Trapping;
pub use wrapping::Wrapping;

/// A kind of word and the six functions that rows use on it; no word is a trap.
/// `meaning` says what the functions answer, and `lawful` that the two laws hold of it:
/// what is said not to trap never traps, and what is said to commute does.
pub trait Domain: Copy {
    ghost meaning: { Meaning Self };

    /// The operation on two words, or a trap.
    fn apply(op: Op, a: Self, b: Self) -> Option<Self>
        ensures { result ≡ meaning.apply op a b };

    /// The word of a literal.
    fn literal(n: u16) -> Self
        ensures { result ≡ meaning.literal n };

    /// Whether an exit that tests this word is taken.
    fn truth(self) -> bool
        ensures { result ≡ meaning.truth self };

    /// The cell of a bank that this word addresses, or a trap.
    fn slot(self) -> Option<Slot>
        ensures { result ≡ meaning.slot self };

    /// Whether the operation may trap.
    fn may_trap(op: Op) -> bool
        ensures { result ≡ meaning.may_trap op };

    /// Whether a word may trap as an address.
    fn may_trap_address() -> bool
        ensures { result ≡ meaning.may_trap_address };

    /// Whether the operands of the operation may be exchanged.
    fn commutes(op: Op) -> bool
        ensures { result ≡ meaning.commutes op };

    ghost lawful: { Lawful meaning };
}
