//! The shelf: regions in rows and labels that the caller lends, and the calls on them.
#![tactic(auto)]

mod keeping;
mod parts;
mod place;
mod record;
mod refusal;

pub use keeping::Shelf;
pub use record::Record;
pub use refusal::{Number, Refusal};
