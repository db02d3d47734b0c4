//! The symbolic comparison of a schedule with its source.
//!
//! Both lines are walked from each entry with terms in the place of words and no side exit taken, and what they hold is compared at each stop.
//! Terms are hash-consed in rows that the caller lends: two terms are the same exactly where their numbers are one.
#![tactic(auto)]

mod acting;
mod at;
mod comparing;
mod differing;
mod entries;
mod term_row;
mod terms;
mod unfit;
mod verdict;
mod walk;
mod walking;

pub use comparing::compare;
pub use term_row::TermRow;
pub use terms::TERM_ROWS;
pub use unfit::Unfit;
pub use verdict::{Mismatch, Reason, Verdict};
