//! What the programs share: a desk, which is a shelf with the memory that it is lent, on which texts are checked in a
//! domain of a given name; the words and lines that they print; and why they stop.
#![tactic(auto)]

mod answer_text;
mod call;
mod desk;
mod domain_name;
#[cfg(test)]
mod tests;
mod trouble;

pub use answer_text::AnswerText;
pub use call::{Call, Declined};
pub use desk::Desk;
pub use domain_name::{DomainName, UnknownDomain};
pub use trouble::{Failed, Trouble};
