//! Lists of calls on a shelf, and the law that holds of every one of them.
//!
//! `replay` opens a shelf and makes a list of calls on it, one after the other. Its contract is the law over calls: what
//! each call answers, and what the shelf, the rows and the labels hold afterwards, follow from the calls' arguments and from
//! which of them were granted; what passed runs like its source, and whatever the scheduler's moves derive passes.
#![tactic(auto)]

mod call;
mod example;
mod making;
mod replaying;

pub use call::{Answer, Call, Granted};
pub use example::example_holds;
pub use replaying::replay;
