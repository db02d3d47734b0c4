//! The readers of a region's texts: that of its source, and that of a schedule. Texts are bytes: lines end in LF, and one tab parts two fields.
//! A text is read exactly as the rules say, or refused with the fault, the line and the field that decide.
#![tactic(auto)]

mod body;
mod cursor;
mod declared;
mod draft;
mod fault;
mod fields;
mod kinds;
mod label;
mod labels;
mod letter;
mod lines;
mod ranges;
mod reading;
mod schedule;
mod scheduling;
mod source;
mod taking;
#[cfg(test)]
mod tests;
mod texts;

pub use draft::{ScheduleDraft, SourceDraft};
pub use fault::{Fault, Layer, Refusal};
pub use schedule::read_schedule;
pub use source::read_source;
