// The machine: one interpreter of a region's rows, for every domain of words.
#![tactic(auto)]

mod lines;
mod runs;
mod state;

pub use lines::run;
