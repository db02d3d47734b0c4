// trace_run: reads the source of a region, and a schedule of it if there is one, runs what it read, and says what it did.
#![tactic(auto)]

mod arguments;
mod held;
mod listing;
mod refusals;
mod running;
mod words;

use arguments::{Asked, read_arguments};
use desk::{Failed, Trouble};
use running::serve;
use std::env;

const USAGE: &str =
    "usage: trace_run [--domain w|t] [--all] [--schedule SCHEDULE] SOURCE [ENTRY [WORDS]]

Reads the source text of a region from the file SOURCE, runs it from ENTRY (0 where none is given) on the 80 words of
the file WORDS, one decimal a line (all zero where none is given), and prints what it read, how the run ended, and the
words that changed.

  --domain w            wrapping words, 32 bits without a sign (this is the default)
  --domain t            trapping words, 32 bits with a sign
  --schedule SCHEDULE   read the schedule text SCHEDULE too, and run that in place of the source
  --all                 print all 80 words after the run, one a line, in place of the changes
  --help                print this text";

fn start(rt: &HostRuntime) -> Result<(), Trouble> {
    let words: Vec<String> = env::args(rt)?.collect(rt.alloc())?;
    match read_arguments(words.as_slice()) {
        Ok(Asked::Help) => {
            println!(rt; "{USAGE}")?;
            Ok(())
        }
        Ok(Asked::Run(run)) => serve(rt, &run),
        Err(misuse) => Err(Trouble::Said(format!(in rt.alloc(); "{misuse}")?)),
    }
}

fn main(rt: HostRuntime) -> Result<(), Failed> {
    start(&rt).map_err(|trouble| {
        let _ = eprintln!(rt; "trace_run: {trouble}");
        Failed
    })
}
