// trace_check: checks schedules of regions against their sources, pair by pair, and says what it found.
#![tactic(auto)]

mod arguments;
mod calls;
mod handing;
mod pairs;
mod release;
mod schedule_text;
mod spots;
#[cfg(test)]
mod tests;
mod texts;
mod totals;

use arguments::{Asked, Request, read_arguments};
use desk::{Failed, Trouble};
use pairs::gather;
use release::check_all;
use std::env;
use totals::Totals;

const USAGE: &str = "usage: trace_check [OPTION ..] SOURCE SCHEDULE [SOURCE SCHEDULE ..]
       trace_check [OPTION ..] --list FILE

Checks each schedule against the source that stands before it, and prints one line for each pair, in order:
the number of the pair, from 0, and then one of

  passed
  failed ENTRY STOP REASON NUMBER       REASON is joins, end, condition, label, register, bank or traps
  refused CALL NUMBER LINE FIELD LAYER  CALL is source, schedule or check; LAYER is field, line or shelf
  unreadable FILE

and behind a tab the spot to open: the faulty line of a text that was refused, or, in the source and in the schedule
where a comparison failed, the lines from where that entry starts to where that stop stands. The last line counts the
pairs; an unreadable pair is counted with the refused.
The status is 0 where all pairs passed and all that was to be handed out is written, and else 1.

  --domain w     wrapping words, 32 bits without a sign (this is the default)
  --domain t     trapping words, 32 bits with a sign
  --domain kw    wrapping words with a tag
  --domain kt    trapping words with a tag
  --domain kkw   wrapping words with two tags
  --list FILE    take pairs from FILE, two paths a line with a space or a tab between them
  --hand-out DIR write each schedule that passed, and no other, as a text into the directory DIR, under the name of
                 its file; DIR is made where there is none, and nothing in it is overwritten. Where two schedules have
                 one file name, or DIR has a file of such a name, no pair is checked
  --repeat N     check each pair N times and print it once, to measure the check
  --help         print this text";

fn serve(rt: &HostRuntime, request: &Request) -> Result<Totals, Trouble> {
    let pairs = gather(rt, request.origins.as_slice())?;
    if pairs.is_empty() {
        return Err(Trouble::Said(format!(in rt.alloc(); "the list has no pairs")?));
    }
    check_all(rt, request.manner, pairs.as_slice())
}

// How many pairs came to each end; none did where help was asked for.
fn start(rt: &HostRuntime) -> Result<Totals, Trouble> {
    let words: Vec<String> = env::args(rt)?.collect(rt.alloc())?;
    match read_arguments(rt.alloc(), words.as_slice()) {
        Ok(Asked::Help) => {
            println!(rt; "{USAGE}")?;
            Ok(Totals::default())
        }
        Ok(Asked::Check(request)) => serve(rt, &request),
        Err(misuse) => Err(Trouble::Said(format!(in rt.alloc(); "{misuse}")?)),
    }
}

fn main(rt: HostRuntime) -> Result<(), Failed> {
    match start(&rt) {
        Ok(totals) if totals.all_well() => Ok(()),
        Ok(_) => Err(Failed),
        Err(trouble) => {
            let _ = eprintln!(rt; "trace_check: {trouble}");
            Err(Failed)
        }
    }
}
