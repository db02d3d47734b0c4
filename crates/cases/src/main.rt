// cases: checks stored pairs of texts in every domain, and compares what the calls answer with stored answers.
#![tactic(auto)]

mod case;
mod lists;
mod trying;

use anyhow::anyhow;
use lists::read_list;
use std::env;
use trying::Bench;

const USAGE: &str = "usage: cases LIST [LIST ..]

Puts the source and the schedule of each case on a shelf of one region, checks them, and compares what the calls
answer with the answers that the lists give. The known pairs come first, and then the cases of each list, in order.
It prints one line a case: its name, and 'ok' or what differs, and last how many cases and answers there were, and
how many answers differ. The status is 0 where none does, and else 1.

A list has these lines; empty lines and lines that begin with '#' are passed over:

  case NAME        begins a case
  source TEXT      its source: a space stands for a tab, ';' for LF, '^' for CR and '_' for a space
  schedule TEXT    its schedule, likewise
  files PATH       its source is PATH.src and its schedule PATH.sch, byte for byte
  DOMAIN ANSWER    the answer in a domain: w, t, kw, kt, kkw, or 'all' for each of them

An answer is 'passed', 'failed ENTRY STOP REASON NUMBER' or 'refused CALL NUMBER LINE FIELD LAYER'.";

// The known pairs and the cases of the lists.
fn serve(rt: &HostRuntime, paths: &[String]) -> anyhow::Result<()> {
    let mut bench = Bench::new(rt.alloc())?;
    bench.try_known(rt)?;
    for path in paths {
        let cases = read_list(rt, path.as_str())?;
        bench.try_all(rt, cases.as_slice())?;
    }
    let tally = bench.tally();
    println!(rt; "{tally}")?;
    tally.ended()
}

fn start(rt: &HostRuntime) -> anyhow::Result<()> {
    let paths: Vec<String> = env::args(rt)?.skip(1).collect(rt.alloc())?;
    match paths.as_slice() {
        [] => Err(anyhow!("which LIST? try --help")),
        [word] if word.as_str() == "--help" => {
            rt.println(USAGE)?;
            Ok(())
        }
        lists => serve(rt, lists),
    }
}

// An `anyhow::Error` prints as its message, which the line `Error: ..` behind a failed `main` repeats.
fn main(rt: HostRuntime) -> anyhow::Result<()> {
    let ended = start(&rt);
    if let Err(e) = &ended {
        let _ = eprintln!(rt; "cases: {e}");
    }
    ended
}
