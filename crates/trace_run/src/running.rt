// The run of what the region holds.
use super::arguments::Run;
use super::held::{Held, unreadable};
use super::words::{NumberDomain, Numeral, read_words};
use desk::Trouble;
use domain::{Trapping, Wrapping};
use region::{STATE_WORDS, Side};
use std::{fmt, fs};

// How many registers there are, and how many cells each bank has.
const CELLS: usize = 16;

// The place of a word in a state: a register, or a cell of a bank.
#[derive(Clone, Copy)]
struct Place(usize);

impl fmt::Display for Place {
    fn fmt<W: fmt::Write>(&self, f: &mut fmt::Formatter<W>) -> fmt::Result {
        let cell = self.0 % CELLS;
        match self.0 / CELLS {
            0 => write!(f, "register {cell}"),
            part => {
                let bank = part - 1;
                write!(f, "bank {bank} cell {cell}")
            }
        }
    }
}

fn show_changes<D: Numeral>(rt: &HostRuntime, before: &[D], after: &[D]) -> Result<(), Trouble> {
    for (at, (old, new)) in before.iter().zip(after).enumerate() {
        if old != new {
            let place = Place(at);
            let (old, new) = (old.number(), new.number());
            println!(rt; "{place}: {old} -> {new}")?;
        }
    }
    Ok(())
}

fn show_all<D: Numeral>(rt: &HostRuntime, state: &[D]) -> Result<(), Trouble> {
    for word in state {
        let number = word.number();
        println!(rt; "{number}")?;
    }
    Ok(())
}

// The state before the run: the words of a file, or all zero.
fn read_state<D: Numeral>(rt: &HostRuntime, words: Option<&str>) -> Result<Vec<D>, Trouble> {
    let mut state = vec![in rt.alloc(); D::literal(0); STATE_WORDS]?;
    if let Some(path) = words {
        let text = fs::read_to_string(rt, path).map_err(|error| unreadable(
            rt.alloc(),
            path,
            error,
        ))?;
        read_words(rt.alloc(), path, text.as_str(), state.as_mut_slice())?;
    }
    Ok(state)
}

fn run_in<D: Numeral>(rt: &HostRuntime, run: &Run, held: &Held) -> Result<(), Trouble> {
    let before = read_state::<D>(rt, run.words)?;
    let mut state = Vec::from_slice(rt.alloc(), before.as_slice())?;
    let side = match run.schedule {
        Some(_) => Side::Schedule,
        None => Side::Source,
    };
    held.run(rt, side, run.entry, state.as_mut_slice())?;
    if run.all {
        show_all(rt, state.as_slice())
    } else {
        show_changes(rt, before.as_slice(), state.as_slice())
    }
}

/// Reads a source, and a schedule of it if there is one, and runs what was read.
pub(crate) fn serve(rt: &HostRuntime, run: &Run) -> Result<(), Trouble> {
    let mut held = Held::new(rt.alloc())?;
    held.put_source(rt, run.source)?;
    if let Some(path) = run.schedule {
        held.put_schedule(rt, path)?;
    }
    let entry = run.entry;
    let domain = run.domain;
    println!(rt; "run from entry {entry} in domain {domain}")?;
    match domain {
        NumberDomain::Wrapping => run_in::<Wrapping>(rt, run, &held),
        NumberDomain::Trapping => run_in::<Trapping>(rt, run, &held),
    }
}
