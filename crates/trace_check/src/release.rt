// The check of all pairs, shelf by shelf.
use super::arguments::Manner;
use super::calls::{Answers, shelf_calls};
use super::handing::Directory;
use super::pairs::Pair;
use super::schedule_text::ScheduleText;
use super::texts::{Texts, Waiting};
use super::totals::Totals;
use desk::{AnswerText, Call as Step, Declined, Desk, DomainName, Trouble};
use replay::{Answer, Call, Granted};
use std::alloc::Global;
use std::mem;
use validator::Verdict;

/// How many pairs a shelf takes.
pub(crate) const SHELF_PAIRS: u8 = 16;

// Pairs wait for the others of their shelf while their texts have fewer bytes than this together. A text that is taken has fewer than six thousand.
const WAITING_BYTES: usize = 1 << 20;

// Pairs on a desk, as far as they are checked; and those that wait for the others of their shelf, with the bytes of their texts.
#[derive(Drop)]
struct Release<'a> {
    desk: Desk,
    domain: DomainName,
    times: u32,
    directory: Option<Directory<'a>>,
    totals: Totals,
    waiting: Vec<Waiting<'a>>,
    bytes: usize,
}

// That a shelf cannot be opened.
fn unopened(heap: Global, declined: Declined) -> Trouble {
    format!(in heap; "refused {declined}").map_or_else(Trouble::Memory, Trouble::Said)
}

// The directory that is asked for.
fn open_directory<'a>(
    rt: &HostRuntime,
    path: &'a str,
    pairs: &'a [Pair],
) -> Result<Directory<'a>, Trouble> {
    match Directory::open(rt, path, pairs) {
        Ok(directory) => Ok(directory),
        Err(unhanded) => Err(Trouble::Said(format!(in rt.alloc(); "{unhanded}")?)),
    }
}

impl<'a> Release<'a> {
    // A shelf for the pairs, or for sixteen of them where there are more; and the directory that takes what passes.
    fn new(
        rt: &HostRuntime,
        manner: Manner<'a>,
        pairs: &'a [Pair],
    ) -> Result<Release<'a>, Trouble> {
        let regions = u8::try_from(pairs.len()).unwrap_or(SHELF_PAIRS);
        let directory = match manner.directory {
            Some(path) => Some(open_directory(rt, path, pairs)?),
            None => None,
        };
        Ok(Release {
            desk: Desk::new(rt.alloc(), regions.min(SHELF_PAIRS))?,
            domain: manner.domain,
            times: manner.times,
            directory,
            totals: Totals::default(),
            waiting: Vec::new(rt.alloc()),
            bytes: 0,
        })
    }

    // Opens the shelf and makes the calls, as often as is asked. The answers are those of the last time.
    fn replay(&mut self, heap: Global, calls: &[Call]) -> Result<Vec<Answer>, Trouble> {
        let mut answers = vec![in heap; Ok(Granted::Done); calls.len()]?;
        for _ in 0..self.times {
            let opened = self.desk.replay(self.domain, calls, answers.as_mut_slice());
            if let Err(refusal) = opened {
                let call = Step::Open;
                return Err(unopened(heap, Declined { call, refusal }));
            }
        }
        Ok(answers)
    }

    // Reads the texts of a pair. Where they make the shelf full, or the bytes that wait too many, the pairs that wait are checked.
    fn take(&mut self, rt: &HostRuntime, pair: &'a Pair) -> Result<(), Trouble> {
        let read = Texts::read(rt, pair);
        let bytes = read.as_ref().map_or(0, Texts::len);
        self.bytes = self.bytes.saturating_add(bytes);
        self.waiting.push(Waiting { pair, read })?;
        if self.waiting.len() >= usize::from(SHELF_PAIRS) || self.bytes >= WAITING_BYTES {
            return self.check(rt);
        }
        Ok(())
    }

    // Checks the pairs that wait, as those of one shelf, prints what came of each, and counts it.
    fn check(&mut self, rt: &HostRuntime) -> Result<(), Trouble> {
        let shelf = mem::replace(&mut self.waiting, Vec::new(rt.alloc()));
        self.bytes = 0;
        if shelf.is_empty() {
            return Ok(());
        }
        let calls = shelf_calls(rt.alloc(), shelf.as_slice())?;
        let answers = self.replay(rt.alloc(), calls.as_slice())?;
        let mut answers = Answers(answers.as_slice());
        for (region, Waiting { pair, read }) in shelf.as_slice().iter().enumerate() {
            let number = pair.number;
            match read {
                Ok(texts) => {
                    let Some(answer) = answers.next_pair() else {
                        return Err(Trouble::Said(format!(in rt.alloc();
                            "pair {number}: no answer"
                        )?));
                    };
                    self.tell(rt, number, texts, answer)?;
                    self.hand_out(rt, region, pair)?;
                }
                Err(unreadable) => {
                    self.totals.count_refused();
                    println!(rt; "{number} {unreadable}")?;
                }
            }
        }
        Ok(())
    }

    // Prints what came of a pair, and counts it.
    fn tell(
        &mut self,
        rt: &HostRuntime,
        number: usize,
        texts: &Texts,
        answer: Result<Verdict, Declined>,
    ) -> Result<(), Trouble> {
        self.totals.count(answer);
        let text = AnswerText(answer);
        let places = texts.places(answer);
        println!(rt; "{number} {text}\t{places}")?;
        Ok(())
    }

    // Writes the schedule of a region, where it is handed out and a directory takes it.
    fn hand_out(&mut self, rt: &HostRuntime, region: usize, pair: &Pair) -> Result<(), Trouble> {
        let (Some(directory), Some(name)) = (self.directory, pair.file_name()) else {
            return Ok(());
        };
        let Some(schedule) = ScheduleText::handed_out(&self.desk, region) else {
            return Ok(());
        };
        let text = schedule.to_string(rt.alloc())?;
        if let Err(unhanded) = directory.put(rt, name, text.as_str()) {
            eprintln!(rt; "trace_check: {unhanded}")?;
            self.totals.count_unwritten();
        }
        Ok(())
    }
}

/// Checks the pairs in order, and prints one line for each and one for all.
pub(crate) fn check_all<'a>(
    rt: &HostRuntime,
    manner: Manner<'a>,
    pairs: &'a [Pair],
) -> Result<Totals, Trouble> {
    let mut release = Release::new(rt, manner, pairs)?;
    for pair in pairs {
        release.take(rt, pair)?;
    }
    release.check(rt)?;
    let totals = release.totals;
    println!(rt; "{totals}")?;
    Ok(totals)
}
