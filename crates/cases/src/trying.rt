// Tries cases, and says how they went.
use super::case::{Case, Expected};
use anyhow::anyhow;
use desk::{AnswerText, Declined, Desk, DomainName};
use known_pairs::{KnownPair, count, known_pair};
use std::alloc::Global;
use std::fmt;
use std::fmt::Write;
use validator::Verdict;

/// How many cases and answers there were, and how many answers differ from what was expected. The sums saturate, as
/// nothing says here how many there are.
#[derive(Clone, Copy, Default)]
pub struct Tally {
    cases: usize,
    answers: usize,
    differ: usize,
}

impl Tally {
    fn add_case(&mut self) {
        self.cases = self.cases.saturating_add(1);
    }

    fn add_answer(&mut self) {
        self.answers = self.answers.saturating_add(1);
    }

    fn add_difference(&mut self) {
        self.differ = self.differ.saturating_add(1);
    }

    /// An error where an answer differs.
    pub(crate) fn ended(self) -> anyhow::Result<()> {
        if self.differ == 0 {
            Ok(())
        } else {
            Err(anyhow!("not all answers are as expected"))
        }
    }
}

impl fmt::Display for Tally {
    fn fmt<W: fmt::Write>(&self, f: &mut fmt::Formatter<W>) -> fmt::Result {
        let cases = self.cases;
        let answers = self.answers;
        let differ = self.differ;
        write!(f, "{cases} cases, {answers} answers, {differ} differ")
    }
}

// A case: its name, its texts, and what is expected of them.
#[derive(Clone, Copy)]
struct Trial<'a> {
    name: &'a str,
    source: &'a [u8],
    schedule: &'a [u8],
    expected: &'a [Expected],
}

// The known pairs are stated in two domains alone, which are a type of their own.
fn domain_of(pair: &KnownPair) -> DomainName {
    match pair.domain {
        known_pairs::DomainName::Wrapping => DomainName::Wrapping,
        known_pairs::DomainName::Trapping => DomainName::Trapping,
    }
}

/// A desk of one region on which cases are tried, and how they went.
#[derive(Drop)]
pub struct Bench {
    desk: Desk,
    tally: Tally,
}

impl Bench {
    pub(crate) fn new(heap: Global) -> anyhow::Result<Bench> {
        Ok(Bench {
            desk: Desk::new(heap, 1)?,
            tally: Tally::default(),
        })
    }

    pub(crate) fn tally(&self) -> Tally {
        self.tally
    }

    // What the calls answer of the texts, in that domain: OPEN, and then SOURCE, SCHEDULE and CHECK.
    fn answer(&mut self, domain: DomainName, trial: &Trial) -> Result<Verdict, Declined> {
        let _ = self.desk.open()?;
        self.desk.check(domain, 0, trial.source, trial.schedule)
    }

    // What differs from the answers that are expected; nothing where none does.
    fn differences(&mut self, heap: Global, trial: &Trial) -> anyhow::Result<String> {
        let mut told = String::new(heap);
        for Expected { domain, answer } in trial.expected {
            let came = AnswerText(self.answer(*domain, trial)).to_string(heap)?;
            self.tally.add_answer();
            if came.as_str() != answer.as_str() {
                self.tally.add_difference();
                write!(told, " {domain}: expected '{answer}', came '{came}';")?;
            }
        }
        Ok(told)
    }

    // Tries a case, and prints its line.
    fn run(&mut self, rt: &HostRuntime, trial: &Trial) -> anyhow::Result<()> {
        self.tally.add_case();
        let told = self.differences(rt.alloc(), trial)?;
        let name = trial.name;
        if told.is_empty() {
            println!(rt; "{name} ok")?;
        } else {
            println!(rt; "{name}{told}")?;
        }
        Ok(())
    }

    /// Tries the cases of a list.
    pub(crate) fn try_all(&mut self, rt: &HostRuntime, cases: &[Case]) -> anyhow::Result<()> {
        for case in cases {
            let source = case.source.bytes(rt)?;
            let schedule = case.schedule.bytes(rt)?;
            self.run(
                rt,
                &Trial {
                    name: case.name.as_str(),
                    source: source.as_slice(),
                    schedule: schedule.as_slice(),
                    expected: case.expected.as_slice(),
                },
            )?;
        }
        Ok(())
    }

    fn try_pair(&mut self, rt: &HostRuntime, number: usize, pair: KnownPair) -> anyhow::Result<()> {
        let name = format!(in rt.alloc(); "known-{number}")?;
        let answer = AnswerText(Ok(pair.verdict)).to_string(rt.alloc())?;
        let domain = domain_of(&pair);
        self.run(
            rt,
            &Trial {
                name: name.as_str(),
                source: pair.source,
                schedule: pair.schedule,
                expected: &[Expected { domain, answer }],
            },
        )
    }

    /// Tries the known pairs.
    pub(crate) fn try_known(&mut self, rt: &HostRuntime) -> anyhow::Result<()> {
        for (number, pair) in (0..count()).filter_map(known_pair).enumerate() {
            self.try_pair(rt, number, pair)?;
        }
        Ok(())
    }
}
