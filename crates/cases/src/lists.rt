// Lists of cases.
use super::case::{Case, Expected, Text};
use anyhow::anyhow;
use desk::DomainName;
use std::alloc::{AllocError, Global};
use std::fs;
use thiserror::Error;

// What is wrong with a line of a list.
#[derive(Debug, Drop, Error)]
enum Flaw {
    #[error("a line begins with case, source, schedule, files, all, w, t, kw, kt or kkw")]
    UnknownWord,
    #[error("no case was begun above this line")]
    NoCase,
    #[error("the case has no name")]
    NoName,
    #[error("the case has this text already")]
    TextTwice,
    #[error("the case that ends here has no source")]
    NoSource,
    #[error("the case that ends here has no schedule")]
    NoSchedule,
    #[error("the case that ends here has no answer")]
    NoAnswer,
    #[error("out of memory")]
    Memory(#[from(alloc)] AllocError),
}

// What has been read of a case.
#[derive(Drop)]
struct Draft {
    name: String,
    source: Option<Text>,
    schedule: Option<Text>,
    expected: Vec<Expected>,
}

// A text in a place that has none yet.
fn put(place: &mut Option<Text>, text: Text) -> Result<(), Flaw> {
    match place.replace(text) {
        None => Ok(()),
        Some(_) => Err(Flaw::TextTwice),
    }
}

impl Draft {
    fn new(heap: Global, name: &str) -> Result<Draft, Flaw> {
        if name.is_empty() {
            return Err(Flaw::NoName);
        }
        Ok(Draft {
            name: String::from_str(heap, name)?,
            source: None,
            schedule: None,
            expected: Vec::new(heap),
        })
    }

    // The texts of two files.
    fn put_files(&mut self, heap: Global, path: &str) -> Result<(), Flaw> {
        put(
            &mut self.source,
            Text::File(format!(in heap; "{path}.src")?),
        )?;
        put(
            &mut self.schedule,
            Text::File(format!(in heap; "{path}.sch")?),
        )
    }

    fn expect_in(&mut self, heap: Global, domain: DomainName, answer: &str) -> Result<(), Flaw> {
        let answer = String::from_str(heap, answer)?;
        self.expected.push(Expected { domain, answer })?;
        Ok(())
    }

    // An answer, in the domain of that name or in all.
    fn expect(&mut self, heap: Global, name: &str, answer: &str) -> Result<(), Flaw> {
        if name != "all" {
            let domain = name.parse().map_err(|_| Flaw::UnknownWord)?;
            return self.expect_in(heap, domain, answer);
        }
        for domain in DomainName::ALL {
            self.expect_in(heap, domain, answer)?;
        }
        Ok(())
    }

    // A line behind the one that begins the case.
    fn take(&mut self, heap: Global, word: &str, rest: &str) -> Result<(), Flaw> {
        match word {
            "source" => put(&mut self.source, Text::written(heap, rest)?),
            "schedule" => put(&mut self.schedule, Text::written(heap, rest)?),
            "files" => self.put_files(heap, rest),
            _ => self.expect(heap, word, rest),
        }
    }

    // The case, where it is whole.
    fn finish(self) -> Result<Case, Flaw> {
        let source = self.source.ok_or(Flaw::NoSource)?;
        let schedule = self.schedule.ok_or(Flaw::NoSchedule)?;
        if self.expected.is_empty() {
            return Err(Flaw::NoAnswer);
        }
        Ok(Case {
            name: self.name,
            source,
            schedule,
            expected: self.expected,
        })
    }
}

// What has been read of a list.
#[derive(Drop)]
struct Reading {
    cases: Vec<Case>,
    draft: Option<Draft>,
}

impl Reading {
    // Ends the case that was begun, if one was.
    fn end_case(&mut self) -> Result<(), Flaw> {
        if let Some(draft) = self.draft.take() {
            self.cases.push(draft.finish()?)?;
        }
        Ok(())
    }

    // One line more.
    fn take(&mut self, heap: Global, line: &str) -> Result<(), Flaw> {
        if line.is_empty() || line.starts_with('#') {
            return Ok(());
        }
        let (word, rest) = line.split_once(' ').unwrap_or((line, ""));
        if word == "case" {
            self.end_case()?;
            self.draft = Some(Draft::new(heap, rest)?);
            return Ok(());
        }
        match &mut self.draft {
            None => Err(Flaw::NoCase),
            Some(draft) => draft.take(heap, word, rest),
        }
    }
}

// The cases of a list's text, or the line that is at fault.
fn read_text(heap: Global, text: &str) -> Result<Vec<Case>, (usize, Flaw)> {
    let mut reading = Reading {
        cases: Vec::new(heap),
        draft: None,
    };
    for (number, line) in (1usize..).zip(text.lines()) {
        reading.take(heap, line).map_err(|flaw| (number, flaw))?;
    }
    reading
        .end_case()
        .map_err(|flaw| (text.lines().count(), flaw))?;
    Ok(reading.cases)
}

/// The cases of a list.
pub(crate) fn read_list(rt: &HostRuntime, path: &str) -> anyhow::Result<Vec<Case>> {
    let text = fs::read_to_string(rt, path).map_err(|e| anyhow!("{path}: cannot be read: {e}"))?;
    read_text(rt.alloc(), text.as_str()).map_err(|(number, flaw)| anyhow!(
        "{path}:{number}: {flaw}"
    ))
}
