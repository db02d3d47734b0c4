// The words of the command line. They are read here and not by the kit's `clap`, whose messages are its own.
use super::words::NumberDomain;
use thiserror::Error;

/// A run: of the source, or of the schedule where there is one, from an entry, on the words of a file, or all zero.
#[derive(Clone, Copy)]
pub struct Run<'a> {
    pub domain: NumberDomain,
    pub source: &'a str,
    pub schedule: Option<&'a str>,
    pub entry: usize,
    pub words: Option<&'a str>,
    /// All words are printed after the run, in place of the changes.
    pub all: bool,
}

/// What the user asks for.
#[derive(Clone, Copy)]
pub enum Asked<'a> {
    Help,
    Run(Run<'a>),
}

/// What is wrong with the command line.
#[derive(Clone, Copy, Debug, Error)]
pub enum Misuse<'a> {
    #[error("there is no option '{0}'; try --help")]
    UnknownOption(&'a str),
    #[error("there is no domain '{0}'; the domains are w and t")]
    UnknownDomain(&'a str),
    #[error("--domain wants w or t after it")]
    NoDomain,
    #[error("--schedule wants a file after it")]
    NoSchedule,
    #[error("'{0}' is one argument too many; try --help")]
    TooMany(&'a str),
    #[error("which SOURCE? try --help")]
    NoSource,
    #[error("entry '{0}': an entry is a number")]
    NoEntry(&'a str),
}

// What the next argument is to be.
#[derive(Clone, Copy)]
enum Next {
    Any,
    Domain,
    Schedule,
}

// The arguments that were read.
#[derive(Clone, Copy)]
struct Arguments<'a> {
    help: bool,
    all: bool,
    domain: NumberDomain,
    schedule: Option<&'a str>,
    source: Option<&'a str>,
    entry: Option<&'a str>,
    words: Option<&'a str>,
    next: Next,
}

impl<'a> Arguments<'a> {
    // Nothing asked for yet: the wrapping domain, entry 0, all words zero.
    fn new() -> Arguments<'a> {
        Arguments {
            help: false,
            all: false,
            domain: NumberDomain::Wrapping,
            schedule: None,
            source: None,
            entry: None,
            words: None,
            next: Next::Any,
        }
    }

    // One argument more.
    fn take(&mut self, word: &'a str) -> Result<(), Misuse<'a>> {
        match self.next {
            Next::Any => return self.begin(word),
            Next::Domain => {
                self.domain = word.parse().map_err(|_| Misuse::UnknownDomain(word))?;
            }
            Next::Schedule => self.schedule = Some(word),
        }
        self.next = Next::Any;
        Ok(())
    }

    // An option, or an argument that is none.
    fn begin(&mut self, word: &'a str) -> Result<(), Misuse<'a>> {
        match word {
            "--help" | "-h" => self.help = true,
            "--all" => self.all = true,
            "--domain" => self.next = Next::Domain,
            "--schedule" => self.next = Next::Schedule,
            _ if word.starts_with('-') => return Err(Misuse::UnknownOption(word)),
            _ => return self.place(word),
        }
        Ok(())
    }

    // An argument that is no option: the source, then the entry, then the words.
    fn place(&mut self, word: &'a str) -> Result<(), Misuse<'a>> {
        match (self.source, self.entry, self.words) {
            (None, _, _) => self.source = Some(word),
            (_, None, _) => self.entry = Some(word),
            (_, _, None) => self.words = Some(word),
            _ => return Err(Misuse::TooMany(word)),
        }
        Ok(())
    }

    // What they ask for, where they are whole.
    fn asked(self) -> Result<Asked<'a>, Misuse<'a>> {
        match (self.next, self.source) {
            (Next::Domain, _) => Err(Misuse::NoDomain),
            (Next::Schedule, _) => Err(Misuse::NoSchedule),
            (Next::Any, _) if self.help => Ok(Asked::Help),
            (Next::Any, None) => Err(Misuse::NoSource),
            (Next::Any, Some(source)) => Ok(Asked::Run(Run {
                domain: self.domain,
                source,
                schedule: self.schedule,
                entry: read_entry(self.entry)?,
                words: self.words,
                all: self.all,
            })),
        }
    }
}

// The number of an entry; 0 where none is given.
fn read_entry(word: Option<&str>) -> Result<usize, Misuse<'_>> {
    match word {
        None => Ok(0),
        Some(word) => word.parse().map_err(|_| Misuse::NoEntry(word)),
    }
}

/// What the arguments after the program's name ask for.
pub(crate) fn read_arguments(words: &[String]) -> Result<Asked<'_>, Misuse<'_>> {
    let mut arguments = Arguments::new();
    for word in words.iter().skip(1) {
        arguments.take(word.as_str())?;
    }
    arguments.asked()
}
