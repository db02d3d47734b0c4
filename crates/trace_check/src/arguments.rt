// The words of the command line. They are read here and not by the kit's `clap`, whose messages are its own.
use desk::DomainName;
use std::alloc::{AllocError, Global};
use thiserror::Error;

/// Where pairs come from: the paths of a source and of its schedule, or the path of a list.
#[derive(Clone, Copy)]
pub enum Origin<'a> {
    Pair { source: &'a str, schedule: &'a str },
    List(&'a str),
}

// What the next argument is to be.
#[derive(Clone, Copy)]
enum Next<'a> {
    Any,
    Domain,
    List,
    HandOut,
    Repeat,
    ScheduleOf(&'a str),
}

/// What is wrong with the command line.
#[derive(Clone, Copy, Debug, Error)]
pub enum Misuse<'a> {
    #[error("there is no option '{0}'; try --help")]
    UnknownOption(&'a str),
    #[error("there is no domain '{0}'; the domains are w, t, kw, kt and kkw")]
    UnknownDomain(&'a str),
    #[error("--domain wants w, t, kw, kt or kkw after it")]
    NoDomain,
    #[error("--list wants a file after it")]
    NoList,
    #[error("--hand-out wants a directory after it")]
    NoDirectory,
    #[error("--repeat wants a number from 1 to 4294967295 after it")]
    NoCount,
    #[error("--repeat wants a number from 1 to 4294967295 after it, and not '{0}'")]
    UnknownCount(&'a str),
    #[error("the source '{0}' wants a schedule after it; try --help")]
    NoSchedule(&'a str),
    #[error("which SOURCE and SCHEDULE? try --help")]
    NoPairs,
    #[error("out of memory")]
    Memory(#[from(alloc)] AllocError),
}

/// How pairs are checked.
#[derive(Clone, Copy)]
pub struct Manner<'a> {
    pub domain: DomainName,
    /// The directory that the schedules that pass are handed out into.
    pub directory: Option<&'a str>,
    /// How often the calls are made.
    pub times: u32,
}

/// A check of pairs.
#[derive(Drop)]
pub struct Request<'a> {
    pub manner: Manner<'a>,
    pub origins: Vec<Origin<'a>>,
}

/// What the user asks for.
#[derive(Drop)]
pub enum Asked<'a> {
    Help,
    Check(Request<'a>),
}

// The arguments that were read.
#[derive(Drop)]
struct Arguments<'a> {
    help: bool,
    request: Request<'a>,
    next: Next<'a>,
}

impl<'a> Arguments<'a> {
    // Nothing asked for yet: the wrapping domain, once, and no pairs.
    fn new(heap: Global) -> Arguments<'a> {
        Arguments {
            help: false,
            request: Request {
                manner: Manner {
                    domain: DomainName::Wrapping,
                    directory: None,
                    times: 1,
                },
                origins: Vec::new(heap),
            },
            next: Next::Any,
        }
    }

    // One place more that pairs come from.
    fn add(&mut self, origin: Origin<'a>) -> Result<(), Misuse<'a>> {
        self.next = Next::Any;
        self.request.origins.push(origin)?;
        Ok(())
    }

    fn set_domain(&mut self, word: &'a str) -> Result<(), Misuse<'a>> {
        self.request.manner.domain = word.parse().map_err(|_| Misuse::UnknownDomain(word))?;
        self.next = Next::Any;
        Ok(())
    }

    fn set_directory(&mut self, word: &'a str) -> Result<(), Misuse<'a>> {
        if word.is_empty() || word.starts_with('-') {
            return Err(Misuse::NoDirectory);
        }
        self.request.manner.directory = Some(word);
        self.next = Next::Any;
        Ok(())
    }

    fn set_times(&mut self, word: &'a str) -> Result<(), Misuse<'a>> {
        match word.parse() {
            Ok(times) if times > 0 => self.request.manner.times = times,
            _ => return Err(Misuse::UnknownCount(word)),
        }
        self.next = Next::Any;
        Ok(())
    }

    // An option, or the path of a source.
    fn begin(&mut self, word: &'a str) -> Result<(), Misuse<'a>> {
        match word {
            "--help" | "-h" => self.help = true,
            "--domain" => self.next = Next::Domain,
            "--list" => self.next = Next::List,
            "--hand-out" => self.next = Next::HandOut,
            "--repeat" => self.next = Next::Repeat,
            _ if word.starts_with('-') => return Err(Misuse::UnknownOption(word)),
            _ => self.next = Next::ScheduleOf(word),
        }
        Ok(())
    }

    // The path of a schedule.
    fn pair(&mut self, source: &'a str, schedule: &'a str) -> Result<(), Misuse<'a>> {
        if schedule.starts_with('-') {
            return Err(Misuse::NoSchedule(source));
        }
        self.add(Origin::Pair { source, schedule })
    }

    // One argument more.
    fn take(&mut self, word: &'a str) -> Result<(), Misuse<'a>> {
        match self.next {
            Next::Any => self.begin(word),
            Next::Domain => self.set_domain(word),
            Next::List => self.add(Origin::List(word)),
            Next::HandOut => self.set_directory(word),
            Next::Repeat => self.set_times(word),
            Next::ScheduleOf(source) => self.pair(source, word),
        }
    }

    // What they ask for, where they are whole.
    fn asked(self) -> Result<Asked<'a>, Misuse<'a>> {
        match self.next {
            Next::Domain => Err(Misuse::NoDomain),
            Next::List => Err(Misuse::NoList),
            Next::HandOut => Err(Misuse::NoDirectory),
            Next::Repeat => Err(Misuse::NoCount),
            Next::ScheduleOf(source) => Err(Misuse::NoSchedule(source)),
            Next::Any if self.help => Ok(Asked::Help),
            Next::Any if self.request.origins.is_empty() => Err(Misuse::NoPairs),
            Next::Any => Ok(Asked::Check(self.request)),
        }
    }
}

/// What the arguments after the program's name ask for.
pub(crate) fn read_arguments(heap: Global, words: &[String]) -> Result<Asked<'_>, Misuse<'_>> {
    let mut arguments = Arguments::new(heap);
    for word in words.iter().skip(1) {
        arguments.take(word.as_str())?;
    }
    arguments.asked()
}
