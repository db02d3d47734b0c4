// The texts of pairs, and the places in them that a person opens.
use super::pairs::Pair;
use super::spots::{Lines, Spot};
use desk::{Call, Declined};
use std::{fmt, fs, io};
use validator::{Mismatch, Verdict};

/// A file that cannot be read.
#[derive(Drop)]
pub struct Unreadable<'a> {
    path: &'a str,
    error: io::Error,
}

impl fmt::Display for Unreadable<'_> {
    fn fmt<W: fmt::Write>(&self, f: &mut fmt::Formatter<W>) -> fmt::Result {
        let path = self.path;
        let error = &self.error;
        write!(f, "unreadable {path}\t{path}: {error}")
    }
}

/// A text, and the path of its file.
#[derive(Drop)]
pub struct Text<'a> {
    pub path: &'a str,
    pub bytes: Vec<u8>,
}

impl<'a> Text<'a> {
    fn read(rt: &HostRuntime, path: &'a str) -> Result<Text<'a>, Unreadable<'a>> {
        match fs::read(rt, path) {
            Ok(bytes) => Ok(Text { path, bytes }),
            Err(error) => Err(Unreadable { path, error }),
        }
    }

    fn lines(&self) -> Lines<'_> {
        Lines(self.bytes.as_slice())
    }

    // The line of a number.
    fn line(&self, number: usize) -> Spot<'_> {
        self.lines().spot(self.path, number)
    }

    // From where the entry starts to where the stop stands; a mismatch of the joins has neither, and their number is shown.
    fn stretch(&self, mismatch: Mismatch) -> Spot<'_> {
        if mismatch.stop == 0 {
            return Spot::Joins {
                path: self.path,
                joins: self.lines().joins(),
            };
        }
        self.lines()
            .stretch(self.path, mismatch.entry, mismatch.stop)
    }
}

/// The texts of a pair.
#[derive(Drop)]
pub struct Texts<'a> {
    pub source: Text<'a>,
    pub schedule: Text<'a>,
}

/// The texts of a pair, or the file of it that cannot be read.
pub type Read<'a> = Result<Texts<'a>, Unreadable<'a>>;

/// A pair whose texts were read, or could not be.
#[derive(Drop)]
pub struct Waiting<'a> {
    pub pair: &'a Pair,
    pub read: Read<'a>,
}

/// Places to open: one, or one in each of the two files.
#[derive(Clone, Copy)]
pub enum Places<'a> {
    One(Spot<'a>),
    Two(Spot<'a>, Spot<'a>),
}

impl fmt::Display for Places<'_> {
    fn fmt<W: fmt::Write>(&self, f: &mut fmt::Formatter<W>) -> fmt::Result {
        match self {
            Places::One(spot) => write!(f, "{spot}"),
            Places::Two(source, schedule) => write!(f, "{source} | {schedule}"),
        }
    }
}

impl<'a> Texts<'a> {
    /// The texts of a pair, where both can be read.
    pub(crate) fn read(rt: &HostRuntime, pair: &'a Pair) -> Read<'a> {
        Ok(Texts {
            source: Text::read(rt, pair.source.as_str())?,
            schedule: Text::read(rt, pair.schedule.as_str())?,
        })
    }

    /// How many bytes the two have. The sum saturates, as nothing says here how many a file may have.
    pub(crate) fn len(&self) -> usize {
        self.source
            .bytes
            .len()
            .saturating_add(self.schedule.bytes.len())
    }

    fn files(&self) -> Places<'_> {
        Places::Two(Spot::File(self.source.path), Spot::File(self.schedule.path))
    }

    /// The places to open for an answer: the files, the lines where the comparison failed, or the faulty line of the
    /// text that was refused.
    pub(crate) fn places(&self, answer: Result<Verdict, Declined>) -> Places<'_> {
        match answer {
            Ok(Verdict::Passed) => self.files(),
            Ok(Verdict::Failed(mismatch)) => {
                Places::Two(
                    self.source.stretch(mismatch),
                    self.schedule.stretch(mismatch),
                )
            }
            Err(declined) => match declined.call {
                Call::Source => Places::One(self.source.line(declined.refusal.line)),
                Call::Schedule => Places::One(self.schedule.line(declined.refusal.line)),
                Call::Open | Call::Check => self.files(),
            },
        }
    }
}
