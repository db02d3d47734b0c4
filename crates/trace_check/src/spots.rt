// Places in texts, as a person opens them.
use std::fmt;
use std::fmt::Write;

// So much of a line is shown; a good line is shorter.
const SHOWN: usize = 72;

/// A line of a text with its number, as it is printed. There is no line behind the end of the text.
#[derive(Clone, Copy)]
pub struct NumberedLine<'a> {
    number: usize,
    line: Option<&'a [u8]>,
}

impl fmt::Display for NumberedLine<'_> {
    fn fmt<W: fmt::Write>(&self, f: &mut fmt::Formatter<W>) -> fmt::Result {
        let number = self.number;
        write!(f, "{number} ")?;
        match self.line {
            Some(line) => show(f, line),
            None => f.write_str("(the text ends here)"),
        }
    }
}

/// A place as it is printed: a file; a line of it; its lines from one to another; or how many joins it has.
#[derive(Clone, Copy)]
pub enum Spot<'a> {
    File(&'a str),
    Line {
        path: &'a str,
        line: NumberedLine<'a>,
    },
    Stretch {
        path: &'a str,
        first: NumberedLine<'a>,
        last: NumberedLine<'a>,
    },
    Joins {
        path: &'a str,
        joins: usize,
    },
}

impl fmt::Display for Spot<'_> {
    fn fmt<W: fmt::Write>(&self, f: &mut fmt::Formatter<W>) -> fmt::Result {
        match *self {
            Spot::File(path) => f.write_str(path),
            Spot::Joins { path, joins } => write!(f, "{path}: joins {joins}"),
            Spot::Line { path, line } => write!(f, "{path}:{line}"),
            Spot::Stretch { path, first, last } => write!(f, "{path}:{first} to line {last}"),
        }
    }
}

// The byte in printable characters: what parts fields is a space, and what cannot be printed a question mark.
fn shown(b: u8) -> char {
    match b {
        b'\t' | b' ' => ' ',
        _ if b.is_ascii_graphic() => char::from(b),
        _ => '?',
    }
}

// The beginning of a line, without the LF that ends it.
fn show<W: fmt::Write>(f: &mut fmt::Formatter<W>, line: &[u8]) -> fmt::Result {
    for b in line.iter().take(SHOWN).take_while(|b| **b != b'\n') {
        f.write_char(shown(*b))?;
    }
    Ok(())
}

/// The lines of a text. They count from 1; what stands behind the last LF is a line where it is not empty.
#[derive(Clone, Copy)]
pub struct Lines<'a>(pub &'a [u8]);

impl<'a> Lines<'a> {
    // The line of a number, counted from 1.
    fn numbered(self, number: usize) -> NumberedLine<'a> {
        NumberedLine {
            number,
            line: number.checked_sub(1).and_then(|before| self
                .0
                .split_inclusive(|b| *b == b'\n')
                .nth(before)),
        }
    }

    /// The line of a number as a place; the file alone where the number is 0.
    pub(crate) fn spot(self, path: &'a str, number: usize) -> Spot<'a> {
        match number {
            0 => Spot::File(path),
            _ => Spot::Line {
                path,
                line: self.numbered(number),
            },
        }
    }

    /// The lines from where an entry starts to where a stop stands.
    pub(crate) fn stretch(self, path: &'a str, entry: u8, stop: u8) -> Spot<'a> {
        Spot::Stretch {
            path,
            first: self.numbered(self.start(entry)),
            last: self.numbered(self.stop(entry, stop)),
        }
    }

    /// How many joins the line of rows has.
    pub(crate) fn joins(self) -> usize {
        self.0
            .split_inclusive(|b| *b == b'\n')
            .filter(|line| line.starts_with(b"J"))
            .count()
    }

    /// The number of the line where an entry starts: entry 0 at the first row, or at the end where there are no rows, and
    /// entry j at the j-th join.
    pub(crate) fn start(self, entry: u8) -> usize {
        let mut lines = self.0.split_inclusive(|b| *b == b'\n');
        let starts = match usize::from(entry).checked_sub(1) {
            None => lines.position(|line| !line.starts_with(b"M")),
            Some(above) => lines
                .enumerate()
                .filter(|(_, line)| line.starts_with(b"J"))
                .map(|(before, _)| before)
                .nth(above),
        };
        starts.map_or(0, |before| before.saturating_add(1))
    }

    /// The number of the line where a stop stands: of the exits below the entry's join the one of that number,
    /// counted from 1, or the end where there are fewer.
    pub(crate) fn stop(self, entry: u8, stop: u8) -> usize {
        let mut walk = Walk {
            joins: entry,
            exits: stop,
        };
        let stands = self
            .0
            .split_inclusive(|b| *b == b'\n')
            .position(|line| walk.stops_at(line));
        match stands {
            Some(before) => before + 1,
            None => self.0.split_inclusive(|b| *b == b'\n').count(),
        }
    }
}

// How many joins are still to come, and behind them how many exits.
#[derive(Clone, Copy)]
struct Walk {
    joins: u8,
    exits: u8,
}

impl Walk {
    // Passes a line; whether the walk stops there.
    fn stops_at(&mut self, line: &[u8]) -> bool {
        match line.first() {
            Some(b'E') => return true,
            Some(b'J') => self.joins = self.joins.saturating_sub(1),
            Some(b'X') if self.joins == 0 => {
                self.exits = self.exits.saturating_sub(1);
                return self.exits == 0;
            }
            _ => {}
        }
        false
    }
}
