// Words as they are written in a file of words and on the screen: decimal numbers.
use desk::{Trouble, UnknownDomain};
use domain::{Domain, Trapping, Wrapping};
use std::alloc::Global;
use std::fmt;
use std::num::TryFromIntError;
use std::str::FromStr;

/// A domain whose words are plain numbers, as a file of words has them. No `DomainName` of `desk`: its tagged domains have none.
#[derive(Clone, Copy)]
pub enum NumberDomain {
    Wrapping,
    Trapping,
}

impl FromStr for NumberDomain {
    type Err = UnknownDomain;

    fn from_str(word: &str) -> Result<NumberDomain, UnknownDomain> {
        match word {
            "w" => Ok(NumberDomain::Wrapping),
            "t" => Ok(NumberDomain::Trapping),
            _ => Err(UnknownDomain),
        }
    }
}

impl fmt::Display for NumberDomain {
    fn fmt<W: fmt::Write>(&self, f: &mut fmt::Formatter<W>) -> fmt::Result {
        f.write_str(match self {
            NumberDomain::Wrapping => "w",
            NumberDomain::Trapping => "t",
        })
    }
}

/// The words of such a domain, each with its number.
pub trait Numeral: Domain + PartialEq {
    type Number: TryFrom<i64, Error = TryFromIntError> + fmt::Display + Drop;

    /// The word of a number.
    fn of(number: Self::Number) -> Self;

    /// The number of the word.
    fn number(self) -> Self::Number;
}

impl Numeral for Wrapping {
    type Number = u32;

    fn of(value: u32) -> Wrapping {
        Wrapping { value }
    }

    fn number(self) -> u32 {
        self.value
    }
}

impl Numeral for Trapping {
    type Number = i32;

    fn of(value: i32) -> Trapping {
        Trapping { value }
    }

    fn number(self) -> i32 {
        self.value
    }
}

// The word that a line says.
fn read_word<D: Numeral>(line: &str) -> Option<D> {
    let number = line.parse::<i64>().ok()?;
    Some(D::of(D::Number::try_from(number).ok()?))
}

/// Reads as many words as the state has, one to a line.
pub(crate) fn read_words<D: Numeral>(
    heap: Global,
    path: &str,
    text: &str,
    state: &mut [D],
) -> Result<(), Trouble> {
    let mut lines = text.lines();
    for (count, word) in state.iter_mut().enumerate() {
        let line = lines.next().try_ok_or_else(|| {
            Ok(Trouble::Said(format!(in heap; "{path}: {count} words, and a state has 80")?))
        })?;
        *word = read_word(line).try_ok_or_else(|| {
            Ok(Trouble::Said(format!(in heap;
                "{path}: word {count}, '{line}', is no word of this domain"
            )?))
        })?;
    }
    if lines.next().is_some() {
        return Err(Trouble::Said(format!(in heap; "{path}: more than 80 words")?));
    }
    Ok(())
}
