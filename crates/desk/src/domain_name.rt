// The names of domains.
ghost use Rattle.std.specs.Prelude.{◌≡◌, Some};
ghost use Rattle.desk.specs.Words.{IsNamed, domain_word};

use std::fmt;
use std::str::FromStr;

/// A domain that texts are checked in: wrapping words and trapping words, each alone and with a tag; and wrapping
/// words with two tags.
#[derive(Clone, Copy)]
pub enum DomainName {
    Wrapping,
    Trapping,
    TaggedWrapping,
    TaggedTrapping,
    TwiceTaggedWrapping,
}

/// A word that names no domain.
#[derive(Clone, Copy, Debug)]
pub struct UnknownDomain;

impl DomainName {
    /// Every domain.
    pub const ALL: [DomainName; 5] = [
        DomainName::Wrapping,
        DomainName::Trapping,
        DomainName::TaggedWrapping,
        DomainName::TaggedTrapping,
        DomainName::TwiceTaggedWrapping,
    ];

    /// The word for the domain: w, t, kw, kt or kkw.
    pub fn name(self) -> &'static str
        ensures { result.now ≡ domain_word self }
    {
        match self {
            DomainName::Wrapping => "w",
            DomainName::Trapping => "t",
            DomainName::TaggedWrapping => "kw",
            DomainName::TaggedTrapping => "kt",
            DomainName::TwiceTaggedWrapping => "kkw",
        }
    }
}

impl FromStr for DomainName {
    type Err = UnknownDomain;

    ghost from_str_gives = { IsNamed };

    fn from_str(word: &str) -> Result<DomainName, UnknownDomain> {
        // By match: tried as a find over `ALL`, and the proof didn't close.
        match word {
            "w" => Ok(DomainName::Wrapping),
            "t" => Ok(DomainName::Trapping),
            "kw" => Ok(DomainName::TaggedWrapping),
            "kt" => Ok(DomainName::TaggedTrapping),
            "kkw" => Ok(DomainName::TwiceTaggedWrapping),
            _ => Err(UnknownDomain),
        }
    }
}

impl fmt::Display for DomainName {
    ghost output = { λ domain. Some (domain_word domain) };

    fn fmt<W: fmt::Write>(&self, f: &mut fmt::Formatter<W>) -> fmt::Result {
        f.write_str(self.name())
    }
}
