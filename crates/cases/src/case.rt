// Cases as a list gives them.
use anyhow::anyhow;
use desk::DomainName;
use std::alloc::{AllocError, Global};
use std::fs;

/// A text: written in the list, or that of a file.
#[derive(Drop)]
pub enum Text {
    Written(Vec<u8>),
    File(String),
}

/// The answer that is expected in a domain.
#[derive(Drop)]
pub struct Expected {
    pub domain: DomainName,
    pub answer: String,
}

/// A source, a schedule, and what is expected of them.
#[derive(Drop)]
pub struct Case {
    pub name: String,
    pub source: Text,
    pub schedule: Text,
    pub expected: Vec<Expected>,
}

// The byte that a character of a written text stands for.
fn byte_of(b: u8) -> u8 {
    match b {
        b' ' => b'\t',
        b';' => b'\n',
        b'^' => b'\r',
        b'_' => b' ',
        _ => b,
    }
}

impl Text {
    /// A text that is written in a list.
    pub(crate) fn written(heap: Global, line: &str) -> Result<Text, AllocError> {
        Ok(Text::Written(line.bytes().map(byte_of).collect(heap)?))
    }

    /// The bytes of the text.
    pub(crate) fn bytes(&self, rt: &HostRuntime) -> anyhow::Result<Vec<u8>> {
        match self {
            Text::Written(bytes) => Ok(bytes.clone()?),
            Text::File(path) => {
                let path = path.as_str();
                fs::read(rt, path).map_err(|e| anyhow!("{path}: cannot be read: {e}"))
            }
        }
    }
}
