// The label rows of a region.
ghost use Rattle.std.specs.Prelude.{◌≡◌};

const NAME_BYTES: usize = 8;

/// A label's name: 1 to 8 characters a-z or 0-9, followed by zero bytes. Only `Name::new` makes one.
/// Bytes of a fixed number and no `String`, since no library uses the heap.
#[derive(Clone, Copy, PartialEq, Eq)]
pub struct Name {
    bytes: [u8; NAME_BYTES],
}

impl Name {
    ghost use Rattle.std.specs.List.{list_all};
    ghost use Rattle.region.specs.Labels.{name_byte, name_at, spells_name};

    fn is_byte(b: u8) -> bool
        ensures { result ≡ name_byte b }
    {
        b.is_ascii_lowercase() || b.is_ascii_digit()
    }

    fn are_bytes(text: &[u8]) -> bool
        ensures { result ≡ list_all name_byte text.now }
    {
        text.iter().all(|b| Name::is_byte(*b))
    }

    fn is_spelled(text: &[u8]) -> bool
        ensures { result ≡ spells_name text.now }
    {
        !text.is_empty() && text.len() <= NAME_BYTES && Name::are_bytes(text)
    }

    /// The name that a text spells, or nothing where it spells none.
    pub fn new(text: &[u8]) -> Option<Name>
        ensures { result ≡ name_at text.now }
    {
        if !Name::is_spelled(text) {
            return None;
        }
        let mut bytes = [0; NAME_BYTES];
        bytes[..text.len()].copy_from_slice(text);
        Some(Name { bytes })
    }

    /// The name's characters, and zero bytes behind them.
    pub fn bytes(self) -> [u8; NAME_BYTES]
        ensures { result ≡ self.bytes }
    {
        self.bytes
    }
}

/// A label: its name, and its live mask, in which bit i stands for register i.
/// An unused label row has no name and mask 0.
#[derive(Clone, Copy)]
pub struct LabelRow {
    pub name: Option<Name>,
    pub live: u16,
}

impl LabelRow {
    ghost use Rattle.region.specs.Labels.{unused};

    /// An unused label row.
    pub fn unused() -> LabelRow
        ensures { result ≡ unused }
    {
        LabelRow {
            name: None,
            live: 0,
        }
    }
}
