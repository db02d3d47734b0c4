// Numbers below a bound.
ghost use Rattle.std.specs.Prelude.{◌≡◌, ◌<◌};

/// A number below `N`: the type of each number that a row or an address may hold, which cannot hold one out of its range.
#[derive(Clone, Copy, PartialEq, Eq)]
pub struct Below<const N: u8> {
    index: u8,
    ghost fits: { index < N },
}

impl<const N: u8> Below<N> {
    ghost use Rattle.domain.specs.Numbered.{numbered};

    /// That number, or nothing where it is not below the bound.
    pub fn new(index: usize) -> Option<Below<N>>
        ensures { result ≡ numbered N index }
    {
        if index < N as usize {
            Some(Below { index: index as u8 })
        } else {
            None
        }
    }

    /// The number.
    pub fn get(self) -> usize
        ensures { result ≡ self.entry.index }
    {
        self.index as usize
    }
}
