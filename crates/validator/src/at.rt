// Where walks are compared.
ghost use Rattle.std.specs.Prelude.{◌≡◌};

use super::verdict::{Mismatch, Reason};

/// A stop of the walks from an entry.
#[derive(Clone, Copy)]
pub(crate) struct At {
    pub(crate) from: u8,
    pub(crate) stop: u8,
}

impl At {
    /// The mismatch here.
    pub(crate) fn mismatch(self, reason: Reason, number: u8) -> Mismatch
        ensures { result ≡ record { entry = self.from; stop = self.stop; reason = reason; number = number } }
    {
        Mismatch {
            entry: self.from,
            stop: self.stop,
            reason,
            number,
        }
    }
}
