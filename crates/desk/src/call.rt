// Calls on a shelf, and that one was declined.
ghost use Rattle.std.specs.Prelude.{◌≡◌, Some};
ghost use Rattle.desk.specs.Words.{call_word, declined_text};

use shelf::Refusal;
use std::fmt;

/// A call on a shelf.
#[derive(Clone, Copy)]
pub enum Call {
    Open,
    Source,
    Schedule,
    Check,
}

/// The first call that was declined, and why.
#[derive(Clone, Copy)]
pub struct Declined {
    pub call: Call,
    pub refusal: Refusal,
}

impl Call {
    /// The word that is printed for the call.
    pub fn name(self) -> &'static str
        ensures { result.now ≡ call_word self }
    {
        match self {
            Call::Open => "open",
            Call::Source => "source",
            Call::Schedule => "schedule",
            Call::Check => "check",
        }
    }

    // That the call was declined.
    pub(crate) fn declined(self, refusal: Refusal) -> Declined
        ensures { result ≡ record { call = self; refusal = refusal } }
    {
        Declined {
            call: self,
            refusal,
        }
    }
}

/// The call, and the number, line, field and layer of the refusal.
impl fmt::Display for Declined {
    ghost output = { λ declined. Some (declined_text declined) };

    fn fmt<W: fmt::Write>(&self, f: &mut fmt::Formatter<W>) -> fmt::Result {
        let call = self.call.name();
        let number = self.refusal.number.printed();
        let line = self.refusal.line;
        let field = self.refusal.field;
        let layer = self.refusal.layer.name();
        write!(f, "{call} {number} {line} {field} {layer}")
    }
}
