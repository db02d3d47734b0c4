// What the calls answer, as it is printed.
ghost use Rattle.std.specs.Prelude.{Some};
ghost use Rattle.desk.specs.Words.{answer_text};

use super::call::Declined;
use std::fmt;
use validator::Verdict;

/// What the calls answer of a pair of texts, as programs print it: `passed`, `failed` with the mismatch, or `refused`
/// with the call and the refusal.
#[derive(Clone, Copy)]
pub struct AnswerText(pub Result<Verdict, Declined>);

impl fmt::Display for AnswerText {
    ghost output = { λ text. Some (answer_text text.0) };

    fn fmt<W: fmt::Write>(&self, f: &mut fmt::Formatter<W>) -> fmt::Result {
        match self.0 {
            Ok(Verdict::Passed) => f.write_str("passed"),
            Ok(Verdict::Failed(found)) => {
                let entry = found.entry;
                let stop = found.stop;
                let reason = found.reason.name();
                let number = found.number;
                write!(f, "failed {entry} {stop} {reason} {number}")
            }
            Err(declined) => write!(f, "refused {declined}"),
        }
    }
}
