// The law at work.
ghost use Rattle.domain.specs.Meaning.{Lawful};
ghost use Rattle.replay.specs.Example.{Example};

use domain::{Domain, Wrapping};

// The laws of a domain.
fn is_lawful<D: Domain>()
    ensures { Lawful D.Domain.meaning }
{}

/// The law is not empty: it holds of a list of calls, with wrapping words, in which a schedule fails, another passes, is
/// handed out and dropped and passes again, and in which calls are declined.
pub fn example_holds()
    ensures { Example }
{
    is_lawful::<Wrapping>();
}
