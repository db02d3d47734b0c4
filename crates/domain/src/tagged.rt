// K: a word of the domain below with a tag that says whether it is a number or an address.
ghost use Rattle.std.specs.Prelude.{◌≡◌};
ghost use Rattle.domain.specs.Tagged.{tagged, tag_of};
ghost use Rattle.domain.specs.TaggedLaws.{tagged_lawful};

use super::{Domain, Op, Slot};

/// What a tagged word is: a number is tag 0, an address tag 1.
#[derive(Clone, Copy, PartialEq, Eq)]
pub enum Tag {
    Number,
    Address,
}

/// A word of the domain `D` with a tag.
#[derive(Clone, Copy)]
pub struct Tagged<D> {
    pub tag: Tag,
    pub word: D,
}

// The tag of an operation's result, or a trap.
fn result_tag(op: Op, a: Tag, b: Tag) -> Option<Tag>
    ensures { result ≡ tag_of op a b }
{
    match (op, a, b) {
        (_, Tag::Number, Tag::Number) => Some(Tag::Number),
        (Op::Add, Tag::Number, Tag::Address) => Some(Tag::Address),
        (Op::Add | Op::Sub, Tag::Address, Tag::Number) => Some(Tag::Address),
        (Op::Sub | Op::Lt | Op::Eq, Tag::Address, Tag::Address) => Some(Tag::Number),
        _ => None,
    }
}

impl<D: Domain> Domain for Tagged<D> {
    ghost meaning = { tagged D.Domain.meaning };

    ghost lawful = { tagged_lawful D.Domain.meaning D.Domain.lawful };

    fn apply(op: Op, a: Tagged<D>, b: Tagged<D>) -> Option<Tagged<D>> {
        let tag = result_tag(op, a.tag, b.tag)?;
        let word = D::apply(op, a.word, b.word)?;
        Some(Tagged { tag, word })
    }

    fn literal(n: u16) -> Tagged<D> {
        Tagged {
            tag: Tag::Number,
            word: D::literal(n),
        }
    }

    fn truth(self) -> bool {
        self.word.truth()
    }

    fn slot(self) -> Option<Slot> {
        match self.tag {
            Tag::Number => None,
            Tag::Address => self.word.slot(),
        }
    }

    fn may_trap(_op: Op) -> bool {
        true
    }

    fn may_trap_address() -> bool {
        true
    }

    fn commutes(op: Op) -> bool {
        match op {
            Op::Sub => false,
            _ => D::commutes(op),
        }
    }
}
