// The state of a run, and what actions do to it.
ghost use Rattle.std.specs.Prelude.{◌≡◌, ◌<◌, length};
ghost use Rattle.region.specs.Machine.{cell};

use domain::{Domain, Slot};
use region::{Action, Bank, Register, Row};

/// The 80 words that a run reads and writes. They are the caller's: a struct of a `&mut` says at each method that they are the same.
#[derive(Drop)]
pub(crate) struct State<'a, D> {
    pub(crate) words: &'a mut [D],
    ghost whole: { length words.now ≡ 80 },
}

fn place(bank: Bank, slot: Slot) -> usize
    ensures value { result ≡ cell bank.index slot.index }
    ensures inside { result < 80 }
{
    16 + 16 * bank.get() + slot.get()
}

impl<D: Domain> State<'_, D> {
    ghost use Rattle.std.specs.Prelude.{List, is_some, if◌then◌else◌};
    ghost use Rattle.region.specs.Rows.{actions};
    ghost use Rattle.region.specs.Machine.{Ended, word, step as stepped, after_step, perform as performed, trapped};

    /// The word of a register.
    pub(crate) fn read(&self, at: Register) -> D
        ensures { result ≡ word D.meaning self.now.words.now at.index }
    {
        self.words[at.get()]
    }

    /// One action. None is a trap, and then the state is as it was.
    pub(crate) fn step(&mut self, action: Action) -> Option<()>
        ensures traps { is_some result ≡ is_some (stepped D.meaning action self.old.words.now) }
        ensures state { self.new.words.now ≡ after_step (stepped D.meaning action self.old.words.now) self.old.words.now }
        ensures same { self.new.words.ghost_name ≡ self.old.words.ghost_name }
    {
        match action {
            Action::Operate {
                op,
                to,
                left,
                right,
            } => {
                let result = D::apply(op, self.read(left), self.read(right))?;
                self.words[to.get()] = result;
            }
            Action::Literal { to, value } => self.words[to.get()] = D::literal(value),
            Action::Load { to, bank, address } => {
                let slot = self.read(address).slot()?;
                self.words[to.get()] = self.words[place(bank, slot)];
            }
            Action::Store {
                bank,
                address,
                from,
            } => {
                let slot = self.read(address).slot()?;
                self.words[place(bank, slot)] = self.read(from);
            }
        }
        Some(())
    }

    /// The actions among the rows of a piece. None is a trap.
    pub(crate) fn perform(&mut self, rows: &[Row]) -> Option<()>
        ensures state { (rest : List D → Ended D) → performed D.meaning (actions rows.now) self.old.words.now rest ≡ (if is_some result then rest self.new.words.now else trapped D.meaning self.new.words.now) }
        ensures same { self.new.words.ghost_name ≡ self.old.words.ghost_name }
    {
        for row in rows {
            if let Row::Act(action) = *row {
                self.step(action)?;
            }
        }
        Some(())
    }
}
