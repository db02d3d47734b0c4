// Actions on the numbers of terms.
ghost use Rattle.std.specs.Prelude.{◌≡◌, ◌+◌, ◌<◌, ◌≤◌, length};
ghost use Rattle.region.specs.Rows.{actions};
ghost use Rattle.validator.specs.Walks.{basis, may_trap_at, follow, follow_all};
ghost use Rattle.validator.specs.Means.{Liveness, Does, Leaves, action_row, put as put_in};

use super::term_row::TermRow;
use super::terms::Terms;
use super::walk::{Reached, Walk};
use domain::Domain;
use region::{Action, LabelNumber, Register, Row};

// Whether an action may trap.
fn may_trap<D: Domain>(action: Action) -> bool
    ensures { (live : Liveness) → result ≡ may_trap_at (basis D.meaning live) action }
{
    match action {
        Action::Operate { op, .. } => D::may_trap(op),
        Action::Literal { .. } => false,
        Action::Load { .. } | Action::Store { .. } => D::may_trap_address(),
    }
}

impl Walk {
    // The row of the term that an action makes.
    fn row<D: Domain>(&self, action: Action) -> TermRow
        ensures { result ≡ action_row D.meaning.commutes self.now action }
    {
        match action {
            Action::Operate {
                op,
                left,
                right,
                ..
            } => TermRow::Operate {
                op,
                exchangeable: D::commutes(op),
                left: self.registers[left.get()],
                right: self.registers[right.get()],
            },
            Action::Literal { value, .. } => TermRow::Literal(value),
            Action::Load { bank, address, .. } => TermRow::Load {
                bank: self.banks[bank.get()],
                address: self.registers[address.get()],
            },
            Action::Store {
                bank,
                address,
                from,
            } => TermRow::Store {
                bank: self.banks[bank.get()],
                address: self.registers[address.get()],
                value: self.registers[from.get()],
            },
        }
    }

    // What an action does to a walk, where its term has the number n.
    fn put<D: Domain>(&mut self, action: Action, n: u16)
        requires { n < 512 }
        ensures { (live : Liveness) → self.new ≡ put_in (basis D.meaning live) action n self.old }
    {
        match action {
            Action::Operate { to, .. } | Action::Literal { to, .. } | Action::Load { to, .. } => {
                self.registers[to.get()] = n;
            }
            Action::Store { bank, .. } => self.banks[bank.get()] = n,
        }
        if may_trap::<D>(action) {
            self.traps[n as usize] = true;
        }
    }

    /// One action.
    pub(crate) fn act<D: Domain>(&mut self, terms: &mut Terms, action: Action)
        requires room { length terms.old < 512 }
        ensures few { length terms.new ≤ length terms.old + 1 }
        ensures acts { Does D.meaning terms.old self.old terms.new self.new (λ β. follow β action) }
    {
        let n = terms.intern(self.row::<D>(action));
        self.put::<D>(action, n);
    }

    /// The actions among the rows of a piece.
    pub(crate) fn acts<D: Domain>(&mut self, terms: &mut Terms, piece: &[Row])
        requires room { length terms.old + length piece.now ≤ 512 }
        ensures few { length terms.new ≤ length terms.old + length piece.now }
        ensures acts { Does D.meaning terms.old self.old terms.new self.new (λ β. follow_all β (actions piece.now)) }
    {
        for row in piece {
            if let Row::Act(action) = *row {
                self.act::<D>(terms, action);
            }
        }
    }

    /// The stop at an exit: its piece goes on a copy of the walk.
    pub(crate) fn leave<D: Domain>(
        &self,
        terms: &mut Terms,
        tested: Register,
        label: LabelNumber,
        piece: &[Row],
    ) -> Reached
        requires room { length terms.old + length piece.now ≤ 512 }
        ensures few { length terms.new ≤ length terms.old + length piece.now }
        ensures leaves { Leaves D.meaning terms.old self.now tested label piece.now terms.new result }
    {
        let mut after = *self;
        after.acts::<D>(terms, piece);
        Reached {
            condition: Some(self.registers[tested.get()]),
            label,
            walk: after,
        }
    }
}
