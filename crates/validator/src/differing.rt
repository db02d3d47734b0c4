// The comparison of two stops by the numbers of their terms.
ghost use Rattle.std.specs.Prelude.{◌≡◌};
ghost use Rattle.validator.specs.Numbers.{Marks, unlike, live_mask, conditions_differ, labels_differ, registers_differ, banks_differ, marks_differ, numbers_differ};

use super::at::At;
use super::verdict::{Mismatch, Reason};
use super::walk::{Reached, Walk};
use region::{LabelNumber, LabelRow, REGION_LABELS};

// The mask of the registers that hold different terms: bit i stands for register i. It meets the live mask of a label as
// it is kept, and its trailing zeros name the lowest register.
fn differing_mask(x: &[u16; 16], y: &[u16; 16]) -> u16
    ensures { Marks (unlike x.now y.now) 16 result }
{
    let mut mask: u16 = 0;
    for (i, n) in x.iter().enumerate() {
        if *n != y[i] {
            mask |= 1 << i;
        }
    }
    mask
}

impl At {
    // One walk alone is at its last stop, or the conditions differ.
    fn conditions(self, x: Option<u16>, y: Option<u16>) -> Option<Mismatch>
        ensures { result ≡ conditions_differ self.from self.stop x y }
    {
        match (x, y) {
            (None, None) => None,
            (Some(n), Some(m)) => (n != m).then_some(self.mismatch(Reason::Condition, 0)),
            _ => Some(self.mismatch(Reason::End, 0)),
        }
    }

    fn labels(self, x: LabelNumber, y: LabelNumber) -> Option<Mismatch>
        ensures { result ≡ labels_differ self.from self.stop x y }
    {
        (x != y).then_some(self.mismatch(Reason::Label, 0))
    }

    // The lowest live register that differs.
    fn registers(self, x: &Walk, y: &Walk, live: u16) -> Option<Mismatch>
        ensures { result ≡ registers_differ self.from self.stop live x.now y.now }
    {
        let mask = live & differing_mask(&x.registers, &y.registers);
        if mask == 0 {
            return None;
        }
        Some(self.mismatch(Reason::Register, mask.trailing_zeros() as u8))
    }

    // The lowest bank that differs.
    fn banks(self, x: &Walk, y: &Walk) -> Option<Mismatch>
        ensures { result ≡ banks_differ self.from self.stop x.now y.now }
    {
        let lowest = x.banks.iter().zip(&y.banks).position(|(n, m)| n != m)?;
        Some(self.mismatch(Reason::Bank, lowest as u8))
    }

    // The sets of terms that may have trapped differ.
    fn traps(self, x: &Walk, y: &Walk) -> Option<Mismatch>
        ensures { result ≡ marks_differ self.from self.stop x.now y.now }
    {
        (x.traps != y.traps).then_some(self.mismatch(Reason::Traps, 0))
    }

    /// What differs first between two stops.
    pub(crate) fn differ(
        self,
        x: &Reached,
        y: &Reached,
        labels: &[LabelRow; REGION_LABELS],
    ) -> Option<Mismatch>
        ensures { result ≡ numbers_differ self.from self.stop (live_mask labels.now x.now.label) x.now y.now }
    {
        let live = labels[x.label.get()].live;
        self.conditions(x.condition, y.condition)
            .or(self.labels(x.label, y.label))
            .or(self.registers(&x.walk, &y.walk, live))
            .or(self.banks(&x.walk, &y.walk))
            .or(self.traps(&x.walk, &y.walk))
    }
}
