// Labels and rows as a person reads them.
use region::{Action, LabelNumber, LabelRow, Name, Row};
use std::fmt;
use std::fmt::Write;

/// A label's name; nothing where there is none.
#[derive(Clone, Copy)]
pub struct NameText(pub Option<Name>);

impl fmt::Display for NameText {
    fn fmt<W: fmt::Write>(&self, f: &mut fmt::Formatter<W>) -> fmt::Result {
        if let Some(name) = self.0 {
            for b in name.bytes().into_iter().take_while(|b| *b != 0) {
                f.write_char(char::from(b))?;
            }
        }
        Ok(())
    }
}

/// The name of a label among these rows.
pub(crate) fn label_text(labels: &[LabelRow], label: LabelNumber) -> NameText {
    NameText(labels.get(label.get()).and_then(|row| row.name))
}

// An action, as texts write it, with spaces between its fields.
#[derive(Clone, Copy)]
struct ActionText(Action);

impl fmt::Display for ActionText {
    fn fmt<W: fmt::Write>(&self, f: &mut fmt::Formatter<W>) -> fmt::Result {
        match self.0 {
            Action::Operate {
                op,
                to,
                left,
                right,
            } => {
                let (o, d, a, b) = (op as u8, to.get(), left.get(), right.get());
                write!(f, "O {o} {d} {a} {b}")
            }
            Action::Literal { to, value } => {
                let d = to.get();
                write!(f, "I {d} {value}")
            }
            Action::Load { to, bank, address } => {
                let (d, k, a) = (to.get(), bank.get(), address.get());
                write!(f, "L {d} {k} {a}")
            }
            Action::Store {
                bank,
                address,
                from,
            } => {
                let (k, a, s) = (bank.get(), address.get(), from.get());
                write!(f, "S {k} {a} {s}")
            }
        }
    }
}

/// A row, as texts write it, with spaces between its fields.
#[derive(Clone, Copy)]
pub struct RowText<'a> {
    pub row: Row,
    pub labels: &'a [LabelRow],
}

impl fmt::Display for RowText<'_> {
    fn fmt<W: fmt::Write>(&self, f: &mut fmt::Formatter<W>) -> fmt::Result {
        match self.row {
            Row::Act(action) => {
                let text = ActionText(action);
                write!(f, "{text}")
            }
            Row::Exit { tested, label } => {
                let t = tested.get();
                let name = label_text(self.labels, label);
                write!(f, "X {t} {name}")
            }
            Row::Join => f.write_str("J"),
        }
    }
}
