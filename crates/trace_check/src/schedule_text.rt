// Schedules as texts.
use desk::Desk;
use region::{
    Action, EXITS, JOINS, LabelNumber, LabelRow, MAIN_ROWS, PIECE_ROWS, Piece, REGION_LABELS, Row,
    Shape,
};
use std::fmt;
use std::fmt::Write;

/// A schedule that is handed out, as a text: its rows, what is kept of it beside them, and its region's labels.
#[derive(Clone, Copy)]
pub struct ScheduleText<'a> {
    rows: &'a [Row],
    shape: Shape,
    labels: &'a [LabelRow],
}

// The name of a label; nothing where it has none.
#[derive(Clone, Copy)]
struct LabelText<'a> {
    label: LabelNumber,
    labels: &'a [LabelRow],
}

impl fmt::Display for LabelText<'_> {
    fn fmt<W: fmt::Write>(&self, f: &mut fmt::Formatter<W>) -> fmt::Result {
        let named = self.labels.get(self.label.get()).and_then(|row| row.name);
        if let Some(name) = named {
            for b in name.bytes().into_iter().take_while(|b| *b != 0) {
                f.write_char(char::from(b))?;
            }
        }
        Ok(())
    }
}

// The record of an action.
#[derive(Clone, Copy)]
struct ActionText(Action);

impl fmt::Display for ActionText {
    fn fmt<W: fmt::Write>(&self, f: &mut fmt::Formatter<W>) -> fmt::Result {
        match self.0 {
            Action::Operate {
                op,
                to,
                left,
                right,
            } => {
                let (o, d, a, b) = (op as u8, to.get(), left.get(), right.get());
                write!(f, "O\t{o}\t{d}\t{a}\t{b}")
            }
            Action::Literal { to, value } => {
                let d = to.get();
                write!(f, "I\t{d}\t{value}")
            }
            Action::Load { to, bank, address } => {
                let (d, k, a) = (to.get(), bank.get(), address.get());
                write!(f, "L\t{d}\t{k}\t{a}")
            }
            Action::Store {
                bank,
                address,
                from,
            } => {
                let (k, a, s) = (bank.get(), address.get(), from.get());
                write!(f, "S\t{k}\t{a}\t{s}")
            }
        }
    }
}

impl<'a> ScheduleText<'a> {
    /// The schedule of a region; nothing where HAND-OUT declines it.
    pub(crate) fn handed_out(desk: &'a Desk, region: usize) -> Option<ScheduleText<'a>> {
        let rows = desk.hand_out(region).ok()?;
        let record = desk.kept(region).ok()?;
        Some(ScheduleText {
            rows,
            shape: record.schedule?,
            labels: desk.labels().chunks(REGION_LABELS).nth(region)?,
        })
    }

    fn label(&self, label: LabelNumber) -> LabelText<'a> {
        LabelText {
            label,
            labels: self.labels,
        }
    }

    // The record of a row.
    fn write_row<W: fmt::Write>(&self, f: &mut fmt::Formatter<W>, row: Row) -> fmt::Result {
        match row {
            Row::Act(action) => {
                let text = ActionText(action);
                writeln!(f, "{text}")
            }
            Row::Exit { tested, label } => {
                let t = tested.get();
                let name = self.label(label);
                writeln!(f, "X\t{t}\t{name}")
            }
            Row::Join => f.write_str("J\n"),
        }
    }

    // The records of the first so many rows.
    fn write_rows<W: fmt::Write>(
        &self,
        f: &mut fmt::Formatter<W>,
        rows: &[Row],
        count: usize,
    ) -> fmt::Result {
        for row in rows.iter().take(count) {
            self.write_row(f, *row)?;
        }
        Ok(())
    }

    // A piece, whose rows begin its place, behind its head; nothing where it has none.
    fn write_piece<W: fmt::Write>(
        &self,
        f: &mut fmt::Formatter<W>,
        piece: Piece,
        place: &[Row],
    ) -> fmt::Result {
        let count = self.shape.piece_rows(piece);
        if count == 0 {
            return Ok(());
        }
        let (letter, above) = match piece {
            Piece::OfExit(k) => ('P', k),
            Piece::OfJoin(j) => ('Q', j),
        };
        let number = above.saturating_add(1);
        writeln!(f, "{letter}\t{number}")?;
        self.write_rows(f, place, count)
    }
}

impl fmt::Display for ScheduleText<'_> {
    fn fmt<W: fmt::Write>(&self, f: &mut fmt::Formatter<W>) -> fmt::Result {
        self.write_rows(f, self.rows, self.shape.rows())?;
        let end = self.label(self.shape.end());
        writeln!(f, "E\t{end}")?;
        let exits = (0..EXITS).map(Piece::OfExit);
        let pieces = exits.chain((0..JOINS).map(Piece::OfJoin));
        let places = self.rows.chunks(PIECE_ROWS).skip(MAIN_ROWS / PIECE_ROWS);
        for (piece, place) in pieces.zip(places) {
            self.write_piece(f, piece, place)?;
        }
        Ok(())
    }
}
