// Runs of a line where it lies.
use super::state::State;
use domain::Domain;
use region::{Entered, LabelNumber, LineRows, Piece, Row};

impl<D: Domain> State<'_, D> {
    ghost use Rattle.std.specs.Prelude.{◌≡◌, ◌+◌, ◌≤◌, length};
    ghost use Rattle.region.specs.Kept.{kept};
    ghost use Rattle.region.specs.Lines.{assembled};
    ghost use Rattle.region.specs.Machine.{run as run_of};
    ghost use Rattle.machine.specs.Straight.{ended, run_rows as ran};

    // Main rows in order, from a row with so many exits above it to the end of the line. None is a trap.
    fn run_rows(&mut self, line: LineRows, rows: &[Row], above: usize) -> Option<LabelNumber>
        requires { above + length rows.now ≤ 96 }
        ensures run { ended D.meaning result self.new.words.now ≡ ran D.meaning line.entry.rows.now (kept line.entry.shape) above rows.now self.old.words.now }
        ensures same { self.new.words.ghost_name ≡ self.old.words.ghost_name }
    {
        let mut exits = above;
        for row in rows {
            match *row {
                Row::Act(action) => self.step(action)?,
                Row::Exit { tested, label } => {
                    if self.read(tested).truth() {
                        self.perform(line.piece(Piece::OfExit(exits)))?;
                        return Some(label);
                    }
                    exits += 1;
                }
                Row::Join => {}
            }
        }
        Some(line.shape.end())
    }

    /// A line from an entry that it has. None is a trap.
    pub(crate) fn run_from(&mut self, line: LineRows, entry: usize) -> Option<LabelNumber>
        requires { entry ≤ line.shape.joins }
        ensures run { ended D.meaning result self.new.words.now ≡ run_of D.meaning (assembled line.entry.side line.entry.rows.now (kept line.entry.shape)) entry self.old.words.now }
        ensures same { self.new.words.ghost_name ≡ self.old.words.ghost_name }
    {
        let Entered {
            piece,
            ahead,
            exits,
        } = line.entered(entry);
        self.perform(piece)?;
        self.run_rows(line, ahead, exits)
    }
}
