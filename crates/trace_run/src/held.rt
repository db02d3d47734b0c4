// What the region holds, and how it is told.
use super::listing::{NameText, RowText, label_text};
use super::refusals::refused;
use desk::Trouble;
use domain::Domain;
use region::{LabelRow, LineRows, Outcome, REGION_LABELS, REGION_ROWS, Row, Side};
use shelf::Shelf;
use std::alloc::Global;
use std::{fs, io};

/// A shelf of one region, with its rows and labels. It is no `Desk`, which
/// keeps its rows to itself: here they are printed.
#[derive(Drop)]
pub struct Held {
    shelf: Shelf,
    rows: [Row; REGION_ROWS],
    labels: [LabelRow; REGION_LABELS],
}

/// That a file cannot be read.
pub(crate) fn unreadable(heap: Global, path: &str, error: io::Error) -> Trouble {
    format!(in heap; "{path}: cannot be read: {error}").map_or_else(Trouble::Memory, Trouble::Said)
}

// The bytes of a file.
fn load(rt: &HostRuntime, path: &str) -> Result<Vec<u8>, Trouble> {
    fs::read(rt, path).map_err(|error| unreadable(rt.alloc(), path, error))
}

impl Held {
    /// A region that holds nothing.
    pub(crate) fn new(heap: Global) -> Result<Held, Trouble> {
        let mut held = Held {
            shelf: Shelf::new(),
            rows: [Row::blank(); REGION_ROWS],
            labels: [LabelRow::unused(); REGION_LABELS],
        };
        match held.shelf.open(&mut held.rows, &mut held.labels) {
            Ok(_) => Ok(held),
            Err(refusal) => Err(refused(heap, "open", refusal)),
        }
    }

    /// Puts a source into the region, and prints it.
    pub(crate) fn put_source(&mut self, rt: &HostRuntime, path: &str) -> Result<(), Trouble> {
        let text = load(rt, path)?;
        self.shelf
            .put_source(&mut self.rows, &mut self.labels, 0, text.as_slice())
            .map_err(|refusal| refused(rt.alloc(), path, refusal))?;
        self.show_labels(rt)?;
        self.show(rt, path, Side::Source)
    }

    /// Puts a schedule of the source into the region, and prints it.
    pub(crate) fn put_schedule(&mut self, rt: &HostRuntime, path: &str) -> Result<(), Trouble> {
        let text = load(rt, path)?;
        self.shelf
            .put_schedule(&mut self.rows, &self.labels, 0, text.as_slice())
            .map_err(|refusal| refused(rt.alloc(), path, refusal))?;
        self.show(rt, path, Side::Schedule)
    }

    // Prints the labels that are declared.
    fn show_labels(&self, rt: &HostRuntime) -> Result<(), Trouble> {
        for (number, label) in self.labels.iter().enumerate() {
            if label.name.is_some() {
                let name = NameText(label.name);
                let live = label.live;
                println!(rt; "label {number}: {name}, live {live:04x}")?;
            }
        }
        Ok(())
    }

    // Prints the source or the schedule that the region holds.
    fn show(&self, rt: &HostRuntime, path: &str, side: Side) -> Result<(), Trouble> {
        let record = self
            .shelf
            .kept(0)
            .map_err(|refusal| refused(rt.alloc(), path, refusal))?;
        let held = match side {
            Side::Source => record.source,
            Side::Schedule => record.schedule,
        };
        let Some(shape) = held else {
            return Ok(());
        };
        let rows = &self.rows;
        self.show_line(rt, path, LineRows { rows, side, shape })
    }

    fn show_line(&self, rt: &HostRuntime, path: &str, line: LineRows) -> Result<(), Trouble> {
        let rows = line.main();
        let count = rows.len();
        let exits = rows
            .iter()
            .filter(|row| matches!(row, Row::Exit { .. }))
            .count();
        let joins = line.shape.joins();
        let end = label_text(&self.labels, line.shape.end());
        println!(rt; "{path}: rows {count}, exits {exits}, joins {joins}, end {end}")?;
        for (number, row) in rows.iter().enumerate() {
            let text = RowText {
                row: *row,
                labels: &self.labels,
            };
            println!(rt; "row {number}: {text}")?;
        }
        Ok(())
    }

    /// Runs the source or the schedule on a state, and prints how it ended.
    pub(crate) fn run<D: Domain>(
        &self,
        rt: &HostRuntime,
        side: Side,
        entry: usize,
        state: &mut [D],
    ) -> Result<(), Trouble> {
        let outcome = self
            .shelf
            .run(&self.rows, &self.labels, 0, side, entry, state)
            .map_err(|refusal| refused(rt.alloc(), "run", refusal))?;
        match outcome {
            Outcome::Reached(label) => {
                let name = label_text(&self.labels, label);
                println!(rt; "reached {name}")?;
            }
            Outcome::Trapped => println!(rt; "trapped")?,
        }
        Ok(())
    }
}
