// The comparison of a schedule with its source.
ghost use Rattle.std.specs.Prelude.{◌≡◌, ◌+◌, ◌≤◌, length, OnErr};
ghost use Rattle.region.specs.Kept.{kept};
ghost use Rattle.validator.specs.Walks.{basis};
ghost use Rattle.validator.specs.Comparison.{mismatch as mismatch_of};
ghost use Rattle.validator.specs.Live.{live_in};
ghost use Rattle.validator.specs.Compared.{compared};
ghost use Rattle.validator.specs.Walkers.{left, line_of, entry_differs, DiffersFirst};

use super::at::At;
use super::term_row::TermRow;
use super::terms::{TERM_ROWS, Terms};
use super::unfit::Unfit;
use super::verdict::{Mismatch, Reason, Verdict};
use super::walk::Walk;
use super::walking::Walker;
use domain::Domain;
use region::{LabelRow, LineRows, REGION_LABELS, REGION_ROWS, Row, Shape, Side};

// No walk has more stops: one at each of 96 main rows, and the end.
const MOST_STOPS: u8 = 97;

// A source and its schedule, with the labels that both lead to.
#[derive(Clone, Copy)]
struct Pair<'a> {
    source: LineRows<'a>,
    schedule: LineRows<'a>,
    labels: &'a [LabelRow; REGION_LABELS],
}

impl Pair<'_> {
    // What differs first ahead of two walks from an entry.
    fn differ_ahead<D: Domain>(
        &self,
        terms: &mut Terms,
        mut source: Walker,
        mut schedule: Walker,
        entry: u8,
    ) -> Option<Mismatch>
        requires room { length terms.old + left source + left schedule ≤ 512 }
        ensures { DiffersFirst D.meaning self.now.labels.now entry terms.old source.entry schedule.entry result }
    {
        for stop in 1..=MOST_STOPS {
            let x = source.next_stop::<D>(terms);
            let y = schedule.next_stop::<D>(terms);
            let mismatch = At { from: entry, stop }.differ(&x, &y, self.labels);
            if mismatch.is_some() || x.condition.is_none() {
                return mismatch;
            }
        }
        unreachable!()
    }

    // What differs first from an entry that both lines have.
    fn differ_from<D: Domain>(&self, rows: &mut [TermRow; TERM_ROWS], entry: u8) -> Option<Mismatch>
        requires source { entry ≤ self.now.source.shape.joins }
        requires schedule { entry ≤ self.now.schedule.shape.joins }
        ensures { result ≡ entry_differs D.meaning self.now.labels.now (line_of self.now.source) (line_of self.now.schedule) entry }
    {
        let mut terms = Terms::new(rows);
        let start = Walk::at_entry(&mut terms);
        let source = Walker::enter::<D>(self.source, entry, &start, &mut terms);
        let schedule = Walker::enter::<D>(self.schedule, entry, &start, &mut terms);
        self.differ_ahead::<D>(&mut terms, source, schedule, entry)
    }

    // The first mismatch of the two lines: joins first, and then entry by entry.
    fn first_mismatch<D: Domain>(&self, rows: &mut [TermRow; TERM_ROWS]) -> Option<Mismatch>
        ensures { result ≡ mismatch_of (basis D.meaning (live_in self.now.labels.now)) (line_of self.now.source) (line_of self.now.schedule) }
    {
        let joins = self.source.shape.joins();
        if self.schedule.shape.joins() != joins {
            return Some(At { from: 0, stop: 0 }.mismatch(Reason::Joins, 0));
        }
        // No `find_map`: its contract leaves open that it asked all entries where the closure writes, as here to the rows.
        for entry in 0..=joins as u8 {
            let mismatch = self.differ_from::<D>(rows, entry);
            if mismatch.is_some() {
                return mismatch;
            }
        }
        None
    }
}

/// Compares the schedule that lies in a region's rows with the source that lies there, by their symbolic walks from each entry.
/// The terms are numbered in the rows lent for them; what those held before makes no difference, and what they hold after is of no use.
pub fn compare<D: Domain>(
    rows: &[Row],
    labels: &[LabelRow],
    source: &Shape,
    schedule: &Shape,
    terms: &mut [TermRow],
) -> Result<Verdict, Unfit>
    ensures answer { result ≡ compared D.meaning rows.now labels.now (kept source.now) (kept schedule.now) (length terms.old) }
    ensures room { length terms.new ≡ length terms.old }
    ensures refused { OnErr result (terms.new ≡ terms.old) }
{
    let rows = <&[Row; REGION_ROWS]>::try_from(rows).map_err(|_| Unfit::Rows)?;
    let labels = <&[LabelRow; REGION_LABELS]>::try_from(labels).map_err(|_| Unfit::Labels)?;
    let terms = terms.first_chunk_mut::<TERM_ROWS>().ok_or(Unfit::Terms)?;
    let line = |side, shape: &Shape| LineRows {
        rows,
        side,
        shape: *shape,
    };
    let pair = Pair {
        source: line(Side::Source, source),
        schedule: line(Side::Schedule, schedule),
        labels,
    };
    Ok(pair.first_mismatch::<D>(terms).into())
}
