// The main rows of a line as they are put in.
ghost use Rattle.std.specs.Prelude.{◌≡◌, ◌≤◌};
ghost use Rattle.region.specs.Filled.{filled};
ghost use Rattle.region.specs.Rows.{exits_in, joins_in, one_exit, one_join};

use super::buffer::RowBuffer;
use super::full::Full;
use super::layout::{EXITS, JOINS, MAIN_ROWS};
use super::row::Row;

/// The main rows of a line as they are put in, one after the other, and blank rows behind them.
/// There are never more than 96, with 8 exits and 4 joins.
#[derive(Clone, Copy)]
pub struct MainRows {
    pub(crate) rows: RowBuffer<MAIN_ROWS>,
    exits: u8,
    joins: u8,
    ghost few_exits: { exits ≤ 8 },
    ghost few_joins: { joins ≤ 4 },
    ghost exits_counted: { exits ≡ exits_in (filled rows) },
    ghost joins_counted: { joins ≡ joins_in (filled rows) },
}

// How many exits a row adds.
fn exits_of(row: Row) -> u8
    ensures { result ≡ one_exit row }
{
    u8::from(matches!(row, Row::Exit { .. }))
}

// How many joins a row adds.
fn joins_of(row: Row) -> u8
    ensures { result ≡ one_join row }
{
    u8::from(matches!(row, Row::Join))
}

impl MainRows {
    ghost use Rattle.std.specs.Prelude.{[], ◌∷◌, ◌++◌, if◌then◌else◌, is_ok, length};
    ghost use Rattle.region.specs.Rows.{blank, laid, main_fits};
    ghost use Rattle.region.specs.Listing.{listed};

    /// No rows yet.
    pub fn new() -> MainRows
        ensures { listed result ≡ [] }
    {
        MainRows {
            rows: RowBuffer::new(),
            exits: 0,
            joins: 0,
        }
    }

    /// Puts a row behind the others, unless the line would then be too large.
    pub fn push(&mut self, row: Row) -> Result<(), Full>
        ensures answer { is_ok result ≡ main_fits (listed self.old ++ row ∷ []) }
        ensures after { listed self.new ≡ (if is_ok result then listed self.old ++ row ∷ [] else listed self.old) }
    {
        let exits = self.exits + exits_of(row);
        let joins = self.joins + joins_of(row);
        if exits as usize > EXITS || joins as usize > JOINS {
            return Err(Full);
        }
        self.rows.push(row)?;
        self.exits = exits;
        self.joins = joins;
        Ok(())
    }

    /// How many rows were put in.
    pub fn len(&self) -> usize
        ensures count { result ≡ length (listed self.now) }
        ensures few { result ≤ 96 }
    {
        self.rows.len()
    }

    /// How many exits were put in.
    pub fn exits(&self) -> u8
        ensures count { result ≡ exits_in (listed self.now) }
        ensures few { result ≤ 8 }
    {
        self.exits
    }

    /// How many joins were put in.
    pub fn joins(&self) -> u8
        ensures count { result ≡ joins_in (listed self.now) }
        ensures few { result ≤ 4 }
    {
        self.joins
    }

    /// The rows that were put in, and blank rows behind them.
    pub fn rows(&self) -> [Row; MAIN_ROWS]
        ensures { result ≡ laid 96 blank (listed self.now) }
    {
        self.rows.rows()
    }
}
