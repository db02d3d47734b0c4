// Walks over main rows, from stop to stop.
ghost use Rattle.std.specs.Prelude.{◌≡◌, ◌+◌, ◌<◌, ◌≤◌, true, length, is_some};

use super::terms::Terms;
use super::walk::{Reached, Walk};
use domain::Domain;
use region::{Entered, LineRows, Piece, Row};

/// A walk of a line: the main rows ahead, how many exits are above them, and the symbolic state there.
#[derive(Drop)]
pub(crate) struct Walker<'a> {
    pub(crate) line: LineRows<'a>,
    pub(crate) ahead: &'a [Row],
    pub(crate) exits: usize,
    pub(crate) walk: Walk,
    ghost few: { exits + length ahead.now ≤ 96 },
}

impl<'a> Walker<'a> {
    ghost use Rattle.validator.specs.Walkers.{left, ComesIn, ComesTo};

    /// A walk of a line from an entry that the line has: the piece of the entry's join is walked first.
    pub(crate) fn enter<D: Domain>(
        line: LineRows<'a>,
        entry: u8,
        start: &Walk,
        terms: &mut Terms,
    ) -> Walker<'a>
        requires room { length terms.old + 16 ≤ 512 }
        requires entry { entry ≤ line.shape.joins }
        ensures few { length terms.new ≤ length terms.old + 16 }
        ensures onward { ComesIn D.meaning line.entry entry terms.old start.now terms.new result }
    {
        let Entered {
            piece,
            ahead,
            exits,
        } = line.entered(entry as usize);
        let mut walk = *start;
        walk.acts::<D>(terms, piece);
        Walker {
            line,
            ahead,
            exits,
            walk,
        }
    }

    /// Walks on to the next stop: an exit, or the end of the line.
    pub(crate) fn next_stop<D: Domain>(&mut self, terms: &mut Terms) -> Reached
        requires room { length terms.old + left self.old ≤ 512 }
        ensures few { length terms.new + left self.new ≤ length terms.old + left self.old }
        ensures onward { is_some result.condition ≡ true → length self.new.ahead.now < length self.old.ahead.now }
        ensures stopped { ComesTo D.meaning terms.old self.old terms.new self.new result }
    {
        // No `for`: the walk stops among the rows, and goes on behind that stop at the next call.
        while let Some((row, rest)) = self.ahead.split_first() {
            self.ahead = rest;
            match *row {
                Row::Act(action) => self.walk.act::<D>(terms, action),
                Row::Exit { tested, label } => {
                    let line = self.line;
                    let piece = line.piece(Piece::OfExit(self.exits));
                    self.exits += 1;
                    return self.walk.leave::<D>(terms, tested, label, piece);
                }
                Row::Join => {}
            }
        }
        Reached {
            condition: None,
            label: self.line.shape.end(),
            walk: self.walk,
        }
    }
}
