// How the records of a schedule are taken one by one.
ghost use Rattle.std.specs.Prelude.{◌≡◌};
ghost use Rattle.region_text.specs.Lines.{parted};
ghost use Rattle.region_text.specs.Records.{label_in, piece_in};
ghost use Rattle.region_text.specs.Schedules.{Scheduling, nothing_scheduled, before_joins as no_join_yet, in_place as may_stand, take_record as adding, end_of as ending, keep as keeping, finish as finishing, rises as rising, head as heading};
ghost use Rattle.region_text.specs.Readers.{scheduling};
ghost use Rattle.region_text.specs.Taking.{after};

use super::body::ScheduleBody;
use super::cursor::Line;
use super::fault::{Fault, FieldFault, LineFault};
use super::letter::Letter;
use super::taking::Body;
use region::{EXITS, LabelNumber, LabelRow, MainRows, PieceRows, Row};

impl<'a> Line<'a> {
    /// `P k`, `Q j`: the piece of a number from 1 to a count, where that of number 1 is the piece `first`.
    fn piece(self, first: u8, count: u8) -> Result<usize, FieldFault>
        ensures { result ≡ piece_in (parted self.entry) first count }
    {
        let number: u16 = self.number_at(1)?;
        if number < 1 || number > u16::from(count) {
            return Err(Fault::OutOfRange.at(self.spot(1)));
        }
        Ok(usize::from(first) + usize::from(number - 1))
    }
}

impl<'a> ScheduleBody<'a> {
    /// Nothing yet.
    pub(crate) fn new(labels: &'a [LabelRow]) -> ScheduleBody<'a>
        ensures { scheduling result ≡ nothing_scheduled labels.now }
    {
        ScheduleBody {
            labels,
            rows: MainRows::new(),
            end: None,
            pieces: PieceRows::new(),
            at: None,
        }
    }

    /// Whether no piece of a join was headed yet.
    fn before_joins(&self) -> bool
        ensures { result ≡ no_join_yet self.now.at }
    {
        self.at.is_none_or(|piece| piece < EXITS)
    }

    /// One more row, in the main line or in the piece that was headed last, unless a size is passed.
    fn keep(&mut self, row: Row, number: usize) -> Result<(), LineFault>
        ensures { after result (scheduling self.new) ≡ keeping (scheduling self.old) number (Ok row) }
    {
        let pushed = match self.at {
            Some(piece) => self.pieces.push(piece, row),
            None => self.rows.push(row),
        };
        pushed.map_err(|_| Fault::TooMany.in_line(number))
    }

    /// The end.
    fn finish(&mut self, line: Line) -> Result<(), LineFault>
        ensures { after result (scheduling self.new) ≡ finishing (scheduling self.old) (label_in (parted line.entry) (scheduling self.old).labels 1) }
    {
        self.end = Some(line.label_at(1, &self.labels)?);
        Ok(())
    }

    /// Whether a piece comes after the one that was headed last.
    fn rises(&self, piece: usize) -> bool
        ensures { result ≡ rising self.now.at piece }
    {
        self.at.is_none_or(|last| last < piece)
    }

    /// The head of a piece, unless its number does not rise.
    fn head(&mut self, piece: usize, number: usize) -> Result<(), LineFault>
        ensures { after result (scheduling self.new) ≡ heading (scheduling self.old) number (Ok piece) }
    {
        if !self.rises(piece) {
            return Err(Fault::OutOfPlace.in_line(number));
        }
        self.at = Some(piece);
        Ok(())
    }
}

impl<'a> Body for ScheduleBody<'a> {
    ghost Read = { Scheduling };

    ghost read = { scheduling };

    ghost in_place = { may_stand };

    ghost adds = { adding };

    ghost end_of = { ending };

    fn has_place(&self, letter: Letter) -> bool {
        let ended = self.end.is_some();
        match letter {
            Letter::Declare => false,
            Letter::Operate | Letter::Literal | Letter::Load | Letter::Store => {
                !ended || self.at.is_some()
            }
            Letter::Exit | Letter::Join | Letter::End => !ended,
            Letter::ExitPiece => ended && self.before_joins(),
            Letter::JoinPiece => ended,
        }
    }

    fn take_record(&mut self, letter: Letter, line: Line) -> Result<(), LineFault> {
        let number = line.number;
        match letter {
            Letter::Declare => Err(Fault::OutOfPlace.in_line(number)),
            Letter::Operate => self.keep(line.operate_row()?, number),
            Letter::Literal => self.keep(line.literal_row()?, number),
            Letter::Load => self.keep(line.load_row()?, number),
            Letter::Store => self.keep(line.store_row()?, number),
            Letter::Exit => {
                let row = line.exit_row(&self.labels)?;
                self.keep(row, number)
            }
            Letter::Join => self.keep(Row::Join, number),
            Letter::End => self.finish(line),
            Letter::ExitPiece => {
                let piece = line.piece(0, self.rows.exits())?;
                self.head(piece, number)
            }
            Letter::JoinPiece => {
                let piece = line.piece(EXITS as u8, self.rows.joins())?;
                self.head(piece, number)
            }
        }
    }

    fn end(&self) -> Option<LabelNumber> {
        self.end
    }
}
