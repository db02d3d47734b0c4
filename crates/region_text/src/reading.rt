// How the records of a source are taken one by one.
ghost use Rattle.std.specs.Prelude.{◌≡◌};
ghost use Rattle.region_text.specs.Lines.{parted};
ghost use Rattle.region_text.specs.Records.{label_in, label_row};
ghost use Rattle.region_text.specs.Sources.{Reading, nothing_read, in_place as may_stand, take_record as adding, end_of as ending, declare as declaring, keep as keeping, finish as finishing};
ghost use Rattle.region_text.specs.Readers.{reading};
ghost use Rattle.region_text.specs.Taking.{after};

use super::body::{DeclaredLabels, SourceBody};
use super::cursor::Line;
use super::fault::{Fault, LineFault};
use super::label::Declared;
use super::letter::Letter;
use super::taking::Body;
use region::{LabelNumber, MainRows, REGION_LABELS, Row};

impl<'a> SourceBody<'a> {
    /// Nothing yet.
    pub(crate) fn new(places: &'a mut [Declared; REGION_LABELS]) -> SourceBody<'a>
        ensures { reading result ≡ nothing_read }
    {
        SourceBody {
            labels: DeclaredLabels::new(places),
            rows: MainRows::new(),
            end: None,
        }
    }

    /// One more label, unless it is the tenth.
    fn declare(&mut self, line: Line) -> Result<(), LineFault>
        ensures { after result (reading self.new) ≡ declaring (reading self.old) line.entry.number (label_row (parted line.entry) (reading self.old).labels) }
    {
        let row = line.label_row(&self.labels)?;
        self.labels
            .number(row)
            .map(|_| ())
            .ok_or(Fault::TooMany.in_line(line.number))
    }

    /// One more row, unless a size is passed.
    fn keep(&mut self, row: Row, number: usize) -> Result<(), LineFault>
        ensures { after result (reading self.new) ≡ keeping (reading self.old) number (Ok row) }
    {
        self.rows
            .push(row)
            .map_err(|_| Fault::TooMany.in_line(number))
    }

    /// The end.
    fn finish(&mut self, line: Line) -> Result<(), LineFault>
        ensures { after result (reading self.new) ≡ finishing (reading self.old) (label_in (parted line.entry) (reading self.old).labels 1) }
    {
        self.end = Some(line.label_at(1, &self.labels)?);
        Ok(())
    }
}

impl<'a> Body for SourceBody<'a> {
    ghost Read = { Reading };

    ghost read = { reading };

    ghost in_place = { may_stand };

    ghost adds = { adding };

    ghost end_of = { ending };

    fn has_place(&self, letter: Letter) -> bool {
        let ended = self.end.is_some();
        match letter {
            Letter::Declare => !ended && self.rows.len() == 0,
            Letter::ExitPiece | Letter::JoinPiece => false,
            _ => !ended && self.labels.len() > 0,
        }
    }

    // A table of all letters here and one for schedules, as the definitions have them, so that each can be laid beside its own.
    fn take_record(&mut self, letter: Letter, line: Line) -> Result<(), LineFault> {
        let number = line.number;
        match letter {
            Letter::Declare => self.declare(line),
            Letter::Operate => self.keep(line.operate_row()?, number),
            Letter::Literal => self.keep(line.literal_row()?, number),
            Letter::Load => self.keep(line.load_row()?, number),
            Letter::Store => self.keep(line.store_row()?, number),
            Letter::Exit => {
                let row = line.exit_row(&self.labels)?;
                self.keep(row, number)
            }
            Letter::Join => self.keep(Row::Join, number),
            Letter::End => self.finish(line),
            Letter::ExitPiece | Letter::JoinPiece => Err(Fault::OutOfPlace.in_line(number)),
        }
    }

    fn end(&self) -> Option<LabelNumber> {
        self.end
    }
}
