// How a text is taken line by line, a source and a schedule alike.
ghost use Rattle.std.specs.Prelude.{◌≡◌, Bool, Option, Result};
ghost use Rattle.region.specs.Numbers.{LabelNumber as EndLabel};
ghost use Rattle.region_text.specs.declared.letter.Letter.{Letter as RecordLetter};
ghost use Rattle.region_text.specs.declared.fault.LineFault.{LineFault as FaultOfLine};
ghost use Rattle.region_text.specs.Texts.{LineFields, lines as text_lines};
ghost use Rattle.region_text.specs.Lines.{as_text, parted};
ghost use Rattle.region_text.specs.Taking.{taken, all_taken, after, with_end};

use super::cursor::{Line, Lines};
use super::fault::{Fault, LineFault, Refusal};
use super::letter::Letter;
use region::LabelNumber;

/// What has been read of a text, and how it takes one record more.
pub(crate) trait Body {
    /// What has been read, as the definitions say it.
    ghost Read: { Type 0 };

    ghost read: { Self → Read };

    /// Which records have their place then.
    ghost in_place: { RecordLetter → Read → Bool };

    /// What a record in its place adds.
    ghost adds: { RecordLetter → Read → LineFields → Result Read FaultOfLine };

    /// The end label, if it was read.
    ghost end_of: { Read → Option EndLabel };

    /// Whether a record has its place here.
    fn has_place(&self, letter: Letter) -> bool
        ensures { result ≡ in_place letter (read self.now) };

    /// A record in its place: its fields from the left, and the sizes.
    fn take_record(&mut self, letter: Letter, line: Line) -> Result<(), LineFault>
        ensures { after result (read self.new) ≡ adds letter (read self.old) (parted line.entry) };

    /// The end label.
    fn end(&self) -> Option<LabelNumber>
        ensures { result ≡ end_of (read self.now) };
}

/// One line more: its form, its place, its fields from the left, and the sizes.
fn take_line<B: Body>(body: &mut B, line: Line) -> Result<(), LineFault>
    ensures { after result (B.read body.new) ≡ taken B.in_place B.adds (B.read body.old) line.entry.number (as_text line.entry) }
{
    let letter = line.form().ok_or(Fault::Malformed.in_line(line.number))?;
    if !body.has_place(letter) {
        return Err(Fault::OutOfPlace.in_line(line.number));
    }
    body.take_record(letter, line)
}

/// Takes the lines of a text one by one, and answers the end label. A text that is none is refused, at its first faulty line.
pub(crate) fn take_lines<B: Body>(body: &mut B, text: &[u8]) -> Result<LabelNumber, Refusal>
    ensures { with_end result (B.read body.new) ≡ all_taken (taken B.in_place B.adds) B.end_of (B.read body.old) 1 (text_lines text.now) }
{
    let mut behind = 1;
    for line in Lines::new(text) {
        take_line(body, line)?;
        behind = line.number + 1;
    }
    body.end().ok_or(Refusal::unended(behind))
}
