// What the fields of a line say.
ghost use Rattle.std.specs.Prelude.{◌≡◌};
ghost use Rattle.region_text.specs.Letters.{letter_at, field_count, letter_of as letter_meant, form as formed};
ghost use Rattle.region_text.specs.Lines.{as_text, parted};
ghost use Rattle.region_text.specs.Records.{spot_at, number_in, name_in, mask_in, operate_row, literal_row, load_row, store_row};

use super::cursor::Line;
use super::fault::{Fault, FieldFault, Spot};
use super::fields::{Ranged, read_mask, read_ranged};
use super::letter::Letter;
use super::texts::{count_fields, nth_field};
use region::{Action, Name, Row};

/// The record that a letter begins.
// Not `TryFrom<u8>`: an unknown letter has no error of its own, since it is the line that is at fault.
fn letter_of(letter: u8) -> Option<Letter>
    ensures { result ≡ letter_at letter }
{
    match char::from(letter) {
        'M' => Some(Letter::Declare),
        'O' => Some(Letter::Operate),
        'I' => Some(Letter::Literal),
        'L' => Some(Letter::Load),
        'S' => Some(Letter::Store),
        'X' => Some(Letter::Exit),
        'J' => Some(Letter::Join),
        'E' => Some(Letter::End),
        'P' => Some(Letter::ExitPiece),
        'Q' => Some(Letter::JoinPiece),
        _ => None,
    }
}

impl Letter {
    /// The letter that is all of a field.
    fn read(field: &[u8]) -> Option<Letter>
        ensures { result ≡ letter_meant field.now }
    {
        match field {
            [letter] => letter_of(*letter),
            _ => None,
        }
    }

    /// How many fields the record has, its letter included.
    fn field_count(self) -> usize
        ensures { result ≡ field_count self }
    {
        match self {
            Letter::Join => 1,
            Letter::End | Letter::ExitPiece | Letter::JoinPiece => 2,
            Letter::Declare | Letter::Literal | Letter::Exit => 3,
            Letter::Load | Letter::Store => 4,
            Letter::Operate => 5,
        }
    }
}

impl<'a> Line<'a> {
    /// The record that the line holds: a known letter, as many fields as it asks for, and a final LF.
    pub(crate) fn form(self) -> Option<Letter>
        ensures { result ≡ formed (as_text self.entry) }
    {
        Letter::read(nth_field(self.bytes, 0)).filter(|letter| count_fields(self.bytes)
            == letter.field_count()
            && self.ended)
    }

    /// The place of the field at an index.
    pub(crate) fn spot(self, index: u8) -> Spot
        ensures { result ≡ spot_at self.entry.number index }
    {
        Spot {
            line: self.number,
            field: index as usize + 1,
        }
    }

    /// What the number in the field at an index stands for.
    pub(crate) fn number_at<R: Ranged>(self, index: u8) -> Result<R, FieldFault>
        ensures { result ≡ number_in (parted self.entry) index R.make }
    {
        read_ranged(nth_field(self.bytes, index as usize), self.spot(index))
    }

    /// The name in the field at an index.
    pub(crate) fn name_at(self, index: u8) -> Result<Name, FieldFault>
        ensures { result ≡ name_in (parted self.entry) index }
    {
        Name::new(nth_field(self.bytes, index as usize)).ok_or(Fault::Malformed.at(self.spot(
            index,
        )))
    }

    /// The mask in the field at an index.
    pub(crate) fn mask_at(self, index: u8) -> Result<u16, FieldFault>
        ensures { result ≡ mask_in (parted self.entry) index }
    {
        read_mask(nth_field(self.bytes, index as usize), self.spot(index))
    }

    /// `O op d a b`
    pub(crate) fn operate_row(self) -> Result<Row, FieldFault>
        ensures { result ≡ operate_row (parted self.entry) }
    {
        let op = self.number_at(1)?;
        let to = self.number_at(2)?;
        let left = self.number_at(3)?;
        let right = self.number_at(4)?;
        Ok(Row::Act(Action::Operate {
            op,
            to,
            left,
            right,
        }))
    }

    /// `I d n`
    pub(crate) fn literal_row(self) -> Result<Row, FieldFault>
        ensures { result ≡ literal_row (parted self.entry) }
    {
        let to = self.number_at(1)?;
        let value = self.number_at(2)?;
        Ok(Row::Act(Action::Literal { to, value }))
    }

    /// `L d bank a`
    pub(crate) fn load_row(self) -> Result<Row, FieldFault>
        ensures { result ≡ load_row (parted self.entry) }
    {
        let to = self.number_at(1)?;
        let bank = self.number_at(2)?;
        let address = self.number_at(3)?;
        Ok(Row::Act(Action::Load { to, bank, address }))
    }

    /// `S bank a s`
    pub(crate) fn store_row(self) -> Result<Row, FieldFault>
        ensures { result ≡ store_row (parted self.entry) }
    {
        let bank = self.number_at(1)?;
        let address = self.number_at(2)?;
        let from = self.number_at(3)?;
        Ok(Row::Act(Action::Store {
            bank,
            address,
            from,
        }))
    }
}
