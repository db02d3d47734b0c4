// The labels of a text.
ghost use Rattle.std.specs.Prelude.{◌≡◌, List};
ghost use Rattle.numbering.specs.Rows.{found};
ghost use Rattle.region.specs.declared.label.LabelRow.{LabelRow as RowOfLabel};
ghost use Rattle.region_text.specs.Names.{same_label};
ghost use Rattle.region_text.specs.Lines.{parted};
ghost use Rattle.region_text.specs.Records.{named, spot_at, label_of, label_in, new_name_in, label_row, exit_row};
ghost use Rattle.region_text.specs.Fields.{or_fault};
ghost use Rattle.region_text.specs.declared.fault.Fault.TheVariants.{Label as Undeclared};

use super::cursor::Line;
use super::fault::{Fault, FieldFault};
use region::{LabelNumber, LabelRow, Name, Row};

/// Labels that a record may name.
pub(crate) trait Labels {
    /// Their rows: a label's place among them is its number.
    ghost rows: { Self → List RowOfLabel };

    /// The place of a name among them.
    fn find(&self, label: Name) -> Option<usize>
        ensures { result ≡ found same_label (rows self.now) (named label 0) };
}

impl Labels for &[LabelRow] {
    ghost rows = { λ s. s.now };

    fn find(&self, label: Name) -> Option<usize> {
        self.iter().position(|row| row.name == Some(label))
    }
}

impl<'a> Line<'a> {
    /// The label of the place where the name in the field at an index was found.
    fn label_of(self, index: u8, place: Option<usize>) -> Result<LabelNumber, FieldFault>
        ensures { result ≡ or_fault Undeclared (spot_at self.entry.number index) (label_of place) }
    {
        place
            .and_then(LabelNumber::new)
            .ok_or(Fault::Label.at(self.spot(index)))
    }

    /// The declared label in the field at an index.
    pub(crate) fn label_at<L: Labels>(
        self,
        index: u8,
        labels: &L,
    ) -> Result<LabelNumber, FieldFault>
        ensures { result ≡ label_in (parted self.entry) (L.rows labels.now) index }
    {
        let label = self.name_at(index)?;
        self.label_of(index, labels.find(label))
    }

    /// The name in the field at an index, which no label has yet.
    fn new_name_at<L: Labels>(self, index: u8, labels: &L) -> Result<Name, FieldFault>
        ensures { result ≡ new_name_in (parted self.entry) (L.rows labels.now) index }
    {
        let label = self.name_at(index)?;
        match labels.find(label) {
            Some(_) => Err(Fault::Label.at(self.spot(index))),
            None => Ok(label),
        }
    }

    /// `M name mask`
    pub(crate) fn label_row<L: Labels>(self, labels: &L) -> Result<LabelRow, FieldFault>
        ensures { result ≡ label_row (parted self.entry) (L.rows labels.now) }
    {
        let label = self.new_name_at(1, labels)?;
        let live = self.mask_at(2)?;
        Ok(LabelRow {
            name: Some(label),
            live,
        })
    }

    /// `X t label`
    pub(crate) fn exit_row<L: Labels>(self, labels: &L) -> Result<Row, FieldFault>
        ensures { result ≡ exit_row (parted self.entry) (L.rows labels.now) }
    {
        let tested = self.number_at(1)?;
        let label = self.label_at(2, labels)?;
        Ok(Row::Exit { tested, label })
    }
}
