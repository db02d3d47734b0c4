// The labels that a source has declared.
ghost use Rattle.std.specs.Prelude.{◌≡◌, [], length, slice_index_or};
ghost use Rattle.region.specs.Labels.{unused};
ghost use Rattle.region.specs.Rows.{laid};
ghost use Rattle.numbering.specs.Rows.{numbered, with_row};
ghost use Rattle.region_text.specs.Names.{same_label};
ghost use Rattle.region_text.specs.Readers.{labels_of};

use super::body::DeclaredLabels;
use super::label::Declared;
use super::labels::Labels;
use numbering::Table;
use region::{LabelRow, Name, REGION_LABELS};
use std::array;

impl<'a> DeclaredLabels<'a> {
    /// No label yet.
    pub(crate) fn new(places: &'a mut [Declared; REGION_LABELS]) -> DeclaredLabels<'a>
        ensures { labels_of result ≡ [] }
    {
        DeclaredLabels {
            table: Table::new(places),
        }
    }

    /// Puts a label behind the others where none has its name and there is room, and answers its number; `None` where there is no room.
    pub(crate) fn number(&mut self, row: LabelRow) -> Option<usize>
        ensures answer { result ≡ numbered same_label 9 (labels_of self.old) row }
        ensures rows { labels_of self.new ≡ with_row same_label 9 (labels_of self.old) row }
    {
        self.table.number(Declared { row })
    }

    /// How many labels are declared.
    pub(crate) fn len(&self) -> usize
        ensures { result ≡ length (labels_of self.now) }
    {
        self.table.len()
    }

    /// The label row at a place: that of a declared label, or an unused one.
    fn row(&self, place: usize) -> LabelRow
        ensures { result ≡ slice_index_or (labels_of self.now) place unused }
    {
        self.table
            .rows()
            .get(place)
            .map_or(LabelRow::unused(), |label| label.row)
    }

    /// The label rows: those of the declared labels, and then unused ones.
    pub(crate) fn rows(&self) -> [LabelRow; REGION_LABELS]
        ensures { result ≡ laid 9 unused (labels_of self.now) }
    {
        array::from_fn(|i| self.row(i))
    }
}

impl<'a> Labels for DeclaredLabels<'a> {
    ghost rows = { labels_of };

    fn find(&self, label: Name) -> Option<usize> {
        self.table.find(&Declared {
            row: LabelRow {
                name: Some(label),
                live: 0,
            },
        })
    }
}
