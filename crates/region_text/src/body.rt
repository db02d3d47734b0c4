ghost use Rattle.std.specs.Prelude.{◌≡◌};
ghost use Rattle.numbering.specs.Used.{capacity};

use super::label::Declared;
use numbering::Table;
use region::{LabelNumber, LabelRow, MainRows, PieceRows};

/// The labels that a source declares, in memory for nine.
#[derive(Drop)]
pub(crate) struct DeclaredLabels<'a> {
    pub(crate) table: Table<'a, Declared>,
    ghost nine: { capacity table ≡ 9 },
}

/// What has been read of a source.
#[derive(Drop)]
pub(crate) struct SourceBody<'a> {
    pub(crate) labels: DeclaredLabels<'a>,
    pub(crate) rows: MainRows,
    pub(crate) end: Option<LabelNumber>,
}

/// What has been read of a schedule of the region that has these label rows; `at` is the piece that was headed last, by its number among the twelve,
/// since the numbers rise as the heads do.
#[derive(Clone, Copy)]
pub(crate) struct ScheduleBody<'a> {
    pub(crate) labels: &'a [LabelRow],
    pub(crate) rows: MainRows,
    pub(crate) end: Option<LabelNumber>,
    pub(crate) pieces: PieceRows,
    pub(crate) at: Option<usize>,
}
