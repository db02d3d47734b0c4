// The reader of a source's text.
ghost use Rattle.std.specs.Prelude.{◌≡◌};
ghost use Rattle.region_text.specs.Sources.{read_source as source_of_text};
ghost use Rattle.region_text.specs.Drafts.{drafted, laid_source};

use super::body::SourceBody;
use super::draft::SourceDraft;
use super::fault::Refusal;
use super::label::Declared;
use super::taking::take_lines;
use region::{LabelRow, REGION_LABELS, Shape};

/// Reads a source. A text that is none is refused, at its first faulty line.
pub fn read_source(text: &[u8]) -> Result<SourceDraft, Refusal>
    ensures { drafted result ≡ laid_source (source_of_text text.now) }
{
    let mut places = [Declared {
        row: LabelRow::unused(),
    }; REGION_LABELS];
    let mut body = SourceBody::new(&mut places);
    let end = take_lines(&mut body, text)?;
    Ok(SourceDraft {
        labels: body.labels.rows(),
        rows: body.rows.rows(),
        shape: Shape::of_source(&body.rows, end),
    })
}
