// The reader of a schedule's text.
ghost use Rattle.std.specs.Prelude.{◌≡◌};
ghost use Rattle.region_text.specs.Schedules.{read_schedule as schedule_of_text};
ghost use Rattle.region_text.specs.Drafts.{drafted_schedule, laid_schedule};

use super::body::ScheduleBody;
use super::draft::ScheduleDraft;
use super::fault::Refusal;
use super::taking::take_lines;
use region::{LabelRow, Shape};

/// Reads a schedule of the region that has these label rows. A text that is none is refused, at its first faulty line.
pub fn read_schedule(labels: &[LabelRow], text: &[u8]) -> Result<ScheduleDraft, Refusal>
    ensures { drafted_schedule result ≡ laid_schedule (schedule_of_text labels.now text.now) }
{
    let mut body = ScheduleBody::new(labels);
    let end = take_lines(&mut body, text)?;
    Ok(ScheduleDraft {
        rows: body.pieces.laid_behind(&body.rows),
        shape: Shape::of_schedule(&body.rows, &body.pieces, end),
    })
}
