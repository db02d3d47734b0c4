// Runs of what lies in a region's rows.
ghost use Rattle.std.specs.Prelude.{◌≡◌};
ghost use Rattle.region.specs.Kept.{kept};
ghost use Rattle.region.specs.Machine.{answered, run_in, state_after};

use super::state::State;
use domain::Domain;
use region::{LineRows, Misfit, Outcome, REGION_ROWS, Row, STATE_WORDS, Shape, Side};

/// Runs the source or the schedule that lies in a region's rows, from an entry, on a state of 80 words.
pub fn run<D: Domain>(
    rows: &[Row],
    side: Side,
    shape: &Shape,
    entry: usize,
    state: &mut [D],
) -> Result<Outcome, Misfit>
    ensures answer { result ≡ answered (run_in D.meaning side rows.now (kept shape.now) entry state.old) }
    ensures after { state.new ≡ state_after state.old (run_in D.meaning side rows.now (kept shape.now) entry state.old) }
{
    let rows = <&[Row; REGION_ROWS]>::try_from(rows).map_err(|_| Misfit::Rows)?;
    if entry > shape.joins() {
        return Err(Misfit::Entry);
    }
    if state.len() != STATE_WORDS {
        return Err(Misfit::State);
    }
    let line = LineRows {
        rows,
        side,
        shape: *shape,
    };
    let reached = State { words: state }.run_from(line, entry);
    Ok(reached.map_or(Outcome::Trapped, Outcome::Reached))
}
