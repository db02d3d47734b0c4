use super::calls::{Answers, pair_calls};
use super::handing::{Directory, Unhanded};
use super::pairs::Pair;
use super::release::SHELF_PAIRS;
use super::schedule_text::ScheduleText;
use super::spots::Lines;
use desk::{Call, Declined, Desk, DomainName};
use replay::Granted;
use std::test::Fail;
use validator::{Reason, Verdict};

const SOURCE: &[u8] =
    b"M\tout\t0000\nX\t1\tout\nX\t2\tout\nJ\nI\t1\t7\nX\t3\tout\nJ\nE\tout\nP\t1\nI\t2\t5\n";

#[test]
fn stops_are_counted_from_the_entry(rt: HostRuntime) -> Result<(), Fail> {
    let lines = Lines(SOURCE);
    assert_eq!(rt; lines.joins(), 2);
    assert_eq!(rt; lines.stop(0, 1), 2);
    assert_eq!(rt; lines.stop(0, 2), 3);
    assert_eq!(rt; lines.stop(0, 3), 6);
    assert_eq!(rt; lines.stop(1, 1), 6);
    Ok(())
}

#[test]
fn entries_start_at_the_first_row_and_at_joins(rt: HostRuntime) -> Result<(), Fail> {
    let source = Lines(SOURCE);
    assert_eq!(rt; source.start(0), 2);
    assert_eq!(rt; source.start(1), 4);
    assert_eq!(rt; source.start(2), 7);
    let schedule = Lines(b"J\nE\tout\n");
    assert_eq!(rt; schedule.start(0), 1);
    assert_eq!(rt; schedule.start(1), 1);
    Ok(())
}

#[test]
fn a_stretch_has_its_first_line_and_its_last(rt: HostRuntime) -> Result<(), Fail> {
    let lines = Lines(SOURCE);
    let exit = lines.stretch("a", 1, 1).to_string(rt.alloc())?;
    assert_eq!(rt; exit.as_str(), "a:4 J to line 6 X 3 out");
    let end = lines.stretch("a", 0, 4).to_string(rt.alloc())?;
    assert_eq!(rt; end.as_str(), "a:2 X 1 out to line 8 E out");
    Ok(())
}

#[test]
fn the_last_stop_is_the_end(rt: HostRuntime) -> Result<(), Fail> {
    let lines = Lines(SOURCE);
    assert_eq!(rt; lines.stop(0, 4), 8);
    assert_eq!(rt; lines.stop(1, 2), 8);
    assert_eq!(rt; lines.stop(2, 1), 8);
    Ok(())
}

#[test]
fn places_are_printable(rt: HostRuntime) -> Result<(), Fail> {
    let lines = Lines(b"E\tout\n\x00\xffx\ty");
    let first = lines.spot("a", 1).to_string(rt.alloc())?;
    assert_eq!(rt; first.as_str(), "a:1 E out");
    let second = lines.spot("a", 2).to_string(rt.alloc())?;
    assert_eq!(rt; second.as_str(), "a:2 ??x y");
    let third = lines.spot("a", 3).to_string(rt.alloc())?;
    assert_eq!(rt; third.as_str(), "a:3 (the text ends here)");
    let none = lines.spot("a", 0).to_string(rt.alloc())?;
    assert_eq!(rt; none.as_str(), "a");
    Ok(())
}

// What the calls on a region answer, on a desk that they are made on.
fn answer(
    desk: &mut Desk,
    region: usize,
    source: &[u8],
    schedule: &[u8],
) -> Result<Result<Verdict, Declined>, Fail> {
    let mut answers = [Ok(Granted::Done); 3];
    let calls = pair_calls(region, source, schedule);
    match desk.replay(DomainName::Wrapping, &calls, &mut answers) {
        Ok(3) => match Answers(&answers).next_pair() {
            Some(answer) => Ok(answer),
            None => Err(Fail::new("no answer")),
        },
        _ => Err(Fail::new("not made")),
    }
}

#[test]
fn a_store_above_an_exit_fails(rt: HostRuntime) -> Result<(), Fail> {
    let mut desk = Desk::new(rt.alloc(), SHELF_PAIRS)?;
    let source = b"M\tout\t0000\nX\t1\tout\nS\t2\t5\t6\nE\tout\n";
    let schedule = b"S\t2\t5\t6\nX\t1\tout\nE\tout\n";
    match answer(&mut desk, 15, source, schedule)? {
        Ok(Verdict::Failed(m)) => {
            assert_eq!(rt; m.entry, 0);
            assert_eq!(rt; m.stop, 1);
            assert!(rt; matches!(m.reason, Reason::Bank));
            assert_eq!(rt; m.number, 2);
            assert!(rt; ScheduleText::handed_out(&desk, 15).is_none());
            Ok(())
        }
        _ => Err(Fail::new("not failed")),
    }
}

#[test]
fn a_shelf_has_sixteen_places(rt: HostRuntime) -> Result<(), Fail> {
    let mut desk = Desk::new(rt.alloc(), SHELF_PAIRS)?;
    match answer(&mut desk, 16, b"", b"")? {
        Err(
            Declined {
                call: Call::Source,
                refusal,
            },
        ) => {
            assert_eq!(rt; refusal.number.printed(), 2);
            Ok(())
        },
        _ => Err(Fail::new("not refused")),
    }
}

const STOCK: &[u8] =
    b"M\tshort\t0020\nM\ttaken\t0120\nL\t4\t0\t2\nO\t4\t7\t4\t3\nO\t1\t5\t4\t3\nX\t7\tshort\nJ\nS\t0\t2\t5\nI\t8\t200\nE\ttaken\n";

// A schedule of it in which each kind of row stands, with a piece of the exit and one of the join.
const STOCK_SCHEDULE: &str =
    "L\t4\t0\t2\nO\t4\t7\t4\t3\nX\t7\tshort\nO\t1\t5\t4\t3\nS\t0\t2\t5\nJ\nI\t8\t200\nE\ttaken\nP\t1\nO\t1\t5\t4\t3\nQ\t1\nS\t0\t2\t5\n";

// The text of what a region holds after its calls.
fn handed_out(rt: &HostRuntime, source: &[u8], schedule: &str) -> Result<String, Fail> {
    let mut desk = Desk::new(rt.alloc(), 2)?;
    let _ = answer(&mut desk, 1, source, schedule.as_bytes())?;
    match ScheduleText::handed_out(&desk, 1) {
        Some(text) => Ok(text.to_string(rt.alloc())?),
        None => Err(Fail::new("not handed out")),
    }
}

#[test]
fn what_passes_is_handed_out_as_it_was_read(rt: HostRuntime) -> Result<(), Fail> {
    let first = handed_out(&rt, STOCK, STOCK_SCHEDULE)?;
    assert_eq!(rt; first.as_str(), STOCK_SCHEDULE);
    let again = handed_out(&rt, STOCK, first.as_str())?;
    assert_eq!(rt; again.as_str(), STOCK_SCHEDULE);
    Ok(())
}

#[test]
fn a_piece_without_rows_is_not_handed_out(rt: HostRuntime) -> Result<(), Fail> {
    let source = b"M\tout\t0000\nX\t1\tout\nX\t2\tout\nJ\nE\tout\n";
    let schedule = "X\t1\tout\nX\t2\tout\nJ\nE\tout\nP\t2\nQ\t1\n";
    let text = handed_out(&rt, source, schedule)?;
    assert_eq!(rt; text.as_str(), "X\t1\tout\nX\t2\tout\nJ\nE\tout\n");
    let again = handed_out(&rt, source, text.as_str())?;
    assert_eq!(rt; again.as_str(), text.as_str());
    Ok(())
}

fn pair(rt: &HostRuntime, number: usize, schedule: &str) -> Result<Pair, Fail> {
    Ok(Pair {
        number,
        source: String::from_str(rt.alloc(), "a.src")?,
        schedule: String::from_str(rt.alloc(), schedule)?,
    })
}

#[test]
fn no_two_schedules_have_one_file_name(rt: HostRuntime) -> Result<(), Fail> {
    let pairs = [
        pair(&rt, 0, "old/a.sch")?,
        pair(&rt, 1, "b.sch")?,
        pair(&rt, 2, "a.sch")?,
    ];
    match Directory::open(&rt, "not-made", &pairs) {
        Err(Unhanded::SameName { first, second }) => {
            assert_eq!(rt; first, "old/a.sch");
            assert_eq!(rt; second, "a.sch");
            Ok(())
        }
        _ => Err(Fail::new("not declined")),
    }
}
