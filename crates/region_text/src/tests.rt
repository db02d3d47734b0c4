use crate::{Fault, Layer, Refusal, read_schedule, read_source};
use region::{Action, LabelRow, Name, Piece, Row};
use std::test::Fail;

/// Whether an answer is a refusal with that fault, there.
fn is_refusal<D: Drop>(
    answer: Result<D, Refusal>,
    fault: Fault,
    line: usize,
    field: usize,
    layer: Layer,
) -> bool {
    answer.err()
        == Some(Refusal {
            fault,
            line,
            field,
            layer,
        })
}

/// Whether a source is refused so.
fn is_refused(text: &[u8], fault: Fault, line: usize, field: usize, layer: Layer) -> bool {
    is_refusal(read_source(text), fault, line, field, layer)
}

#[test]
fn a_source_is_read(rt: HostRuntime) -> Result<(), Fail> {
    let Ok(draft) = read_source(
        b"M\tloop\t000f\nI\t1\t65535\nO\t0\t2\t1\t1\nX\t2\tloop\nJ\nE\tloop\n",
    ) else {
        return Err(Fail::new("refused"));
    };
    assert_eq!(rt; draft.labels[0].live, 15);
    assert_eq!(rt; draft.shape.rows(), 4);
    assert_eq!(rt; draft.shape.joins(), 1);
    assert_eq!(rt; draft.shape.end().get(), 0);
    Ok(())
}

#[test]
fn an_empty_text_has_no_end(rt: HostRuntime) {
    assert!(rt; is_refused(b"", Fault::OutOfPlace, 1, 0, Layer::Shelf));
}

#[test]
fn fields_are_refused_from_the_left(rt: HostRuntime) {
    assert!(rt; is_refused(b"M\ta\t000F\n", Fault::Malformed, 1, 3, Layer::Field));
    assert!(rt;
        is_refused(
            b"M\ta\t0000\nI\t16\t01\n",
            Fault::OutOfRange,
            2,
            2,
            Layer::Field,
        )
    );
    assert!(rt; is_refused(b"M\ta\t0000\nM\ta\tf\n", Fault::Label, 2, 2, Layer::Field));
    assert!(rt; is_refused(b"J\nM\ta\n", Fault::OutOfPlace, 1, 0, Layer::Line));
}

#[test]
fn a_fifth_join_is_refused_at_its_line(rt: HostRuntime) {
    assert!(rt;
        is_refused(
            b"M\ta\t0000\nJ\nJ\nJ\nJ\nJ\nE\ta\n",
            Fault::TooMany,
            6,
            0,
            Layer::Line,
        )
    );
}

/// The label rows of a region that has the label a, the second of them.
fn second_a() -> [LabelRow; 2] {
    [
        LabelRow::unused(),
        LabelRow {
            name: Name::new(b"a"),
            live: 0,
        },
    ]
}

/// Whether a schedule is refused so.
fn is_schedule_refused(text: &[u8], fault: Fault, line: usize, field: usize, layer: Layer) -> bool {
    is_refusal(read_schedule(&second_a(), text), fault, line, field, layer)
}

/// The literal of a row, or 0.
fn literal(row: Row) -> u16 {
    match row {
        Row::Act(Action::Literal { to: _, value }) => value,
        _ => 0,
    }
}

#[test]
fn a_schedule_is_read(rt: HostRuntime) -> Result<(), Fail> {
    let Ok(draft) = read_schedule(
        &second_a(),
        b"X\t2\ta\nJ\nX\t3\ta\nE\ta\nP\t2\nI\t1\t7\nQ\t1\nI\t1\t9\n",
    ) else {
        return Err(Fail::new("refused"));
    };
    assert_eq!(rt; literal(draft.rows[96 + 16]), 7);
    assert_eq!(rt; literal(draft.rows[224]), 9);
    assert_eq!(rt; draft.shape.rows(), 3);
    assert_eq!(rt; draft.shape.piece_rows(Piece::OfExit(1)), 1);
    assert_eq!(rt; draft.shape.piece_rows(Piece::OfJoin(0)), 1);
    assert_eq!(rt; draft.shape.end().get(), 1);
    Ok(())
}

#[test]
fn heads_of_pieces_rise(rt: HostRuntime) {
    assert!(rt;
        is_schedule_refused(
            b"X\t2\ta\nE\ta\nP\t0\n",
            Fault::OutOfRange,
            3,
            2,
            Layer::Field,
        )
    );
    assert!(rt;
        is_schedule_refused(
            b"X\t2\ta\nE\ta\nP\t1\nP\t1\n",
            Fault::OutOfPlace,
            4,
            0,
            Layer::Line,
        )
    );
    assert!(rt;
        is_schedule_refused(
            b"J\nE\ta\nQ\t1\nP\t7\n",
            Fault::OutOfPlace,
            4,
            0,
            Layer::Line,
        )
    );
}

#[test]
fn a_schedule_names_declared_labels(rt: HostRuntime) {
    assert!(rt; is_schedule_refused(b"E\tb\n", Fault::Label, 1, 2, Layer::Field));
    assert!(rt; is_schedule_refused(b"J\n", Fault::OutOfPlace, 2, 0, Layer::Shelf));
}
