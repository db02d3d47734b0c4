/// The records of a text, by the letter that begins them.
#[derive(Clone, Copy)]
pub(crate) enum Letter {
    /// M: a label and its live mask.
    Declare,
    /// O
    Operate,
    /// I
    Literal,
    /// L
    Load,
    /// S
    Store,
    /// X
    Exit,
    /// J
    Join,
    /// E: the end label.
    End,
    /// P: heads the piece of an exit, in a schedule.
    ExitPiece,
    /// Q: heads the piece of a join, in a schedule.
    JoinPiece,
}
