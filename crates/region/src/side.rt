/// Which of the two lines of a region: the source, or the schedule that was made of it.
#[derive(Clone, Copy)]
pub enum Side {
    Source,
    Schedule,
}
