/// Why a row was not put in: a size would be passed.
#[derive(Clone, Copy, PartialEq, Eq, Debug)]
pub struct Full;
