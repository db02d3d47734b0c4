// Where a reader of lines stands.
ghost use Rattle.std.specs.Prelude.{◌+◌, ◌^◌, ◌<◌, length};

/// A line without its LF, whether it had one, and its number.
#[derive(Clone, Copy)]
pub(crate) struct Line<'a> {
    pub(crate) bytes: &'a [u8],
    // A flag: a last line without its LF has fields all the same, and is refused with its form.
    pub(crate) ended: bool,
    pub(crate) number: usize,
}

/// What is left of a text, and the number of its next line, which never wraps.
#[derive(Drop)]
pub(crate) struct Lines<'a> {
    pub(crate) rest: &'a [u8],
    pub(crate) number: usize,
    ghost counted: { number + length rest.now < 2 ^ 64 },
}
