// Parts of the lent rows and labels.
ghost use Rattle.std.specs.Prelude.{◌≡◌, ◌+◌, ◌≤◌, length};
ghost use Rattle.shelf.specs.Store.{part, written};

// So many elements from a place on.
pub(crate) fn part_at<T>(all: &[T], at: usize, count: usize) -> &[T]
    requires { at + count ≤ length all.now }
    ensures { result.now ≡ part at count all.now }
{
    &all[at..at + count]
}

// Writes new over what lies there.
pub(crate) fn write_at<T: Copy>(all: &mut [T], at: usize, new: &[T])
    requires { at + length new.now ≤ length all.old }
    ensures { all.new ≡ written at new.now all.old }
{
    all[at..at + new.len()].copy_from_slice(new);
}
