// Numbers put into an array from a place on, and rows of numbers read from one.
ghost use Rattle.std.specs.Prelude.{◌≡◌, ◌+◌, ◌≤◌, ◌++◌, drop, length, take};

// Puts a row of numbers from a place on.
pub(crate) fn put_row<T: Copy>(to: &mut [T], at: usize, row: &[T])
    requires { at + length row.now ≤ length to.old }
    ensures { to.new ≡ take at to.old ++ row.now ++ drop (at + length row.now) to.old }
{
    to[at..at + row.len()].copy_from_slice(row);
}

// A row of N numbers; `none` stands in it until they are copied.
pub(crate) fn row_at<T: Copy, const N: usize>(from: &[T], at: usize, none: T) -> [T; N]
    requires { at + N ≤ length from.now }
    ensures { result ≡ take N (drop at from.now) }
{
    let mut row = [none; N];
    row.copy_from_slice(&from[at..at + N]);
    row
}
