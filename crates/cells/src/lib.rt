// A place of a slice, read or written whether it is there or not, and a copy of as much as there is room for.
#![tactic(auto)]

ghost use Rattle.std.specs.Prelude.{◌≡◌, ◌++◌, length, take, drop, get_or, set};

// What stands at a place; something else past the end.
pub fn at<T: Copy>(cells: &[T], at: usize, rest: T) -> T
    ensures { result ≡ get_or cells.now at rest }
{
    if at < cells.len() { cells[at] } else { rest }
}

// Stores at a place; nothing past the end.
pub fn put<T: Copy>(cells: &mut [T], place: usize, cell: T)
    ensures { cells.new ≡ set cells.old place cell }
{
    if cells.len() <= place {
        return;
    }
    cells[place] = cell;
}

// Copies a slice to the front of another: what finds no place is left out, and what stands behind it stays. By a loop, since std's
// `copy_from_slice` would have a host in C bring `memmove`, which the library needs nowhere else.
pub fn copy<T: Copy>(from: &[T], to: &mut [T])
    ensures { to.new ≡ take (length to.old) from.now ++ drop (length from.now) to.old }
{
    for i in 0..from.len().min(to.len()) {
        to[i] = from[i];
    }
}
