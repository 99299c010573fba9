// Bytes from one slice to another.
ghost use Rattle.std.specs.Prelude.{◌≡◌, ◌++◌, ◌≤◌, length, take, drop};

// The first n bytes of `from` to the front of `to`. A loop: for the library's own copy the compiler calls memmove, which nothing
// else here needs.
pub fn copy(from: &[u8], n: usize, to: &mut [u8])
    requires n_in_bounds { n ≤ length from.now }
    requires n_in_bounds_2 { n ≤ length to.old }
    ensures { to.new ≡ take n from.now ++ drop n to.old }
{
    let part = &from[..n];
    for (i, b) in part.iter().enumerate() {
        to[i] = *b;
    }
}
