// One sample so many times.
ghost use Rattle.std.specs.Prelude.{◌+◌, ◌≤◌, length, replicate};
ghost use Rattle.text.specs.Put.{Put};

pub fn put_run(out: &mut [u8], at: usize, sample: u8, n: usize) -> usize
    requires { at + n ≤ length out.old }
    ensures { Put out.old at (replicate n sample) result out.new }
{
    out[at..at + n].fill(sample);
    at + n
}
