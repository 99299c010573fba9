// What each line of a picture is told of it.
ghost use Rattle.std.specs.Prelude.{◌≤◌};

// width   the heights of a line
// count   how many lines there are
// pad     the height that stands where a row lacks one
#[derive(Clone, Copy)]
pub struct Frame {
    pub width: u32,
    pub count: u32,
    pub pad: u16,
    ghost narrow: { width ≤ 4096 },
    ghost low: { pad ≤ 4095 },
}
