// What the first pass comes to.
ghost use Rattle.std.specs.Prelude.{◌≤◌};

// width, height   the extent of the sheet, in heights
// rows            how many rows it has before its end or its fault
#[derive(Clone, Copy)]
pub struct Measured {
    pub width: u32,
    pub height: u32,
    pub rows: u64,
    ghost narrow: { width ≤ 4096 },
    ghost low: { height ≤ 65552 },
}
