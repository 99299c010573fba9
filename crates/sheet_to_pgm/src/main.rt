// A sheet's heights as a binary PGM. The sheet is read twice: first it is judged and its rows are measured, then they are written, a
// row at a time; how it ends is said on standard error.
#![tactic(auto)]

mod frame;
mod judge;
mod lines;
mod memory;
mod pads;
mod passes;
mod picture;
mod reason;
mod rows;
mod shape;
mod words;

use command::program::Program;
use words::write_words;

fn main(rt: HostRuntime) {
    let program = Program {
        rt,
        name: b"sheet_to_pgm",
        usage: b"--pad H",
        help: b"usage: sheet_to_pgm [--pad H] [FILE]

Writes the heights of a sheet as a binary PGM, a line of samples a row, two
bytes a sample and 4095 the largest value. Every row from 0 to the last is to be
there, and all rows are to have one length. How the sheet ends is said on
standard error; of a sheet that is refused there is no picture. With no FILE,
and where FILE is -, it reads standard input; what cannot be read twice is first
copied to a file in /tmp.

  --pad H    fills in H, 0 to 4095, for missing rows and for what a row lacks
  --help     prints this
  --version  prints the version
  --         ends the options
",
    };
    if program.is_asked_to_work() {
        write_words(program);
    }
}
