// A sheet's heights as text, a line a row. A sheet may have any length: one record is held at a time, and its line goes out as soon
// as it is known; how the sheet ends is said on standard error.
#![tactic(auto)]

mod line;
mod memory;
mod range;
mod records;
mod words;

use command::program::Program;
use words::write_words;

fn main(rt: HostRuntime) {
    let program = Program {
        rt,
        name: b"sheet_to_text",
        usage: b"--rows A-B",
        help: b"usage: sheet_to_text [--rows A-B] [FILE]

Writes the heights of a sheet, a line a row: the row's number and then its
heights. How the sheet ends is said on standard error: how many rows there are,
or at which record, in a packed row at which bit, and by which rule it is
refused; the rows before that stand. With no FILE, and where FILE is -, it reads
standard input.

  --rows A-B  only the rows with numbers from A to B
  --help      prints this
  --version   prints the version
  --          ends the options
",
    };
    if program.is_asked_to_work() {
        write_words(program);
    }
}
