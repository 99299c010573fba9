// Turns a scan, a FITS image, into a sheet: the plain table's record and a record for each row go to standard output, and
// one line on standard error says how it ended: `done rows N`, `refused N` of the header, or `refused N at row K`. The header
// and one row are held at a time, and a record goes out as soon as it is known.
#![tactic(auto)]

mod convert;
mod header;
mod rows;
mod scan;
mod verdict;

use command::files::Files;
use command::program::Program;
use convert::convert_input;

fn main(rt: HostRuntime) {
    let program = Program {
        rt,
        name: b"fits_to_sheet",
        usage: b"",
        help: b"usage: fits_to_sheet [FILE]

Turns a scan, a FITS image of two axes and 16-bit pixels from 0 to 4095, into a
sheet on standard output, a row at a time. How it ended is the last line on
standard error: done rows N; refused N, where the header is refused; or
refused N at row K, where the rows before that one stand. With no FILE, and
where FILE is -, it reads standard input.

  --help     prints this
  --version  prints the version
  --         ends the options
",
    };
    if let Some(files) = program.files() {
        convert_files(program, files);
    }
}

// A sheet holds one image.
fn convert_files(program: Program, files: Files) {
    if program.takes_one(files, 0) {
        program.with_input(files.word(0), |input| convert_input(input));
    }
}
