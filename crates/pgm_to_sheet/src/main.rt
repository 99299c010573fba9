// Turns a picture, a binary PGM of heights, into a sheet: the table's record and a record for each row go to standard output, and one
// line on standard error says how it ended: `done rows N`, `refused N` of the table or the header, or `refused N at row K`. The front
// of the file, at most 65536 bytes, and one row are held at a time, and a record goes out as soon as it is known.
#![tactic(auto)]

mod convert;
mod files;
mod picture;
mod rest;
mod row;
mod rows;
mod table;
mod verdict;

use command::program::Program;
use files::take_words;

fn main(rt: HostRuntime) {
    let program = Program {
        rt,
        name: b"pgm_to_sheet",
        usage: b"--table TABLE",
        help: b"usage: pgm_to_sheet [--table TABLE] [FILE]

Turns a picture, a binary PGM whose largest value is 4095, into a sheet on
standard output, a row for each line of samples, numbered from 0. How it ended
is the last line on standard error: done rows N; refused N, where the table or
the header is refused; or refused N at row K, where the rows before that one
stand. With no FILE, and where FILE is -, it reads standard input.

  --table TABLE  packs the rows under the table in the file TABLE, else under
                 the plain table
  --help         prints this
  --version      prints the version
  --             ends the options
",
    };
    if program.is_asked_to_work() {
        take_words(program);
    }
}
