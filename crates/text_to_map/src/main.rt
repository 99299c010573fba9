// Turns text into a map: the counts, in decimal, are read from the text, and the map goes to standard output when all are known. One
// line on standard error says how it ended: `done bytes N photons T` or `refused 14`. What is no text of counts is said there too.
#![tactic(auto)]

mod convert;
mod take;
mod verdict;
mod words;

use command::program::Program;
use words::convert_words;

fn main(rt: HostRuntime) {
    let program = Program {
        rt,
        name: b"text_to_map",
        usage: b"",
        help: b"usage: text_to_map GROUP [FILE]

Turns text into a pressure mat map on standard output: 16384 counts in decimal,
each at most 65535, with blanks, tabs, newlines or carriage returns between
them. A line that begins with done ends the text, so that what list_map prints
is taken. GROUP is the pixels of a group, 4 or 16. How it ended is the last line
on standard error: done bytes N photons T, or refused N. With no FILE, and where
FILE is -, it reads standard input.

  --help     prints this
  --version  prints the version
  --         ends the options
",
    };
    if let Some(words) = program.files() {
        convert_words(program, words);
    }
}
