// Lists a map: 128 lines of 128 counts and `done bits B`, or `refused N` alone. The map is held whole, and so is what is printed of
// it: it goes out at once.
#![tactic(auto)]

mod list;
mod words;

use command::program::Program;
use words::list_words;

fn main(rt: HostRuntime) {
    let program = Program {
        rt,
        name: b"list_map",
        usage: b"",
        help: b"usage: list_map GROUP TOTAL [FILE]

Lists the counts of a pressure mat map, 128 lines of 128, and says at the end
how many bits they took, or by which rule the map is refused. GROUP is the
pixels of a group, 4 or 16; TOTAL is the photons that the map is to have. With
no FILE, and where FILE is -, it reads standard input.

  --help     prints this
  --version  prints the version
  --         ends the options
",
    };
    if let Some(words) = program.files() {
        list_words(program, words);
    }
}
