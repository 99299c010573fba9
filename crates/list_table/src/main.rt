// The table lister: prints the strings of each table in tree order, a line each, or `refused N`. What cannot be opened, read
// or written is said on standard error.
#![tactic(auto)]

mod list;
mod print;
mod sheet;

use command::program::Program;
use list::list_input;

const HELP: &[u8] = b"usage: list_table [FILE ...]

Lists the codewords of each table in tree order, or says by which rule it is
refused. With no FILE, and where FILE is -, it reads standard input.

  --help     prints this
  --version  prints the version
  --         ends the options
";

fn main(rt: HostRuntime) {
    let program = Program {
        rt,
        name: b"list_table",
        usage: b"",
        help: HELP,
    };
    if let Some(files) = program.files() {
        // where writing failed, standard error has said so
        let _ = program.list_each(files, |input| list_input(input));
    }
}
