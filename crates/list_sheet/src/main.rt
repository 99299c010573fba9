// Lists sheets: of each a line for each record, then `done rows N` or `refused N at record K`, with `bit B` where a packed row
// cannot be read. A sheet may have any length: one record is held at a time, and its line goes out as soon as it is known.
#![tactic(auto)]

mod list;
mod turn;

use command::program::Program;
use list::list_input;

const HELP: &[u8] = b"usage: list_sheet [FILE ...]

Lists the records of each sheet, a line each, and says at the end how many rows
there are, or at which record, in a packed row at which bit, and by which rule
it is refused. With no FILE, and where FILE is -, it reads standard input.

  --help     prints this
  --version  prints the version
  --         ends the options
";

fn main(rt: HostRuntime) {
    let program = Program {
        rt,
        name: b"list_sheet",
        usage: b"",
        help: HELP,
    };
    if let Some(files) = program.files() {
        // where writing failed, standard error has said so
        let _ = program.list_each(files, |input| list_input(input));
    }
}
