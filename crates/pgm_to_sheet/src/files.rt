// The files of a command line: the picture, one at most, and the table.
ghost use Rattle.std.specs.Prelude.{◌≤◌, length};

use crate::convert::convert_input;
use crate::table::fill_table;
use command::program::Program;

// The picture and the table cannot both come from standard input.
pub fn take_words(program: Program) {
    let table = program.value_of(b"--table");
    if table.is_some() && program.is_input(table) && program.is_input(program.word_place(0)) {
        program.refuse_use(
            b"standard input",
            b"the picture and the table cannot both come from it",
        );
        return;
    }
    if let Some(second) = program.word_place(1) {
        program.refuse_at(second, b"only one file is taken");
        program.say_help();
        return;
    }
    convert_words(program, table);
}

fn convert_words(program: Program, table: Option<usize>) {
    let mut bytes = [0u8; 32773];
    if let Some(n) = fill_table(program, table, &mut bytes) {
        convert_under(program, &bytes[..n]);
    }
}

// Under these bytes of a table.
fn convert_under(program: Program, table: &[u8])
    requires { length table.now ≤ 32773 }
{
    program.with_input(program.word_place(0), |input| convert_input(input, table));
}
