// The words of a command line: a height for what is missing, and one file at most.
ghost use Rattle.std.specs.Prelude.{◌≤◌};
ghost use Rattle.sheet_to_pgm.specs.Written.{pad_height};

use crate::passes::write_pgm;
use command::input::Input;
use command::program::Program;

pub fn write_words(program: Program) {
    if let Some(i) = program.word_place(1) {
        program.refuse_at(i, b"only one file is taken");
        program.say_help();
        return;
    }
    let Some(i) = program.value_of(b"--pad") else {
        write_input(program, None);
        return;
    };
    let Some(height) = program.number_at(i, 4095, b"H is to be a decimal number from 0 to 4095")
    else {
        program.say_help();
        return;
    };
    write_input(program, Some(height as u16));
}

fn write_input(program: Program, pads: Option<u16>)
    requires { pad_height pads ≤ 4095 }
{
    let Some(i) = program.word_place(0) else {
        write_file(program, b"-", pads);
        return;
    };
    let mut word = [0u8; 4096];
    let n = program.word_at(i, &mut word);
    write_file(program, &word[..n], pads);
}

fn write_file(program: Program, name: &[u8], pads: Option<u16>)
    requires { pad_height pads ≤ 4095 }
{
    if let Some(input) = Input::open(program, name) {
        write_pgm(input, pads);
    }
}
