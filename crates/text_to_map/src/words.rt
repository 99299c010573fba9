// The words of a command line: a group size and one file at most.
use crate::convert::convert_input;
use command::files::Files;
use command::program::Program;

pub fn convert_words(program: Program, words: Files) {
    if words.count() < 1 {
        program.refuse_use(b"GROUP", b"missing");
        return;
    }
    if !program.takes_one(words, 1) {
        return;
    }
    match read_group(program, words) {
        Some(group) => program.with_input(words.word(1), |input| convert_input(input, group)),
        None => program.say_help(),
    }
}

fn read_group(program: Program, words: Files) -> Option<u32> {
    let group = program.number_at(
        words.place_of(0),
        4294967295,
        b"GROUP is to be a decimal number of at most 32 bits",
    )?;
    Some(group as u32)
}
