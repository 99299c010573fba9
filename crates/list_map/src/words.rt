// The words of a command line: a group size, a total and one file at most.
use crate::list::list_input;
use command::files::Files;
use command::program::Program;

pub fn list_words(program: Program, words: Files) {
    if words.count() < 2 {
        program.refuse_use(b"GROUP and TOTAL", b"both are needed");
        return;
    }
    if !program.takes_one(words, 2) {
        return;
    }
    match read_numbers(program, words) {
        Some((group, total)) => {
            program.with_input(words.word(2), |input| list_input(input, group, total));
        }
        None => program.say_help(),
    }
}

fn read_numbers(program: Program, words: Files) -> Option<(u32, u64)> {
    let group = program.number_at(
        words.place_of(0),
        4294967295,
        b"GROUP is to be a decimal number of at most 32 bits",
    )?;
    let total = program.number_at(
        words.place_of(1),
        u64::MAX,
        b"TOTAL is to be a decimal number of at most 64 bits",
    )?;
    Some((group as u32, total))
}
