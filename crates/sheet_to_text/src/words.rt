// The words of a command line: which rows, and one file at most.
use crate::range::RowRange;
use crate::records::write_text;
use command::program::Program;

pub fn write_words(program: Program) {
    if let Some(i) = program.word_place(1) {
        program.refuse_at(i, b"only one file is taken");
        program.say_help();
        return;
    }
    if let Some(range) = range_asked(program) {
        program.with_input(program.word_place(0), |input| write_text(input, range));
    }
}

// The rows that are asked for, which are all where no range is given. Where there is none in what is given, that is said, and the
// usage with it.
fn range_asked(program: Program) -> Option<RowRange> {
    let Some(i) = program.value_of(b"--rows") else {
        return Some(RowRange {
            first: 0,
            last: 65535,
        });
    };
    let mut word = [0u8; 4096];
    let n = program.word_at(i, &mut word);
    let range = RowRange::read(&word[..n]);
    if range.is_none() {
        program.refuse_at(
            i,
            b"A-B is to be two decimal numbers of at most 65535, the second not below the first",
        );
        program.say_help();
    }
    range
}
