// The words of a command line, as numbers.
use crate::files::draw_files;
use crate::wish::{Grey, MapWish, Wish};
use command::program::Program;

// A word is not as it should be; standard error has said which.
#[derive(Clone, Copy)]
pub struct WrongWord;

// Where a word is not as it should be, that is said, and the usage with it.
pub fn draw_words(program: Program) {
    if let Some(i) = program.word_place(1) {
        program.refuse_at(i, b"only one file is taken");
        program.say_help();
        return;
    }
    match read_wish(program) {
        Ok(wish) => draw_files(program, wish),
        Err(_) => program.say_help(),
    }
}

fn read_wish(program: Program) -> Result<Wish, WrongWord> {
    let times = program.option_number(
        b"--times",
        1,
        15,
        1,
        b"K is to be a decimal number from 1 to 15",
    );
    let Some(times) = times else {
        return Err(WrongWord);
    };
    // both are read before either decides, so that what is wrong with each is said
    let grey = read_grey(program);
    let map = read_map_words(program);
    Ok(Wish {
        times: times as u32,
        grey: grey?,
        sheet: program.word_place(0),
        out: out_place(program),
        map: map?,
    })
}

// `-` is standard output.
fn out_place(program: Program) -> Option<usize> {
    let place = program.value_of(b"-o");
    if program.is_input(place) {
        return None;
    }
    place
}

// All heights where no range is given.
fn read_grey(program: Program) -> Result<Grey, WrongWord> {
    let Some(i) = program.value_of(b"--range") else {
        return Ok(Grey { low: 0, high: 4093 });
    };
    let low = program.number_from(i, 0, 4093, b"LOW is to be a decimal number from 0 to 4093");
    let Some(low) = low else {
        return Err(WrongWord);
    };
    let high = program.number_from(
        i.saturating_add(1),
        low,
        4093,
        b"HIGH is to be a decimal number from LOW to 4093",
    );
    let Some(high) = high else {
        return Err(WrongWord);
    };
    Ok(Grey {
        low: low as u32,
        high: high as u32,
    })
}

// The map, where one is asked for: all that it takes, or nothing.
fn read_map_words(program: Program) -> Result<Option<MapWish>, WrongWord> {
    let name = program.value_of(b"--map");
    let group = program.value_of(b"--group");
    let total = program.value_of(b"--total");
    if name.is_none() && group.is_none() && total.is_none() {
        return Ok(None);
    }
    let (Some(name), Some(group), Some(total)) = (name, group, total) else {
        program.hint(b"--map, --group and --total", b"all three are needed");
        return Err(WrongWord);
    };
    if program.is_input(Some(name)) && program.is_input(program.word_place(0)) {
        program.hint(
            b"standard input",
            b"the sheet and the map cannot both come from it",
        );
        return Err(WrongWord);
    }
    Ok(Some(read_map_numbers(program, name, group, total)?))
}

// The numbers, by their places.
fn read_map_numbers(
    program: Program,
    name: usize,
    group: usize,
    total: usize,
) -> Result<MapWish, WrongWord> {
    let group = program.number_from(
        group,
        0,
        4294967295,
        b"G is to be a decimal number of at most 32 bits",
    );
    let Some(group) = group else {
        return Err(WrongWord);
    };
    let total = program.number_from(
        total,
        0,
        u64::MAX,
        b"N is to be a decimal number of at most 64 bits",
    );
    let Some(total) = total else {
        return Err(WrongWord);
    };
    Ok(MapWish {
        name,
        group: group as u32,
        total,
    })
}
