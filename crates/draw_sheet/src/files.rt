// The files of a command line: the map is read whole, then the sheet is opened.
ghost use Rattle.std.specs.Prelude.{◌≡◌, ◌≤◌, ◌<◌, IfOk, length};
ghost use Rattle.draw_sheet.specs.Map.{SideShown};

use crate::output::{NoPicture, is_terminal};
use crate::passes::draw_sheet;
use crate::side::{Side, take_side};
use crate::wish::Wish;
use command::input::{Input, Source};
use command::program::Program;
use sheet_stream::twice::twice;

// What was read of the map that is asked for.
// side   what stands beside the sheet
// file   the map, where there is one
#[derive(Drop)]
pub struct MapRead {
    pub side: Side,
    pub file: Option<Source>,
}

pub fn draw_files(program: Program, wish: Wish) {
    if wish.out.is_none() && is_terminal(program) {
        return;
    }
    let _ = draw_named(program, wish);
}

// 32768 bytes hold the counts of a map. What cannot be read twice is copied first.
fn draw_named(program: Program, wish: Wish) -> Result<(), NoPicture> {
    let mut counts = [0u8; 32768];
    let map = open_side(program, wish, &mut counts)?;
    let mut word = [0u8; 4096];
    let n = name_at(program, wish.sheet, &mut word);
    let input = Input::open(program, &word[..n]).ok_or(NoPicture)?;
    let sheet = twice(input).ok_or(NoPicture)?;
    draw_sheet(&sheet, wish, map.side, &map.file, &counts)
}

fn open_side(program: Program, wish: Wish, counts: &mut [u8]) -> Result<MapRead, NoPicture>
    requires { length counts.old ≡ 32768 }
    ensures { IfOk result (λ map. SideShown map.side counts.new) }
{
    let Some(map) = wish.map else {
        return Ok(MapRead {
            side: Side::Nothing,
            file: None,
        });
    };
    let mut word = [0u8; 4096];
    let n = program.word_at(map.name, &mut word);
    let input = Input::open(program, &word[..n]).ok_or(NoPicture)?;
    let side = take_side(&input, map, counts)?;
    Ok(MapRead {
        side,
        file: Some(input.source),
    })
}

// The word at a place, at the front of `word`; `-`, standard input, where there is none.
fn name_at(program: Program, place: Option<usize>, word: &mut [u8]) -> usize
    requires { 0 < length word.old }
    ensures { result ≤ length word.new }
{
    match place {
        Some(i) => program.word_at(i, word),
        None => {
            word[0] = b'-';
            1
        }
    }
}
