// The two passes over a sheet.
ghost use Rattle.draw_sheet.specs.Map.{SideShown};
ghost use Rattle.draw_sheet.specs.Measure.{Measures};
ghost use Rattle.draw_sheet.specs.View.{ViewMade};

use crate::draw::draw_picture;
use crate::measure::measure;
use crate::measured::Measured;
use crate::memory::Memory;
use crate::output::{NoPicture, Output, open_picture, standard_output};
use crate::scene::Scene;
use crate::side::Side;
use crate::wish::Wish;
use command::input::{Input, Source};
use sheet_picture::View;
use sheet_stream::twice::{again, place};

// The sheet can be read twice. `map` is the map, where there is one, and the counts are its.
pub fn draw_sheet(
    input: &Input,
    wish: Wish,
    side: Side,
    map: &Option<Source>,
    counts: &[u8],
) -> Result<(), NoPicture>
    requires { SideShown side counts.now }
{
    let mut memory = Memory {
        bytes: [0u8; 32778],
        table: [0u8; 32772],
        content: [0u8; 16384],
        out: [0u8; 65536],
    };
    let start = place(input);
    let measured = measure(input, &mut memory)?;
    side.say(input.program);
    let scene = scene_of(wish, side, measured, counts);
    second_pass(
        input,
        start,
        measured.rows,
        wish.out,
        map,
        scene,
        &mut memory,
    )
}

fn scene_of<'a>(wish: Wish, side: Side, measured: Measured, counts: &'a [u8]) -> Scene<'a>
    requires side_shown { SideShown side counts.now }
    requires measures { Measures measured.width measured.height }
    ensures { ViewMade result.view result.counts.now }
{
    Scene {
        view: View {
            times: wish.times,
            low: wish.grey.low,
            high: wish.grey.high,
            beside: side.beside(),
            most: side.most(),
            width: measured.width,
            height: measured.height,
        },
        counts,
    }
}

// start is the place of the sheet's first byte, `rows` how many rows were read from there, and `out` the place of the name of a file,
// which is made or overwritten.
fn second_pass(
    input: &Input,
    start: u64,
    rows: u64,
    out: Option<usize>,
    map: &Option<Source>,
    scene: Scene,
    memory: &mut Memory,
) -> Result<(), NoPicture>
    requires { ViewMade scene.view scene.counts.now }
{
    let Some(i) = out else {
        let output = standard_output(input.program);
        return draw_again(input, start, rows, &output, scene, memory);
    };
    let mut word = [0u8; 4096];
    let n = input.program.word_at(i, &mut word);
    let output = open_picture(input.program, &word[..n], input, map)?;
    draw_again(input, start, rows, &output, scene, memory)
}

fn draw_again(
    input: &Input,
    start: u64,
    rows: u64,
    output: &Output,
    scene: Scene,
    memory: &mut Memory,
) -> Result<(), NoPicture>
    requires { ViewMade scene.view scene.counts.now }
{
    again(input, start)?;
    Ok(draw_picture(input, rows, output, scene, memory)?)
}
