// The second pass: the picture, a row at a time.
ghost use Rattle.std.specs.Prelude.{◌≡◌, List, ◌+◌, ◌/◌, ◌≤◌, ◌<◌, eqb, length, take};
ghost use Rattle.bitstream.specs.Bits.{halves_of};
ghost use Rattle.sheet_format.specs.Sheet.{StoredRow, heights_of};
ghost use Rattle.png_format.specs.Crc.{CrcTable};
ghost use Rattle.sheet_picture.specs.View.{range_of, ViewFits, IndicesOf, heights_by};
ghost use Rattle.draw_sheet.specs.View.{ViewMade};
ghost use Rattle.draw_sheet.specs.Ahead.{least_in};
ghost use Rattle.draw_sheet.specs.Drawn.{RowPut};

use crate::advance::{Ahead, advance};
use crate::memory::Memory;
use crate::output::Output;
use crate::parts::RowsOut;
use crate::scene::Scene;
use command::input::Input;
use command::program::Stopped;
use png_writer::adler::{Sums, add_row, begin_sums};
use png_writer::crc::crc_table;
use png_writer::picture::{put_end, put_front, put_row};
use sheet_picture::colour::palette_bytes;
use sheet_picture::height::index_table;
use sheet_picture::row::put_picture_row;
use sheet_picture::size::{picture_height, picture_width};

// The bytes of a row's part of the picture, and the sums with that row.
#[derive(Clone, Copy)]
pub struct RowPart {
    pub count: usize,
    pub sums: Sums,
}

// `input` is the sheet, which stands at its start, and had so many rows when it was measured. Where reading or writing fails, which is
// said on standard error, the rest is not written.
pub fn draw_picture(
    input: &Input,
    rows: u64,
    output: &Output,
    scene: Scene,
    memory: &mut Memory,
) -> Result<(), Stopped>
    requires { ViewMade scene.view scene.counts.now }
{
    let view = scene.view;
    let crcs = crc_table();
    let indices = index_table(view.low, view.high);
    let n = put_front(
        &mut memory.out,
        picture_width(view),
        picture_height(view),
        &palette_bytes(),
        &crcs,
    );
    let front = RowsOut::print_front(output, scene, &memory.out[..n])?;
    draw_rows(input, rows, output, front, scene, &crcs, &indices, memory)
}

// The rows behind the front, and the end. `crcs` and `indices` are the tables of png_writer and sheet_picture. No contract can say that
// reading moves the input's next bytes, fewer than asked only at its end, nor which bytes were read before: that each part is of this
// sheet is this loop's and those of `advance`.
fn draw_rows(
    input: &Input,
    rows: u64,
    output: &Output,
    front: RowsOut,
    scene: Scene,
    crcs: &[u32],
    indices: &[u8],
    memory: &mut Memory,
) -> Result<(), Stopped>
    requires view_made { ViewMade scene.view scene.counts.now }
    requires crc_table { CrcTable crcs.now }
    requires indices_of { IndicesOf (range_of scene.view) indices.now }
    requires next_value { front.next ≡ 0 }
{
    let view = scene.view;
    let height = picture_height(view);
    let mut ahead = Ahead::none();
    let mut sums = begin_sums();
    let mut drawn = front;
    for y in 0..height {
        ahead = advance(input, memory, ahead, y / view.times)?;
        let part = put_part(
            scene,
            y,
            ahead,
            &memory.content,
            indices,
            crcs,
            &mut memory.out,
            sums,
        );
        let held = &memory.bytes[..ahead.held];
        drawn = drawn.print_row(output, scene, held, &memory.out[..part.count])?;
        sums = part.sums;
    }
    let n = put_end(&mut memory.out, sums, crcs);
    let ended = drawn.print_end(output, scene, &memory.out[..n]);
    say_changed(input, rows, ahead);
    Ok(ended?)
}

// Where the sheet had another number of rows when it was measured, that is said: the picture is of neither.
fn say_changed(input: &Input, rows: u64, ahead: Ahead) {
    if ahead.at.rows != rows {
        input.hint(b"the sheet is not what it was when it was read first");
    }
}

// Row y of the picture: its part of the file at the front of `out`.
fn put_part(
    scene: Scene,
    y: u32,
    ahead: Ahead,
    content: &[u8],
    indices: &[u8],
    crcs: &[u32],
    out: &mut [u8],
    sums: Sums,
) -> RowPart
    requires view_fits { ViewFits scene.view scene.counts.now }
    requires crc_table { CrcTable crcs.now }
    requires indices_of { IndicesOf (range_of scene.view) indices.now }
    requires y_bound { y < 4294967295 }
    requires count_in_bounds { ahead.count ≤ length content.now }
    requires in_bounds { 65536 ≤ length out.old }
    ensures within { result.count ≤ 65536 }
    ensures put { (ys : List StoredRow)
        → heights_of (y / scene.entry.view.times) ys
        ≡ heights_by (eqb (least_in ahead) (y / scene.entry.view.times + 1)) (halves_of (take ahead.count content.now))
        → RowPut scene.entry.view scene.entry.counts.now ys y sums result out.new }
{
    let view = scene.view;
    let there = ahead.ends_with(y / view.times);
    let pixels = &content[..ahead.count];
    let end = put_picture_row(out, view, y, there, pixels, indices, scene.counts);
    let sums = add_row(sums, &out[14..end]);
    let count = put_row(out, end - 14, crcs);
    RowPart { count, sums }
}
