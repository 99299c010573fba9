// The second pass: the picture, a row at a time.
ghost use Rattle.std.specs.Prelude.{◌≡◌, ◌≤◌};
ghost use Rattle.sheet_to_pgm.specs.Written.{pad_height, PictureFound, PictureFront};

use crate::frame::Frame;
use crate::memory::Memory;
use crate::reason::NoPicture;
use crate::rows::write_rows;
use command::input::Input;
use command::program::{Program, Unwritten};
use pgm_reader::put::put_pgm_header;

pub fn write_picture(
    input: &Input,
    pads: Option<u16>,
    width: u32,
    count: u32,
    memory: &mut Memory,
) -> Result<(), NoPicture>
    requires pads_bound { pad_height pads ≤ 4095 }
    requires picture_found { PictureFound pads width count }
{
    let n = put_pgm_header(&mut memory.line, width, count);
    print_front(input.program, pads, width, count, &memory.line[..n])?;
    write_rows(input, frame_of(pads, width, count), memory)
}

fn frame_of(pads: Option<u16>, width: u32, count: u32) -> Frame
    requires pads_bound { pad_height pads ≤ 4095 }
    requires picture_found { PictureFound pads width count }
    ensures { result.pad ≡ pad_height pads }
{
    Frame {
        width,
        count,
        pad: pads.unwrap_or(0),
    }
}

// Nothing else goes out before the lines.
fn print_front(
    program: Program,
    pads: Option<u16>,
    width: u32,
    count: u32,
    text: &[u8],
) -> Result<(), Unwritten>
    requires { PictureFront pads width count text.now }
{
    program.print(text)
}
