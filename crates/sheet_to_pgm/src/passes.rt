// The two passes over a sheet.
ghost use Rattle.std.specs.Prelude.{◌≤◌};
ghost use Rattle.sheet_to_pgm.specs.Written.{pad_height};

use crate::judge::judge_sheet;
use crate::memory::Memory;
use crate::picture::write_picture;
use crate::reason::{NoPicture, check_shape};
use command::input::Input;
use sheet_stream::twice::{again, place, twice};

// What cannot be read twice is copied first. `pads` is the height that stands where a row lacks one; with none, such a row is at
// fault.
pub fn write_pgm(input: Input, pads: Option<u16>)
    requires { pad_height pads ≤ 4095 }
{
    if let Some(sheet) = twice(input) {
        let mut memory = Memory {
            bytes: [0u8; 32778],
            table: [0u8; 32772],
            content: [0u8; 16384],
            line: [0u8; 8192],
        };
        let _ = write_passes(&sheet, pads, &mut memory);
    }
}

fn write_passes(input: &Input, pads: Option<u16>, memory: &mut Memory) -> Result<(), NoPicture>
    requires { pad_height pads ≤ 4095 }
{
    let start = place(input);
    let shape = judge_sheet(input, memory)?;
    check_shape(input, pads, shape)?;
    again(input, start)?;
    write_picture(input, pads, shape.width, shape.count, memory)
}
