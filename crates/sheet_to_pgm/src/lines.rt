// The lines of a picture, as they go out.
ghost use Rattle.std.specs.Prelude.{◌≡◌, ◌+◌, ◌<◌, IfOk};
ghost use Rattle.sheet_to_pgm.specs.Written.{LineWritten};

use crate::frame::Frame;
use command::program::{Program, Unwritten};

// The lines that went out. Only this module makes one, so that no line is passed over.
// next   the number of the line that comes next
#[derive(Clone, Copy)]
pub struct Lines {
    next: u32,
}

impl Lines {
    pub fn none() -> Lines
        ensures { result.next ≡ 0 }
    {
        Lines { next: 0 }
    }

    // How many they are.
    pub fn count(self) -> u32
        ensures { result ≡ self.next }
    {
        self.next
    }

    // Writes the line that comes next; no line goes out by another way. `held`, the bytes that were read last, say with those before
    // them what it must be; nothing else is done with them.
    pub fn print(
        self,
        program: Program,
        frame: Frame,
        held: &[u8],
        text: &[u8],
    ) -> Result<Lines, Unwritten>
        requires next_bound { self.next < 65536 }
        requires line_written { LineWritten frame.pad frame.width self.next held.now text.now }
        ensures { IfOk result (λ lines. lines.next ≡ self.next + 1) }
    {
        program.print(text)?;
        Ok(Lines {
            next: self.next + 1,
        })
    }
}
