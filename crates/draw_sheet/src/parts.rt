// The parts of the picture, as they go out: the front, the rows in the order of their numbers, the end.
ghost use Rattle.std.specs.Prelude.{◌≡◌, ◌+◌, ◌<◌, IfOk};
ghost use Rattle.draw_sheet.specs.Drawn.{height_drawn, FrontOut, RowOut, EndOut};

use crate::output::Output;
use crate::scene::Scene;
use command::program::Unwritten;

// The rows that went out, behind a front. Only this module makes one, so that no row is passed over.
// next   the number of the row that comes next
#[derive(Clone, Copy)]
pub struct RowsOut {
    next: u32,
}

// Each writes a part of the picture; nothing else goes out. The scene, the row's number and `held`, the bytes of the record that was
// read last, say what the part must be; nothing else is done with them.
impl RowsOut {
    pub fn print_front(output: &Output, scene: Scene, part: &[u8]) -> Result<RowsOut, Unwritten>
        requires { FrontOut scene.view scene.counts.now part.now }
        ensures { IfOk result (λ rows. rows.next ≡ 0) }
    {
        output.print(part)?;
        Ok(RowsOut { next: 0 })
    }

    pub fn print_row(
        self,
        output: &Output,
        scene: Scene,
        held: &[u8],
        part: &[u8],
    ) -> Result<RowsOut, Unwritten>
        requires next_bound { self.next < 4294967295 }
        requires row_out { RowOut scene.view scene.counts.now self.next held.now part.now }
        ensures { IfOk result (λ rows. rows.next ≡ self.next + 1) }
    {
        output.print(part)?;
        Ok(RowsOut {
            next: self.next + 1,
        })
    }

    pub fn print_end(self, output: &Output, scene: Scene, part: &[u8]) -> Result<(), Unwritten>
        requires next_value { self.next ≡ height_drawn scene.view scene.counts.now }
        requires end_out { EndOut scene.view scene.counts.now part.now }
    {
        output.print(part)
    }
}
