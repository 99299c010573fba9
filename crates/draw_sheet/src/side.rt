// The map that stands beside the sheet.
ghost use Rattle.std.specs.Prelude.{◌≡◌, ◌++◌, ◌≤◌, IfOk, length};
ghost use Rattle.text.specs.Text.{ascii};
ghost use Rattle.text.specs.Lines.{refused_line};
ghost use Rattle.text.specs.Put.{Put};
ghost use Rattle.draw_sheet.specs.Map.{side_beside, side_most, SideShown, SideRead};

use crate::wish::MapWish;
use command::input::Input;
use command::program::{Program, Unread};
use mat_map::read_map;
use sheet_picture::count::most_of;
use text::line::put_refused_line;
use text::put::put_bytes;

// What stands beside the sheet.
// Nothing   there is no map
// Counts    a map's counts, the largest of which, at least 1, is this
// Refused   a map that is refused by this number
#[derive(Clone, Copy)]
pub enum Side {
    Nothing,
    Counts(u32),
    Refused(u32),
}

impl Side {
    // The number that sheet_picture has for it.
    pub fn beside(self) -> u32
        ensures { result ≡ side_beside self }
    {
        match self {
            Side::Nothing => 0,
            Side::Counts(_) => 1,
            Side::Refused(_) => 2,
        }
    }

    // The largest count, at least 1.
    pub fn most(self) -> u32
        ensures { result ≡ side_most self }
    {
        match self {
            Side::Counts(most) => most,
            _ => 1,
        }
    }

    // `map refused N` on standard error, where the map is.
    pub fn say(self, program: Program) {
        if let Side::Refused(number) = self {
            let mut line = [0u8; 160];
            let n = put_map_line(&mut line, number);
            program.say(&line[..n]);
        }
    }
}

// The counts go to `counts`. 46592 bytes are enough, whatever follows them (map_format, `read-enough`, `read_more`).
pub fn take_side(map: &Input, wish: MapWish, counts: &mut [u8]) -> Result<Side, Unread>
    requires { length counts.old ≡ 32768 }
    ensures { IfOk result (λ side. SideShown side counts.new) }
{
    let mut bytes = [0u8; 46592];
    let n = map.fill(&mut bytes)?;
    Ok(side_of(&bytes[..n], wish.group, wish.total, counts))
}

// By the map's bytes.
fn side_of(bytes: &[u8], group: u32, total: u64, counts: &mut [u8]) -> Side
    requires { length counts.old ≡ 32768 }
    ensures shown { SideShown result counts.new }
    ensures read { SideRead group bytes.now total counts.old result counts.new }
{
    let answer = read_map(group, bytes, total, counts);
    if answer.number != 0 {
        return Side::Refused(answer.number);
    }
    Side::Counts(most_of(counts))
}

fn put_map_line(out: &mut [u8], number: u32) -> usize
    requires { 160 ≤ length out.old }
    ensures put { Put out.old 0 (ascii "map " ++ refused_line number) result out.new }
    ensures most { result ≤ 160 }
{
    let next = put_bytes(out, 0, b"map ");
    put_refused_line(out, next, number)
}
