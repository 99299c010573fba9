// The verdict: how the conversion of a picture ended.
ghost use Rattle.pgm_to_sheet.specs.Picture.{PictureEnded, PictureVerdict};

use command::program::Program;
use fits_reader::verdict::put_verdict;

// Says the verdict of a conversion that ended so; `held` is the bytes that it held last, of a row that is refused.
pub fn end(
    program: Program,
    table: &[u8],
    front: &[u8],
    held: &[u8],
    number: u32,
    fault: u32,
    rows: u64,
)
    requires { PictureEnded table.now front.now held.now number fault rows }
{
    let mut line = [0u8; 128];
    let n = put_verdict(&mut line, number, fault, rows);
    say_verdict(program, table, front, held, &line[..n]);
}

// Writes the verdict to standard error; nothing else goes there but complaints and hints. The other three say what the line must be;
// nothing else is done with them.
fn say_verdict(program: Program, table: &[u8], front: &[u8], held: &[u8], line: &[u8])
    requires { PictureVerdict table.now front.now held.now line.now }
{
    program.say(line);
}
