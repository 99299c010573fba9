// The verdict: how the conversion of a scan ended.
ghost use Rattle.fits_to_sheet.specs.Scan.{Ended, EndVerdict};

use command::program::Program;
use fits_reader::verdict::put_verdict;

// Says the verdict of a conversion that ended so; `header` and `held` are the bytes that it held last.
pub fn end(program: Program, header: &[u8], held: &[u8], number: u32, fault: u32, rows: u64)
    requires { Ended header.now held.now number fault rows }
{
    let mut line = [0u8; 128];
    let n = put_verdict(&mut line, number, fault, rows);
    say_verdict(program, header, held, &line[..n]);
}

// Writes the verdict to standard error; nothing else goes there but complaints. `header` and `held` say what the line must
// be; nothing else is done with them.
fn say_verdict(program: Program, header: &[u8], held: &[u8], line: &[u8])
    requires { EndVerdict header.now held.now line.now }
{
    program.say(line);
}
