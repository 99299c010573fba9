// How a sheet ends, said on standard error by the programs that give out something else of it: the last line of its listing.
#![tactic(auto)]

ghost use Rattle.sheet_listing.specs.Turns.{EndLine};
ghost use Rattle.sheet_verdict.specs.Verdict.{SheetEnds};

use command::program::Program;
use sheet_listing::list_end;
use sheet_stream::step::SheetStep;

// `held` is the bytes that the step read, the last that were; nothing is done with them but to say what the line must be.
pub fn say_verdict(program: Program, held: &[u8], step: SheetStep)
    requires { SheetEnds held.now step }
{
    let mut line = [0u8; 128];
    let read = step.read;
    let next = step.next;
    let given = list_end(read.number, read.at, next.index, next.rows, &mut line);
    let n = given.count as usize;
    print_verdict(program, held, &line[..n]);
}

// Nothing else is said of how a sheet ends.
fn print_verdict(program: Program, held: &[u8], line: &[u8])
    requires { EndLine held.now line.now }
{
    program.say(line);
}
