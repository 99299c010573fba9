// Draws a sheet as a PNG, with a pressure mat map beside it where one is given. A sheet may have any length: it is read once for the
// picture's size and the verdict and once to be drawn, and one record is held at a time.
#![tactic(auto)]

mod advance;
mod claims;
mod draw;
mod files;
mod measure;
mod measured;
mod memory;
mod output;
mod parts;
mod passes;
mod scene;
mod side;
mod wish;
mod words;

use command::program::Program;
use words::draw_words;

fn main(rt: HostRuntime) {
    let program = Program {
        rt,
        name: b"draw_sheet",
        usage: b"-o OUT --times K --range LOW HIGH --map MAP --group G --total N",
        help: b"usage: draw_sheet [-o OUT] [--times K] [--range LOW HIGH]
                  [--map MAP --group G --total N] [FILE]

Draws a sheet as a PNG, one sample a height; each row stands at its number, and
what is missing is blue. A refused sheet is drawn up to the fault. Standard
error says how many rows there are, or at which record and by which rule the
sheet is refused. With no FILE, and where FILE is -, it reads standard input.

  -o OUT            writes the picture to OUT, else to standard output
  --times K         draws each height as a square of K by K samples, 1 to 15
  --range LOW HIGH  draws the heights LOW to HIGH in grey, else 0 to 4093
  --map MAP         draws the counts of a pressure mat map beside the sheet:
  --group G           the pixels of a group, 4 or 16
  --total N           the photons that the map is to have
  --help            prints this
  --version         prints the version
  --                ends the options
",
    };
    if program.is_asked_to_work() {
        draw_words(program);
    }
}
