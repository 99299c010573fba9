// The listing of one map.
ghost use Rattle.std.specs.Prelude.{◌≡◌};
ghost use Rattle.list_map.specs.Listed.{map_listing};

use command::input::Input;
use command::program::{Program, Unwritten};
use map_text::map::put_listing;
use mat_map::read_map;

// 46592 bytes are enough, whatever follows them (specs/Listed/Theorems.antt, `listing-enough`). Where reading fails, that is said on
// standard error and nothing is printed.
pub fn list_input(input: &Input, group: u32, total: u64) {
    let mut bytes = [0u8; 46592];
    if let Ok(n) = input.fill(&mut bytes) {
        list_bytes(input.program, group, &bytes[..n], total);
    }
}

// 98304 bytes hold the text of every map, 128 the last line.
fn list_bytes(program: Program, group: u32, bytes: &[u8], total: u64) {
    let mut counts = [0u8; 32768];
    let mut text = [0u8; 98432];
    let _ = list_map(program, group, bytes, total, &mut counts, &mut text);
}

// counts   the counts that are read
// text     the listing
fn list_map(
    program: Program,
    group: u32,
    bytes: &[u8],
    total: u64,
    counts: &mut [u8; 32768],
    text: &mut [u8; 98432],
) -> Result<(), Unwritten> {
    let answer = read_map(group, bytes, total, counts);
    let n = put_listing(text, counts, answer.number, answer.count);
    print_map(program, group, bytes, total, &text[..n])
}

// Writes the listing; nothing else goes to standard output. The other three say what `text` must be; nothing else is done with them.
fn print_map(
    program: Program,
    group: u32,
    bytes: &[u8],
    total: u64,
    text: &[u8],
) -> Result<(), Unwritten>
    requires { text.now ≡ map_listing group bytes.now total }
{
    program.print(text)
}
