// The conversion of one text.
ghost use Rattle.std.specs.Prelude.{◌≡◌, true};
ghost use Rattle.map_text.specs.Scan.{is_text};
ghost use Rattle.text_to_map.specs.Made.{TextUnderway, NotText, CountsOf, MapOf};

use crate::take::take_text;
use crate::verdict::end;
use command::input::Input;
use command::program::{Program, Stopped, Unwritten};
use map_text::counts::{Taken, keep_last};
use map_text::scan::{Scan, is_text};
use mat_map::write_map;

// 46592 bytes hold every map, whatever its counts, and 32770 one count more than a map has.
pub fn convert_input(input: &Input, group: u32) {
    let mut block = [0u8; 65536];
    let mut counts = [0u8; 32770];
    let mut out = [0u8; 46592];
    let _ = convert(input, group, &mut block, &mut counts, &mut out);
}

// block    a part of the text
// counts   the counts that are kept of it
// out      the map
// Where reading or writing fails, or the text is none of counts, there is no verdict.
fn convert(
    input: &Input,
    group: u32,
    block: &mut [u8; 65536],
    counts: &mut [u8; 32770],
    out: &mut [u8; 46592],
) -> Result<(), Stopped> {
    let taken = take_text(input, block, counts)?;
    if is_text(taken.scan) {
        convert_text(input.program, group, taken, counts, out)?;
    } else {
        refuse_text(input, taken.scan);
    }
    Ok(())
}

// Says that a text is none of counts; `scan`, what it has come to, says that it is so.
fn refuse_text(input: &Input, scan: Scan)
    requires { NotText scan }
{
    input.hint(b"this is no text of counts up to 65535");
}

// A text that has ended.
fn convert_text(
    program: Program,
    group: u32,
    taken: Taken,
    counts: &mut [u8; 32770],
    out: &mut [u8; 46592],
) -> Result<(), Unwritten>
    requires text_underway { TextUnderway taken counts.old }
    requires scan_value { is_text taken.scan ≡ true }
{
    let count = keep_last(counts, taken.scan, taken.count);
    convert_counts(program, group, &counts[..2 * count], out)
}

fn convert_counts(
    program: Program,
    group: u32,
    counts: &[u8],
    out: &mut [u8; 46592],
) -> Result<(), Unwritten>
    requires { CountsOf counts.now }
{
    let answer = write_map(group, counts, out);
    let number = answer.number;
    if number != 0 {
        end(program, group, counts, number, 0);
        return Ok(());
    }
    print_map(program, group, counts, &out[..answer.count as usize])?;
    end(program, group, counts, 0, answer.count);
    Ok(())
}

// Writes the map; nothing else goes to standard output. `group` and `counts` say what the bytes must be; nothing else is done with
// them.
fn print_map(program: Program, group: u32, counts: &[u8], bytes: &[u8]) -> Result<(), Unwritten>
    requires { MapOf group counts.now bytes.now }
{
    program.print(bytes)
}
