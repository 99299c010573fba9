// The verdict: how the conversion of a text ended.
ghost use Rattle.std.specs.Prelude.{◌≡◌, ◌≤◌, length};
ghost use Rattle.bitstream.specs.Bits.{halves_of};
ghost use Rattle.map_format.specs.Reading.{sum};
ghost use Rattle.text.specs.Put.{Put};
ghost use Rattle.map_text.specs.MapText.{done_bytes_line};
ghost use Rattle.text_to_map.specs.Made.{making_text, MakingEnded, VerdictOf};

use command::program::Program;
use row_pixels::pixel_at;
use text::line::put_refused_line;
use text::number::put_fields;
use text::put::put_bytes;

// Says the verdict of a conversion that ended so, by the number that refuses the map, or its bytes.
pub fn end(program: Program, group: u32, counts: &[u8], number: u32, bytes: u32)
    requires { MakingEnded group counts.now number bytes }
{
    let mut line = [0u8; 128];
    let n = put_verdict(&mut line, number, bytes, photons(counts));
    say_verdict(program, group, counts, &line[..n]);
}

// The photons of some counts, two bytes each.
fn photons(counts: &[u8]) -> u64
    requires { length counts.now ≤ 32770 }
    ensures { result ≡ sum (halves_of counts.now) }
{
    let mut all = 0;
    for i in 0..counts.len() / 2 {
        all += u64::from(pixel_at(counts, i));
    }
    all
}

fn put_verdict(out: &mut [u8], number: u32, bytes: u32, photons: u64) -> usize
    requires { 128 ≤ length out.old }
    ensures put { Put out.old 0 (making_text number bytes photons) result out.new }
    ensures most { result ≤ 128 }
{
    if number != 0 {
        return put_refused_line(out, 0, number);
    }
    put_done(out, bytes, photons)
}

// `done bytes N photons T`
fn put_done(out: &mut [u8], bytes: u32, photons: u64) -> usize
    requires { 128 ≤ length out.old }
    ensures put { Put out.old 0 (done_bytes_line bytes photons) result out.new }
    ensures most { result ≤ 128 }
{
    let next = put_fields(out, 0, b"done bytes ", bytes as u64, b" photons ", photons);
    put_bytes(out, next, b"\n")
}

// Writes the verdict to standard error; nothing else goes there but complaints. `group` and `counts` say what the line must be;
// nothing else is done with them.
fn say_verdict(program: Program, group: u32, counts: &[u8], line: &[u8])
    requires { VerdictOf group counts.now line.now }
{
    program.say(line);
}
