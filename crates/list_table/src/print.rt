// A table's listing on standard output, a block of lines at a time.
ghost use Rattle.std.specs.Prelude.{◌≡◌, ◌≤◌, IfOk, length, take, drop};
ghost use Rattle.answer.specs.Refusal.{result_number, refusal_number};
ghost use Rattle.row_format.specs.Table.{table_number};
ghost use Rattle.table_listing.specs.Listing.{lines, joined, table_listing};

use answer::refusal::Refusal;
use command::program::{Program, Unwritten};
use table_listing::list_table;
use text::line::put_refused_line;

// judged    whether the table is accepted
// written   the bytes that were printed, where that went well
#[derive(Clone, Copy)]
pub struct Printed {
    pub judged: Result<(), Refusal>,
    pub written: Result<usize, Unwritten>,
}

pub fn print_listing(program: Program, table: &[u8]) -> Printed
    ensures number { result_number result.judged ≡ table_number table.now }
    ensures whole { IfOk result.written (λ bytes. bytes ≡ length (table_listing table.now)) }
{
    let mut block = [0u8; 65536];
    print_blocks(program, table, &mut block)
}

// first     the lines before it are printed, those from it on are not
// printed   the bytes of those lines, as they were handed over
fn print_blocks(program: Program, table: &[u8], block: &mut [u8]) -> Printed
    requires { 128 ≤ length block.old }
    ensures number { result_number result.judged ≡ table_number table.now }
    ensures whole { IfOk result.written (λ bytes. bytes ≡ length (table_listing table.now)) }
{
    let mut first = 0;
    let mut printed = 0;
    // no count: a block takes as many lines as fit
    loop {
        let listed = match list_table(table, first, block) {
            Ok(listed) => listed,
            Err(refusal) => return print_refusal(program, table, refusal),
        };
        if listed.lines == 0 {
            return Printed {
                judged: Ok(()),
                written: Ok(printed),
            };
        }
        let text = &block[..listed.bytes];
        match print_lines(program, table, first, listed.lines, text) {
            Ok(bytes) => {
                first += listed.lines;
                printed += bytes;
            }
            Err(e) => {
                return Printed {
                    judged: Ok(()),
                    written: Err(e),
                };
            }
        }
    }
}

// The one line of a refused table.
fn print_refusal(program: Program, table: &[u8], refusal: Refusal) -> Printed
    requires { refusal_number refusal ≡ table_number table.now }
    ensures number { result_number result.judged ≡ table_number table.now }
    ensures whole { IfOk result.written (λ bytes. bytes ≡ length (table_listing table.now)) }
{
    let mut text = [0u8; 128];
    let n = put_refused_line(&mut text, 0, refusal.number());
    Printed {
        judged: Err(refusal),
        written: print_lines(program, table, 0, 1, &text[..n]),
    }
}

// Writes a text that is so many lines of the table's listing, from the line `first` on: what `text` must be is said by the
// other three, which nothing else is done with. The answer is its bytes.
fn print_lines(
    program: Program,
    table: &[u8],
    first: usize,
    count: usize,
    text: &[u8],
) -> Result<usize, Unwritten>
    requires { text.now ≡ joined (take count (drop first (lines table.now))) }
    ensures { IfOk result (λ bytes. bytes ≡ length text.now) }
{
    program.print(text)?;
    Ok(text.len())
}
