// The bytes of the table.
ghost use Rattle.std.specs.Prelude.{◌≡◌, ◌≤◌, Option, None, IfSome, take};
ghost use Rattle.row_format.specs.Plain.{plain_bytes};

use code_table::plain::plain_table;
use command::input::Input;
use command::program::Program;

// How many there are: those of the file that the command line names at a place, and with no place the plain table's. Nothing where
// the file cannot be read. A table has at most 32772 bytes: with one more that is read it is too long, however much follows.
pub fn fill_table(program: Program, place: Option<usize>, bytes: &mut [u8; 32773]) -> Option<usize>
    ensures within { IfSome result (λ count. count ≤ 32773) }
    ensures plain { place ≡ None → IfSome result (λ count. take count bytes.new ≡ plain_bytes) }
{
    let Some(i) = place else {
        plain_table(bytes);
        return Some(2072);
    };
    fill_named(program, i, bytes)
}

fn fill_named(program: Program, i: usize, bytes: &mut [u8; 32773]) -> Option<usize>
    ensures { IfSome result (λ count. count ≤ 32773) }
{
    let mut word = [0u8; 4096];
    let n = program.word_at(i, &mut word);
    Input::open(program, &word[..n])?.fill(bytes).ok()
}
