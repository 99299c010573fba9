// What the records behind a fault claim: a record that is there by its length, and is a row by its kind, says where it would stand.
ghost use Rattle.std.specs.Prelude.{◌≡◌, ◌≤◌, IfOk, take};
ghost use Rattle.sheet_format.specs.Stream.{held_of};
ghost use Rattle.draw_sheet.specs.Measure.{Claims};

use crate::memory::Memory;
use command::input::Input;
use command::program::Unread;
use sheet_picture::claim::row_claimed;
use sheet_reader::judge_length;
use sheet_stream::input::fill_record;

// The rows that are claimed. The bytes that are held of the refused record stand at the front of `bytes`. No run uses up so many
// records.
// held   the bytes that are held of the next one
pub fn take_claims(input: &Input, memory: &mut Memory, taken: usize) -> Result<u32, Unread>
    requires taken_bound { taken ≤ 32778 }
    requires bytes_value { take taken memory.old.bytes ≡ held_of (take taken memory.old.bytes) }
    ensures within { IfOk result (λ height. height ≤ 65536) }
    ensures claims { IfOk result (λ height. Claims (take taken memory.old.bytes) height) }
{
    let mut height = 0;
    let mut held = taken;
    for _ in 0..u64::MAX {
        let record = &memory.bytes[..held];
        let Ok(()) = judge_length(record) else {
            return Ok(height);
        };
        height = height.max(row_claimed(record));
        held = fill_record(input, &mut memory.bytes)?;
    }
    Err(Unread { count: 0 })
}
