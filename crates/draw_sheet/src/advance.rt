// How far the sheet is read while its picture is drawn.
ghost use Rattle.std.specs.Prelude.{◌≡◌, true, false, ◌+◌, ◌≤◌, ◌<◌, eqb, IfOk};
ghost use Rattle.sheet_format.specs.Kinds.{kind_of};
ghost use Rattle.sheet_stream.specs.Progress.{CarriedFits};
ghost use Rattle.draw_sheet.specs.Ahead.{none_read, height_bytes, least_in, is_known, ReadTo, Onward};

use crate::memory::Memory;
use command::input::Input;
use command::program::Unread;
use sheet_format::kind::is_row;
use sheet_stream::progress::{SheetProgress, begin};
use sheet_stream::step::take_record;

// The last row that was read has the number before the least that may come next; its heights stand at the front of `content`.
// ended    whether the sheet has ended
// held     how many bytes were read last: a record, or what the sheet ended with; they stand at the front of `bytes`
// count    the bytes of that row's heights
// at       what is carried
#[derive(Clone, Copy)]
pub struct Ahead {
    pub ended: bool,
    pub held: usize,
    pub count: usize,
    pub at: SheetProgress,
}

impl Ahead {
    // Nothing is read yet.
    pub fn none() -> Ahead
        ensures { result ≡ none_read }
    {
        Ahead {
            ended: false,
            held: 0,
            count: 0,
            at: begin(),
        }
    }

    fn knows(self, n: u32) -> bool
        ensures { result ≡ is_known self n }
    {
        let state = self.at.state;
        self.ended || n < state.least_row
    }

    // Whether row n is the last that was read.
    pub fn ends_with(self, n: u32) -> bool
        requires { n < 4294967295 }
        ensures { result ≡ eqb (least_in self) (n + 1) }
    {
        let state = self.at.state;
        state.least_row == n + 1
    }
}

// Reads on until row n of the sheet is known: until a row has this number or a greater one, or the sheet has ended.
pub fn advance(input: &Input, memory: &mut Memory, ahead: Ahead, n: u32) -> Result<Ahead, Unread>
    requires carried_fits { CarriedFits ahead.at memory.old.table }
    requires count_bound { ahead.count ≤ 8192 }
    requires held_bound { ahead.held ≤ 32778 }
    ensures fits { IfOk result (λ now. CarriedFits now.at memory.new.table) }
    ensures within { IfOk result (λ now. now.count ≤ 8192) }
    ensures held { IfOk result (λ now. now.held ≤ 32778) }
    ensures known { IfOk result (λ now. is_known now n ≡ true) }
    ensures onward { IfOk result (λ now. (w : ReadTo ahead memory.old.bytes memory.old.table memory.old.content n)
        → Onward w now memory.new.bytes memory.new.table memory.new.content n) }
{
    let mut now = ahead;
    // no count of this loop's turns: the index goes on from call to call. No run uses it up
    while now.at.index < u64::MAX {
        if now.knows(n) {
            return Ok(now);
        }
        let next = take_next(input, memory, now, n)?;
        if next.ended {
            return Ok(next);
        }
        now = next;
    }
    Err(Unread { count: 0 })
}

// One record more, where row n is not known yet.
fn take_next(input: &Input, memory: &mut Memory, ahead: Ahead, n: u32) -> Result<Ahead, Unread>
    requires index_bound { ahead.at.index < 18446744073709551615 }
    requires carried_fits { CarriedFits ahead.at memory.old.table }
    requires n_value { is_known ahead n ≡ false }
    ensures fits { IfOk result (λ next. CarriedFits next.at memory.new.table) }
    ensures within { IfOk result (λ next. next.count ≤ 8192) }
    ensures held { IfOk result (λ next. next.held ≤ 32778) }
    ensures index { IfOk result (λ next. next.ended ≡ false → next.at.index ≡ ahead.at.index + 1) }
    ensures onward { IfOk result (λ next. (w : ReadTo ahead memory.old.bytes memory.old.table memory.old.content n)
        → Onward w next memory.new.bytes memory.new.table memory.new.content n) }
{
    let step = take_record(
        input,
        &mut memory.bytes,
        &mut memory.table,
        &mut memory.content,
        ahead.at,
    )?;
    if step.last {
        return Ok(Ahead {
            ended: true,
            held: step.taken,
            count: 0,
            at: step.next,
        });
    }
    let read = step.read;
    Ok(Ahead {
        ended: false,
        held: step.taken,
        count: height_bytes(read.kind, read.count),
        at: step.next,
    })
}

// The bytes of a row's heights.
fn height_bytes(kind: u32, count: u32) -> usize
    ensures { result ≡ height_bytes (kind_of kind).holds count }
{
    if is_row(kind) {
        return 2 * count as usize;
    }
    0
}
