// What a flag takes: its count from REPEAT, and how many values from VALUE. A flag is known by how far it is below MAX, 0 to 4: an
// enum would be made of that number and then be asked the same, so it is no plainer.
ghost use Rattle.std.specs.Prelude.{◌≡◌, ◌<◌, drop};
ghost use Rattle.delta_format.specs.Numbers.{elements_of};
ghost use Rattle.delta_format.specs.Row.{values_for};
ghost use Rattle.delta_reader.specs.Flags.{flag_at, is_bad, is_counted, as_taken, taken_at, taken_of};

use crate::element::Elements;
use crate::repeat::{count_at, repeat_ends};
use crate::value::values_from;
use answer::refusal::Refusal;
use delta_format::{FirstRepeat, FirstValue};

// Its count, and how many values it takes.
#[derive(Clone, Copy)]
pub struct Taken {
    pub count: u64,
    pub values: u64,
}

// Whether the flag's elements are bad ones.
pub fn is_bad(down: u64) -> bool
    ensures { result ≡ is_bad (flag_at down) }
{
    down == 2 || down == 3
}

// Whether it has a count in REPEAT.
pub fn is_counted(down: u64) -> bool
    ensures { result ≡ is_counted (flag_at down) }
{
    down != 0 && down != 3
}

// The values that it takes.
fn values_for(down: u64, count: u64, left: u64) -> u64
    ensures { result ≡ values_for (flag_at down) left count }
{
    if 3 < down {
        return count;
    }
    if is_bad(down) {
        return if count == left { 0 } else { 1 };
    }
    1
}

// 25 before 26. A count below 1 is 0 here.
fn judge_count(
    down: u64,
    count: u64,
    left: u64,
    value: Elements,
    at: FirstValue,
) -> Result<Taken, Refusal>
    ensures { as_taken result ≡ taken_at (flag_at down) left count (drop at.0 (elements_of value.entry.bits value.entry.bytes.now)) }
{
    let values = values_for(down, count, left);
    if left < count {
        return Err(Refusal::DeltaPlace);
    }
    if values_from(value, at) < values {
        return Err(Refusal::DeltaPlace);
    }
    if count == 0 {
        return Err(Refusal::DeltaCount);
    }
    Ok(Taken { count, values })
}

pub fn take_flag(
    down: u64,
    left: u64,
    value: Elements,
    at: FirstValue,
    repeat: &[u8],
    from: FirstRepeat,
) -> Result<Taken, Refusal>
    ensures { as_taken result ≡ taken_of (flag_at down) left (drop at.0 (elements_of value.entry.bits value.entry.bytes.now))
        (drop from.0 (elements_of 32 repeat.now)) }
{
    if !is_counted(down) {
        return judge_count(down, 1, left, value, at);
    }
    if repeat_ends(repeat, from) {
        return Err(Refusal::DeltaPlace);
    }
    judge_count(down, count_at(repeat, from), left, value, at)
}
