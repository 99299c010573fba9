// A line's number as a caller has it: two's complement in 32 bits.
ghost use Rattle.std.specs.Prelude.{◌≡◌};
ghost use Rattle.sheet_format.specs.Line.{word_of, signed_of};

pub fn word_of(v: i32) -> u32
    ensures { result ≡ word_of v }
{
    v.cast_unsigned()
}

pub fn signed_of(word: u32) -> i32
    ensures { result ≡ signed_of word }
{
    word.cast_signed()
}
