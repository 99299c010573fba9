// What a usage text says of its options.
ghost use Rattle.std.specs.Prelude.{◌≡◌, ◌+◌, ◌<◌, drop};
ghost use Rattle.command.specs.Option.{usage_words, values_in, option_in};

// How many values an option has, where it is one.
pub fn option_values(usage: &[u8], word: &[u8]) -> Option<usize>
    ensures { result ≡ option_in (usage_words usage.now) word.now }
{
    let place = usage.split(|b| *b == b' ').position(|other| other == word)?;
    Some(values_behind(usage, place))
}

// How many words there are behind the one at a place, in front of the next option.
fn values_behind(usage: &[u8], place: usize) -> usize
    requires { place < 18446744073709551615 }
    ensures { result ≡ values_in (drop (place + 1) (usage_words usage.now)) }
{
    usage
        .split(|b| *b == b' ')
        .skip(place + 1)
        .take_while(|word| !word.starts_with(b"-"))
        .count()
}
