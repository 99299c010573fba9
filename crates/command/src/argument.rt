// What an argument is, by its bytes.
ghost use Rattle.std.specs.Prelude.{◌≡◌};
ghost use Rattle.command.specs.Argument.{argument_of};

// Help, Version   the two options
// End             `--`, which ends the options
// Input           `-`, standard input
// Unknown         any other word that begins with `-`
// Name            of a file
#[derive(Clone, Copy)]
pub enum Argument {
    Help,
    Version,
    End,
    Input,
    Unknown,
    Name,
}

#[tactic(auto, using(text::specs::Same::Laws::same_pointwise), unfolding(crate::specs::Argument::argument_of, crate::specs::Argument::dashed_of))]
pub fn argument_of(word: &[u8]) -> Argument
    ensures { result ≡ argument_of word.now }
{
    if word == b"--help".as_slice() {
        Argument::Help
    } else if word == b"--version".as_slice() {
        Argument::Version
    } else if word == b"--".as_slice() {
        Argument::End
    } else if word == b"-".as_slice() {
        Argument::Input
    } else if word.starts_with(b"-") {
        Argument::Unknown
    } else {
        Argument::Name
    }
}
