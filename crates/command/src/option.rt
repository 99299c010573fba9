// Options with values. A usage text such as b"-o OUT --range LOW HIGH" is the table of a program's options: a word that begins
// with `-` is an option, and the words behind it that do not are its values. `--help`, `--version` and `--` are every program's.
// No contract can say what the words of a command line are; what a word is by the usage is in specs/Option.antt.
ghost use Rattle.std.specs.Prelude.{◌≡◌, ◌<◌};
ghost use Rattle.command.specs.Option.{takes_of, role_by, role_of};

use crate::argument::{Argument, argument_of};
use crate::program::Program;
use crate::usage::option_values;

// What a command line asks for in place of the program's own work; of several options the first decides.
// Unknown   the place of an option that is none
// Lacking   the place of one whose values are not all there
#[derive(Clone, Copy)]
pub enum Asked {
    Help,
    Version,
    Unknown(usize),
    Lacking(usize),
}

// What a word is while options may still come.
// Plain   `-`, or a name
// Takes   an option with so many values
#[derive(Clone, Copy)]
pub enum Role {
    Help,
    Version,
    End,
    Plain,
    Unknown,
    Takes(usize),
}

// A command line, read from its front.
// next    the place of the next word
// ended   whether `--` was there
// asked   what is asked for in place of the program's own work
// value   the place of the first value of the option that is looked for, where it was there
// count   how many plain words there were
// word    the place of the plain word that is looked for, where there were so many
#[derive(Clone, Copy)]
pub struct Walk {
    pub next: usize,
    pub ended: bool,
    pub asked: Option<Asked>,
    pub value: Option<usize>,
    pub count: usize,
    pub word: Option<usize>,
}

impl<'a> Program<'a> {
    // Whether the program's own work is asked for. Where something else is, that is done.
    pub fn is_asked_to_work(self) -> bool {
        match self.walk_words(b"", 0).asked {
            None => true,
            Some(asked) => {
                self.answer(asked);
                false
            }
        }
    }

    // Does what is asked for in place of the program's own work. Where printing fails, that is said on standard error.
    pub(crate) fn answer(self, asked: Asked) {
        match asked {
            Asked::Help => {
                let _ = self.print_help();
            }
            Asked::Version => {
                let _ = self.print_version();
            }
            Asked::Unknown(i) => self.refuse_option(i),
            Asked::Lacking(i) => self.refuse_lacking(i),
        }
    }

    // The place of an option's first value, where it is given; where it is given twice, the last counts.
    pub fn value_of(self, option: &[u8]) -> Option<usize> {
        self.walk_words(option, 0).value
    }

    // How many plain words there are.
    pub fn count_words(self) -> usize {
        self.walk_words(b"", 0).count
    }

    // The place of plain word k, from 0 on.
    pub fn word_place(self, k: usize) -> Option<usize> {
        self.walk_words(b"", k).word
    }

    fn walk_words(self, option: &[u8], k: usize) -> Walk {
        let arguments = self.count_arguments();
        let mut at = Walk {
            next: 1,
            ended: false,
            asked: None,
            value: None,
            count: 0,
            word: None,
        };
        // no count: an option takes its values with it
        while at.next < arguments {
            at = self.walk_on(option, k, at, arguments);
        }
        at
    }

    // One word more, with its values; where something else is asked for, that is the end.
    fn walk_on(self, option: &[u8], k: usize, at: Walk, arguments: usize) -> Walk
        requires next_lt_arguments { at.next < arguments }
        requires count_lt_next { at.count < at.next }
        ensures on { at.next < result.next }
        ensures counts { result.count < result.next }
    {
        match self.role_at(at) {
            Role::Plain => at.with_word(k),
            Role::Takes(values) => self.with_option(option, at, values, arguments),
            Role::End => at.with_end(),
            Role::Help => at.stop(Asked::Help, arguments),
            Role::Version => at.stop(Asked::Version, arguments),
            Role::Unknown => at.stop(Asked::Unknown(at.next), arguments),
        }
    }

    // An option that takes so many values.
    fn with_option(self, option: &[u8], at: Walk, values: usize, arguments: usize) -> Walk
        requires next_lt_arguments { at.next < arguments }
        requires count_lt_next { at.count < at.next }
        ensures on { at.next < result.next }
        ensures counts { result.count < result.next }
    {
        if arguments - at.next <= values {
            return at.stop(Asked::Lacking(at.next), arguments);
        }
        Walk {
            next: at.next + 1 + values,
            value: if self.is_word(at.next, option) {
                Some(at.next + 1)
            } else {
                at.value
            },
            ..at
        }
    }

    // Whether the argument at place i is this word.
    fn is_word(self, i: usize, option: &[u8]) -> bool {
        let mut word = [0u8; 4096];
        let n = self.word_at(i, &mut word);
        &word[..n] == option
    }

    fn role_at(self, at: Walk) -> Role {
        if at.ended {
            return Role::Plain;
        }
        let mut word = [0u8; 4096];
        let n = self.word_at(at.next, &mut word);
        role_of(self.usage, &word[..n])
    }
}

impl Walk {
    fn with_word(self, k: usize) -> Walk
        requires count_lt_next { self.count < self.next }
        requires next_bound { self.next < 18446744073709551615 }
        ensures on { self.next < result.next }
        ensures counts { result.count < result.next }
    {
        Walk {
            next: self.next + 1,
            count: self.count + 1,
            word: if self.count == k {
                Some(self.next)
            } else {
                self.word
            },
            ..self
        }
    }

    fn with_end(self) -> Walk
        requires count_lt_next { self.count < self.next }
        requires next_bound { self.next < 18446744073709551615 }
        ensures on { self.next < result.next }
        ensures counts { result.count < result.next }
    {
        Walk {
            next: self.next + 1,
            ended: true,
            ..self
        }
    }

    fn stop(self, asked: Asked, arguments: usize) -> Walk
        requires next_lt_arguments { self.next < arguments }
        requires count_lt_next { self.count < self.next }
        ensures on { self.next < result.next }
        ensures counts { result.count < result.next }
    {
        Walk {
            next: arguments,
            asked: Some(asked),
            ..self
        }
    }
}

fn role_of(usage: &[u8], word: &[u8]) -> Role
    ensures { result ≡ role_of usage.now word.now }
{
    role_by(argument_of(word), option_values(usage, word))
}

fn role_by(argument: Argument, values: Option<usize>) -> Role
    ensures { result ≡ role_by argument values }
{
    match argument {
        Argument::Help => Role::Help,
        Argument::Version => Role::Version,
        Argument::End => Role::End,
        Argument::Input | Argument::Name => Role::Plain,
        Argument::Unknown => values.map_or(Role::Unknown, Role::Takes),
    }
}
