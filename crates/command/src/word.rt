// The words of a command line.
ghost use Rattle.command.specs.Prefix.{IsPrefixLen};

use crate::argument::{Argument, argument_of};
use crate::program::Program;
use std::env::FillError;
use std::rt::Env;

impl<'a> Program<'a> {
    // How many there are, the program's own name among them.
    pub fn count_arguments(self) -> usize {
        let mut none = [0u8; 0];
        for i in 0..usize::MAX {
            if let Err(FillError::NotPresent) = self.rt.arg(i, &mut none) {
                return i;
            }
        }
        usize::MAX
    }

    // The argument at place i, at the front of `word`, and its length. Of one that is longer than `word` the first bytes; those of
    // a buffer of 4096 bytes are too many for a file's name, so that opening it fails.
    pub fn word_at(self, i: usize, word: &mut [u8]) -> usize
        ensures { IsPrefixLen result word.new }
    {
        match self.rt.arg(i, word) {
            Ok(n) => n,
            Err(FillError::TooLong) => word.len(),
            Err(FillError::NotPresent) => 0,
        }
    }

    // Whether standard input is meant by the argument at that place: it is `-`, or there is none.
    pub fn is_input(self, place: Option<usize>) -> bool {
        let Some(i) = place else {
            return true;
        };
        let mut word = [0u8; 4096];
        let n = self.word_at(i, &mut word);
        matches!(argument_of(&word[..n]), Argument::Input)
    }
}
