// Words that are numbers.
ghost use Rattle.std.specs.Prelude.{◌≤◌, IfSome};
ghost use Rattle.text.specs.Number.{AtMost};
ghost use Rattle.command.specs.Number.{Between};

use crate::program::Program;
use text::read::read_decimal;

impl<'a> Program<'a> {
    // The number that the argument at place i says; where it says none, or one above `most`, standard error has `PROGRAM: WORD: why`.
    pub fn number_at(self, i: usize, most: u64, why: &[u8]) -> Option<u64>
        ensures { AtMost most result }
    {
        let mut word = [0u8; 4096];
        let n = self.word_at(i, &mut word);
        self.number_in(&word[..n], most, why)
    }

    fn number_in(self, word: &[u8], most: u64, why: &[u8]) -> Option<u64>
        ensures { AtMost most result }
    {
        let read = read_decimal(word, most);
        if read.is_none() {
            self.refuse_word(word, why);
        }
        read
    }

    // The same, of a number that is to be at least `least` too.
    pub fn number_from(self, i: usize, least: u64, most: u64, why: &[u8]) -> Option<u64>
        ensures { Between least most result }
    {
        let v = self.number_at(i, most, why)?;
        if v < least {
            self.refuse_at(i, why);
            return None;
        }
        Some(v)
    }

    // The number that an option of the usage has, or `usual` where the option is not given.
    pub fn option_number(
        self,
        option: &[u8],
        least: u64,
        most: u64,
        usual: u64,
        why: &[u8],
    ) -> Option<u64>
        requires { (least ≤ usual) × (usual ≤ most) }
        ensures { Between least most result }
    {
        match self.value_of(option) {
            Some(i) => self.number_from(i, least, most, why),
            None => Some(usual),
        }
    }
}
