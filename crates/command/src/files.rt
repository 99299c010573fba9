// A command line of a program whose options take no values: the files that it names and, in some programs, numbers before them.
ghost use Rattle.std.specs.Prelude.{◌≡◌, ◌+◌, ◌<◌, ◌≤◌, ◌↔◌, IsTrue, Option, Some, None, cond, ltb};
ghost use Rattle.command.specs.Argument.{file_count, word_place};

use crate::argument::{Argument, argument_of};
use crate::input::Input;
use crate::option::Asked;
use crate::program::{Program, Unwritten};

// The words that are no options.
// arguments   how many words there are, the program's own name among them
// end         the place of the `--` that ends the options, or `arguments` where there is none
#[derive(Clone, Copy)]
pub struct Files {
    pub arguments: usize,
    pub end: usize,
}

impl<'a> Program<'a> {
    // The files, where the program's own work is asked for. Where something else is, that is done.
    pub fn files(self) -> Option<Files> {
        match self.read_files() {
            Ok(files) => Some(files),
            Err(asked) => {
                self.answer(asked);
                None
            }
        }
    }

    // `list` with each file that is named, one after another, or with standard input where none is. One that cannot be opened is
    // passed over; where writing fails, that is the end.
    pub fn list_each<F: Fn(&Input) -> Result<(), Unwritten>>(
        self,
        files: Files,
        list: F,
    ) -> Result<(), Unwritten>
        requires { F.IsAlwaysCallable list }
    {
        if files.count() == 0 {
            return self.list_file(b"-", &list);
        }
        for i in 1..files.arguments {
            if files.is_file(i) {
                self.list_argument(files, i, &list)?;
            }
        }
        Ok(())
    }

    // Of several files each has its name in front of what is printed of it.
    fn list_argument<F: Fn(&Input) -> Result<(), Unwritten>>(
        self,
        files: Files,
        i: usize,
        list: &F,
    ) -> Result<(), Unwritten>
        requires { F.IsAlwaysCallable list.now }
    {
        let mut word = [0u8; 4096];
        let n = self.word_at(i, &mut word);
        let name = &word[..n];
        if 1 < files.count() {
            self.print_file(name)?;
        }
        self.list_file(name, list)
    }

    fn list_file<F: Fn(&Input) -> Result<(), Unwritten>>(
        self,
        name: &[u8],
        list: &F,
    ) -> Result<(), Unwritten>
        requires { F.IsAlwaysCallable list.now }
    {
        match Input::open(self, name) {
            Some(input) => list(&input),
            None => Ok(()),
        }
    }

    fn read_files(self) -> Result<Files, Asked> {
        let arguments = self.count_arguments();
        let mut files = Files {
            arguments,
            end: arguments,
        };
        for i in 1..arguments {
            files = self.take_argument(i, files)?;
        }
        Ok(files)
    }

    // Up to the argument at place i, where nothing but files was asked for before it.
    fn take_argument(self, i: usize, files: Files) -> Result<Files, Asked> {
        if files.end < i {
            return Ok(files);
        }
        let mut word = [0u8; 4096];
        let n = self.word_at(i, &mut word);
        match argument_of(&word[..n]) {
            Argument::Help => Err(Asked::Help),
            Argument::Version => Err(Asked::Version),
            Argument::Unknown => Err(Asked::Unknown(i)),
            Argument::End => Ok(Files { end: i, ..files }),
            Argument::Input | Argument::Name => Ok(files),
        }
    }

    // Whether no more than one file is named behind the first k words. A second is refused.
    pub fn takes_one(self, files: Files, k: u32) -> bool
        requires k_bound { k < 4294967295 }
        ensures { IsTrue result ↔ file_count files.arguments files.end ≤ k + 1 }
    {
        if files.count() <= k as usize + 1 {
            return true;
        }
        let mut word = [0u8; 4096];
        let n = self.word_at(files.place_of(k + 1), &mut word);
        self.refuse_use(&word[..n], b"only one file is taken");
        false
    }

    // `PROGRAM: NAME: text`, and the usage.
    pub fn refuse_use(self, name: &[u8], text: &[u8]) {
        self.hint(name, text);
        self.say_help();
    }

    // Lends the input that the argument at that place names, and standard input where there is none.
    pub fn with_input<F: FnOnce(&Input) + Drop>(self, place: Option<usize>, work: F)
        requires { F.IsAlwaysCallable work }
    {
        let Some(i) = place else {
            self.with_named(b"-", work);
            return;
        };
        let mut word = [0u8; 4096];
        let n = self.word_at(i, &mut word);
        self.with_named(&word[..n], work);
    }

    fn with_named<F: FnOnce(&Input) + Drop>(self, name: &[u8], work: F)
        requires { F.IsAlwaysCallable work }
    {
        if let Some(input) = Input::open(self, name) {
            work(&input);
        }
    }
}

impl Files {
    // Whether the argument at place i is a file: each is, in front of the `--` and behind it.
    pub fn is_file(self, i: usize) -> bool {
        i != self.end
    }

    // How many files are named.
    pub fn count(self) -> usize
        ensures { result ≡ file_count self.arguments self.end }
    {
        if self.end < self.arguments {
            return self.arguments.saturating_sub(2);
        }
        self.arguments.saturating_sub(1)
    }

    // The place of word k, from 0 on, of those that are no options.
    #[tactic(auto, unfolding(crate::specs::Argument::word_place))]
    pub fn place_of(self, k: u32) -> usize
        ensures { result ≡ word_place self.end k }
    {
        let place = k as usize + 1;
        if place < self.end {
            return place;
        }
        place + 1
    }

    // The same, where there are so many.
    pub fn word(self, k: u32) -> Option<usize>
        ensures { result ≡ cond (ltb k (file_count self.arguments self.end)) (Some (word_place self.end k)) None }
    {
        if (k as usize) < self.count() {
            return Some(self.place_of(k));
        }
        None
    }
}
