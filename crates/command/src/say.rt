// What a program says apart from its listing: complaints and hints on standard error, each a line that begins with the
// program's name and the file's, and lines on standard output that name a file or the version.
ghost use Rattle.std.specs.Prelude.{◌≡◌, ◌≤◌, length};
ghost use Rattle.std.specs.Result.{result_ok};

use crate::argument::{Argument, argument_of};
use crate::program::{Program, Unwritten};
use std::fmt::InlineText;
use std::io;
use std::io::{Error, Print};
use std::rt::HostRuntime;

// Of the programs; include/tahliruz.h has the library's, which is the same.
const VERSION: [u8; 5] = *b"0.2.4";

impl<'a> Program<'a> {
    // `PROGRAM: NAME: why`, by the error that came.
    pub fn complain(self, name: &[u8], error: Error) {
        self.say(self.name);
        self.say(b": ");
        fail(self.rt, said(name), error);
    }

    // What came, or nothing where that failed, which is said in such a line.
    pub fn or_complain<T>(self, name: &[u8], given: io::Result<T>) -> Option<T>
        ensures { result ≡ result_ok given }
    {
        match given {
            Ok(value) => Some(value),
            Err(e) => {
                self.complain(name, e);
                None
            }
        }
    }

    // `PROGRAM: NAME: text`, of a file.
    pub fn hint(self, name: &[u8], text: &[u8]) {
        self.refuse_word(said(name), text);
    }

    // `PROGRAM: WORD: text`, of a word as it stands on the command line.
    pub fn refuse_word(self, word: &[u8], text: &[u8]) {
        self.say(self.name);
        self.say(b": ");
        self.say(word);
        self.say(b": ");
        self.say(text);
        self.say(b"\n");
    }

    // A text to standard error. Where that fails there is nobody to tell.
    pub fn say(self, text: &[u8]) {
        say(self.rt, text);
    }

    // `PROGRAM: OPTION: unknown option`, of the option at place i, and the usage.
    pub fn refuse_option(self, i: usize) {
        self.refuse_at(i, b"unknown option");
        self.say_help();
    }

    // The same where it is known, and what it takes is not there.
    pub fn refuse_lacking(self, i: usize) {
        self.refuse_at(i, b"a value is missing");
        self.say_help();
    }

    // `PROGRAM: WORD: text`, of the argument at place i.
    pub fn refuse_at(self, i: usize, text: &[u8]) {
        let mut word = [0u8; 4096];
        let n = self.word_at(i, &mut word);
        self.refuse_word(&word[..n], text);
    }

    // The usage on standard error.
    pub fn say_help(self) {
        self.say(self.help);
    }

    // A text to standard output.
    pub fn print(self, text: &[u8]) -> Result<(), Unwritten> {
        let written = self.rt.stdout().write_all(text);
        self.or_complain(b"standard output", written)
            .ok_or(Unwritten)
    }

    // `file NAME`, before the listing of one of several files.
    pub fn print_file(self, name: &[u8]) -> Result<(), Unwritten> {
        self.print(b"file ")?;
        self.print(name)?;
        self.print(b"\n")
    }

    // `PROGRAM VERSION`
    pub fn print_version(self) -> Result<(), Unwritten> {
        self.print(self.name)?;
        self.print(b" ")?;
        self.print(&VERSION)?;
        self.print(b"\n")
    }

    pub fn print_help(self) -> Result<(), Unwritten> {
        self.print(self.help)
    }
}

// A file's name as it is said.
fn said(name: &[u8]) -> &[u8] {
    match argument_of(name) {
        Argument::Input => b"standard input",
        _ => name,
    }
}

// Whether a text was written to standard error.
pub fn say(rt: HostRuntime, text: &[u8]) -> bool {
    rt.stderr().write_all(text).is_ok()
}

// `WHAT: why`
pub fn fail(rt: HostRuntime, what: &[u8], error: Error) {
    let why = InlineText::<192>::of(error);
    let text = why.as_str().as_bytes();
    let end = reason_end(text);
    say(rt, what);
    say(rt, b": ");
    say(rt, &text[..end]);
    say(rt, b"\n");
}

// Where the system's words end: std writes ` (os error N)` behind them.
fn reason_end(text: &[u8]) -> usize
    ensures { result ≤ length text.now }
{
    text.iter()
        .skip(1)
        .position(|b| *b == b'(')
        .unwrap_or(text.len())
}
