// Bytes from an input that is open.
ghost use Rattle.std.specs.Prelude.{◌≤◌, IfOk, IfErr, length};
ghost use Rattle.std.specs.Io.{ReadsAtMost};

use crate::argument::{Argument, argument_of};
use crate::path::path_of;
use crate::program::{Program, Unread};
use std::fs::File;
use std::io;
use std::io::{Error, Read, Stdin};
use std::rt::HostRuntime;

// Standard   standard input
// Named      a file that was opened by its name; it is closed where it is dropped
#[derive(Drop)]
pub enum Source {
    Standard(Stdin),
    Named(File),
}

impl Source {
    // One read.
    pub fn read_once(&self, bytes: &mut [u8]) -> io::Result<usize>
        ensures { ReadsAtMost result bytes.new }
    {
        match self {
            Source::Standard(stdin) => {
                let mut reader = *stdin;
                reader.read(bytes)
            }
            Source::Named(file) => {
                let mut reader = file;
                reader.read(bytes)
            }
        }
    }
}

// An input that a program reads.
// name   as it stands on the command line
#[derive(Drop)]
pub struct Input<'a> {
    pub program: Program<'a>,
    pub name: &'a [u8],
    pub source: Source,
}

impl<'a> Input<'a> {
    // What is read by that name; nothing where it cannot be opened, which is said on standard error. `-` is standard input.
    pub fn open(program: Program<'a>, name: &'a [u8]) -> Option<Input<'a>> {
        let source = match argument_of(name) {
            Argument::Input => Source::Standard(program.rt.stdin()),
            _ => Source::Named(program.or_complain(name, open_named(program.rt, name))?),
        };
        Some(Input {
            program,
            name,
            source,
        })
    }

    // Reads until `bytes` is full or the input ends. No contract can say which bytes come, nor that fewer than `bytes` holds mean
    // the input's end.
    pub fn fill(&self, bytes: &mut [u8]) -> Result<usize, Unread>
        ensures ok { IfOk result (λ count. count ≤ length bytes.old) }
        ensures err { IfErr result (λ unread. unread.count ≤ length bytes.old) }
    {
        let mut count = 0;
        // no count: a read brings as many as it likes
        while count < bytes.len() {
            match self.source.read_once(&mut bytes[count..]) {
                Ok(0) => return Ok(count),
                Ok(more) => count += more,
                Err(e) => {
                    self.complain(e);
                    return Err(Unread { count });
                }
            }
        }
        Ok(count)
    }

    // `PROGRAM: NAME: why`
    pub fn complain(&self, error: Error) {
        self.program.complain(self.name, error);
    }

    // `PROGRAM: NAME: text`
    pub fn hint(&self, text: &[u8]) {
        self.program.hint(self.name, text);
    }
}

fn open_named(rt: HostRuntime, name: &[u8]) -> io::Result<File> {
    File::open(&rt, path_of(name)?)
}
