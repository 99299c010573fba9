// Where the picture goes.
ghost use Rattle.std.specs.Prelude.{◌≤◌, length};

use command::argument::{Argument, argument_of};
use command::input::{Input, Source};
use command::path::path_of;
use command::program::{Program, Stopped, Unread, Unwritten};
use sheet_stream::twice::go_to;
use std::fs::{File, OpenOptions, metadata};
use std::io;
use std::io::{IsTerminal, Print, Stdout, Write};
use std::rt::HostRuntime;

// There is no picture, or no more of it; standard error has said why.
#[derive(Clone, Copy)]
pub struct NoPicture;

impl From<Unread> for NoPicture {
    fn from(_unread: Unread) -> NoPicture {
        NoPicture
    }
}

impl From<Stopped> for NoPicture {
    fn from(_stopped: Stopped) -> NoPicture {
        NoPicture
    }
}

// Standard   standard output
// Named      a file, which is closed where it is dropped
#[derive(Drop)]
pub enum Target {
    Standard(Stdout),
    Named(File),
}

// Where a program writes to.
// name   what it is called on standard error
#[derive(Drop)]
pub struct Output<'a> {
    pub program: Program<'a>,
    pub name: &'a [u8],
    pub target: Target,
}

impl<'a> Output<'a> {
    // Where that fails, standard error says why.
    pub fn print(&self, part: &[u8]) -> Result<(), Unwritten> {
        match self.target.write(part) {
            Ok(()) => Ok(()),
            Err(e) => {
                self.program.complain(self.name, e);
                Err(Unwritten)
            }
        }
    }
}

impl Target {
    fn write(&self, part: &[u8]) -> io::Result<()> {
        match self {
            Target::Standard(stdout) => Print::write_all(stdout, part),
            Target::Named(file) => {
                let mut writer = file;
                writer.write_all(part)
            }
        }
    }
}

pub fn standard_output<'a>(program: Program<'a>) -> Output<'a> {
    Output {
        program,
        name: b"standard output",
        target: Target::Standard(program.rt.stdout()),
    }
}

// Whether standard output is a terminal, which is said on standard error: a picture is nothing to be read there.
pub fn is_terminal(program: Program) -> bool {
    let is = program.rt.stdout().is_terminal();
    if is {
        program.hint(b"standard output", b"this is a terminal; -o names a file");
    }
    is
}

// A file that is made or overwritten; where it is the sheet or the map, or cannot be opened, that is said on standard error. What is
// there is held until then, so that whoever reads a named pipe waits for the picture. The sheet and the map are left anywhere.
pub fn open_picture<'a>(
    program: Program<'a>,
    name: &'a [u8],
    input: &Input,
    map: &Option<Source>,
) -> Result<Output<'a>, NoPicture> {
    match open_update(program.rt, name) {
        Ok(there) => {
            let held = Source::Named(there);
            let output = open_free(program, name, &held, input, map);
            drop(held);
            output
        }
        Err(_) => open_target(program, name),
    }
}

// What is there, to read and write.
fn open_update(rt: HostRuntime, name: &[u8]) -> io::Result<File> {
    let mut how = OpenOptions::new();
    how.read(true).write(true);
    how.open(&rt, path_of(name)?)
}

fn open_target<'a>(program: Program<'a>, name: &'a [u8]) -> Result<Output<'a>, NoPicture> {
    let file = program.open_output(name).ok_or(NoPicture)?;
    Ok(Output {
        program,
        name,
        target: Target::Named(file),
    })
}

fn open_free<'a>(
    program: Program<'a>,
    name: &'a [u8],
    there: &Source,
    input: &Input,
    map: &Option<Source>,
) -> Result<Output<'a>, NoPicture> {
    if is_sheet(there, input) {
        program.hint(name, b"this is the sheet itself");
        return Err(NoPicture);
    }
    if is_map(program.rt, there, map) {
        program.hint(name, b"this is the map itself");
        return Err(NoPicture);
    }
    open_target(program, name)
}

// Of a sheet that came from standard input `input` is a copy, from the place where standard input stood.
fn is_sheet(there: &Source, input: &Input) -> bool {
    if same_from_start(there, &input.source) {
        return true;
    }
    if let Argument::Input = argument_of(input.name) {
        return is_standard(input.program.rt, there);
    }
    false
}

fn is_map(rt: HostRuntime, there: &Source, map: &Option<Source>) -> bool {
    match map {
        Some(Source::Standard(_)) => is_standard(rt, there),
        Some(file) => same_from_start(there, file),
        None => false,
    }
}

// Whether standard input is a file with the same bytes, from its start: std cannot go back in it, and so the file is opened once more.
fn is_standard(rt: HostRuntime, there: &Source) -> bool {
    match open_standard(rt) {
        Ok(Some(file)) => same_from_start(there, &Source::Named(file)),
        Ok(None) => false,
        Err(_) => false,
    }
}

// Standard input as a file of its own, where it is one.
fn open_standard(rt: HostRuntime) -> io::Result<Option<File>> {
    if metadata(&rt, "/dev/stdin")?.is_file() {
        return Ok(Some(File::open(&rt, "/dev/stdin")?));
    }
    Ok(None)
}

// Whether two inputs have the same bytes from their start. What has no place to go back to, such as a pipe, has none, and an
// empty file is the same as none.
fn same_from_start(a: &Source, b: &Source) -> bool {
    is_begun(a) && is_begun(b) && same_to_end(a, b)
}

// Goes to the start.
fn is_begun(file: &Source) -> bool {
    go_to(file, 0).is_ok()
}

// Whether two inputs have the same bytes, one at least. No run uses up so many blocks.
fn same_to_end(a: &Source, b: &Source) -> bool {
    let mut some = false;
    for _ in 0..u64::MAX {
        match same_block(a, b) {
            Some(0) => return some,
            Some(_) => some = true,
            None => return false,
        }
    }
    false
}

// How many bytes come next, none at the end, where those of both are the same.
fn same_block(a: &Source, b: &Source) -> Option<usize> {
    let mut x = [0u8; 4096];
    let mut y = [0u8; 4096];
    let n = read_full(a, &mut x);
    let m = read_full(b, &mut y);
    if &x[..n] == &y[..m] { Some(n) } else { None }
}

// Reads until `bytes` is full, the input ends or a read fails, which is not said.
fn read_full(file: &Source, bytes: &mut [u8]) -> usize
    ensures { result ≤ length bytes.new }
{
    let mut count = 0;
    // no count by one: a turn takes as many bytes as a read brings
    while count < bytes.len() {
        let more = file.read_once(&mut bytes[count..]).unwrap_or(0);
        if more == 0 {
            return count;
        }
        count += more;
    }
    count
}
