// Reading an input twice. No contract can say what a file holds, nor that it holds the same when it is read again.
ghost use Rattle.std.specs.Prelude.{◌<◌};

use command::input::{Input, Source};
use command::path::path_of;
use command::program::{Program, Stopped, Unread, Unwritten};
use std::fs::{File, OpenOptions, metadata, remove_file};
use std::io;
use std::io::{Error, ErrorKind, Seek, SeekFrom, Stdin, Write};
use std::os::fd::{AsFd, AsRawFd, IntoRawFd};
use std::os::unix::fs::{FileTypeExt, OpenOptionsExt};
use std::random::RandomSource;

// Where a temporary file is made.
const FOLDER: [u8; 4] = *b"/tmp";

const STANDARD_INPUT: &str = "/dev/stdin";

// Of the system: what has no place.
const ESPIPE: i32 = 29;

// The number of standard error.
const STDERR_FILENO: i32 = 2;

// How many names are tried for a temporary file.
const MOST_TRIES: u32 = 238328;

// The place where the next read begins; for a pipe and for whatever else has none, one that `again` cannot go to.
pub fn place(input: &Input) -> u64 {
    place_of(&input.source).unwrap_or(u64::MAX)
}

// The same, with the reason where there is none. std knows no place of standard input.
fn place_of(source: &Source) -> io::Result<u64> {
    match source {
        Source::Standard(stdin) => no_place(*stdin),
        Source::Named(file) => {
            let mut at = file;
            at.seek(SeekFrom::Current(0))
        }
    }
}

// Standard input: it has no place, if it is open at all.
fn no_place(stdin: Stdin) -> io::Result<u64> {
    let open = stdin.as_fd().try_clone_to_owned()?;
    drop(open);
    Err(Error::from_raw_os_error(ESPIPE))
}

// An input that can be read twice: `input` itself where it has a place; of a pipe, and of standard input, a temporary file with what
// is left of it, which has no name any more. Nothing where that fails, which is said on standard error: an input that is not open
// fails here, before a temporary file can take its number.
pub fn twice<'a>(input: Input<'a>) -> Option<Input<'a>> {
    let Input {
        program,
        name,
        source,
    } = input;
    let input = Input {
        program,
        name,
        source: device_or(program.rt, source),
    };
    match place_of(&input.source) {
        Ok(_) => Some(input),
        Err(e) => copy_without(input, e),
    }
}

// Where standard input is a device, that device, opened by name: it may have a place, and no end to copy to.
fn device_or(rt: HostRuntime, source: Source) -> Source {
    match source {
        Source::Standard(stdin) => match open_device(rt) {
            Ok(device) => Source::Named(device),
            Err(_) => Source::Standard(stdin),
        },
        Source::Named(file) => Source::Named(file),
    }
}

fn open_device(rt: HostRuntime) -> io::Result<File> {
    let kind = metadata(&rt, STANDARD_INPUT)?.file_type();
    if kind.is_char_device() || kind.is_block_device() {
        return File::open(&rt, STANDARD_INPUT);
    }
    Err(Error::from_raw_os_error(ESPIPE))
}

// Of an input that has no place, for such a reason.
fn copy_without<'a>(input: Input<'a>, error: Error) -> Option<Input<'a>> {
    if error.kind() == ErrorKind::NotSeekable {
        return copy_of(&input);
    }
    input.complain(error);
    None
}

// Back to a place. Where that cannot be, standard error says why.
pub fn again(input: &Input, place: u64) -> Result<(), Unread> {
    match input
        .program
        .or_complain(input.name, go_to(&input.source, place))
    {
        Some(_) => Ok(()),
        None => Err(Unread { count: 0 }),
    }
}

pub fn go_to(source: &Source, place: u64) -> io::Result<u64> {
    match source {
        Source::Standard(stdin) => no_place(*stdin),
        Source::Named(file) => {
            let mut at = file;
            at.seek(SeekFrom::Start(place))
        }
    }
}

fn copy_of<'a>(input: &Input<'a>) -> Option<Input<'a>> {
    let program = input.program;
    hold_standard(program.rt);
    let copy = program.or_complain(&FOLDER, create_temp(program))?;
    fill_copy(input, copy)
}

fn fill_copy<'a>(input: &Input<'a>, copy: File) -> Option<Input<'a>> {
    let program = input.program;
    let mut block = [0u8; 65536];
    copy_rest(input, &copy, &mut block).ok()?;
    let source = Source::Named(copy);
    program.or_complain(&FOLDER, go_to(&source, 0))?;
    Some(Input {
        program,
        name: input.name,
        source,
    })
}

// A new file to write and read, whose name is gone again.
fn create_temp(program: Program) -> io::Result<File> {
    for tries in 0..MOST_TRIES {
        match create_by_chance(program, tries) {
            Ok(file) => return Ok(file),
            Err(e) => if e.kind() != ErrorKind::AlreadyExists {
                return Err(e);
            },
        }
    }
    create_by_chance(program, MOST_TRIES)
}

fn create_by_chance(program: Program, tries: u32) -> io::Result<File> {
    let mut path = *b"/tmp/sheet-XXXXXX";
    put_letters(program.rt, tries, &mut path[11..]);
    let file = create_new(program.rt, &path)?;
    if let Err(e) = remove_named(program.rt, &path) {
        program.complain(&path, e);
    }
    Ok(file)
}

// Letters or digits by chance; another choice with each try, even where there is no chance.
fn put_letters(rt: HostRuntime, tries: u32, letters: &mut [u8]) {
    let mut chance = [0u8; 8];
    let _ = rt.fill_bytes(&mut chance);
    let mut left = u64::from_le_bytes(chance).wrapping_add(u64::from(tries));
    for place in letters {
        *place = letter(left % 62);
        left /= 62;
    }
}

fn letter(k: u64) -> u8
    requires { k < 62 }
{
    let k = k as u8;
    if k < 26 {
        return b'a' + k;
    }
    if k < 52 {
        return b'A' + (k - 26);
    }
    b'0' + (k - 52)
}

// The file is its owner's alone.
fn create_new(rt: HostRuntime, path: &[u8]) -> io::Result<File> {
    let mut how = OpenOptions::new();
    how.read(true).write(true).create_new(true).mode(0o600);
    how.open(&rt, path_of(path)?)
}

fn remove_named(rt: HostRuntime, path: &[u8]) -> io::Result<()> {
    remove_file(&rt, path_of(path)?)
}

// Holds the numbers of standard streams that are closed, for the temporary file is not to have one of them: what goes to standard
// output or standard error would be written into it.
fn hold_standard(rt: HostRuntime) {
    for _ in 0..3 {
        if !hold_next(rt) {
            return;
        }
    }
}

// Whether there was one. It is held for reading, so that writing to it fails as it did.
fn hold_next(rt: HostRuntime) -> bool {
    match File::open(&rt, "/dev/null") {
        Ok(file) => {
            if STDERR_FILENO < file.as_raw_fd() {
                return false;
            }
            file.into_raw_fd();
            true
        }
        Err(_) => false,
    }
}

// What is left of the input, a block at a time, until a read brings less than a block. No run uses up so many blocks.
fn copy_rest(input: &Input, to: &File, block: &mut [u8]) -> Result<(), Stopped> {
    for _ in 0..u64::MAX {
        let count = input.fill(block)?;
        write_block(input.program, to, &block[..count])?;
        if count < block.len() {
            return Ok(());
        }
    }
    Err(Stopped::Unread)
}

fn write_block(program: Program, to: &File, block: &[u8]) -> Result<(), Unwritten> {
    let mut writer = to;
    program
        .or_complain(&FOLDER, writer.write_all(block))
        .ok_or(Unwritten)
}
