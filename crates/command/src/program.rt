// A program as it runs: what all that reads a command line, complains or prints is told of it.
use std::rt::HostRuntime;

// rt      the system
// name    what it is called on standard error
// usage   its options and their values, as in "-o OUT --range LOW HIGH"
// help    what `--help` prints
#[derive(Clone, Copy)]
pub struct Program<'a> {
    pub rt: HostRuntime,
    pub name: &'a [u8],
    pub usage: &'a [u8],
    pub help: &'a [u8],
}

// Writing failed; standard error has said why.
#[derive(Clone, Copy)]
pub struct Unwritten;

// Reading failed when so many bytes had come; standard error has said why.
#[derive(Clone, Copy)]
pub struct Unread {
    pub count: usize,
}

// Where either may have failed.
#[derive(Clone, Copy)]
pub enum Stopped {
    Unread,
    Unwritten,
}

impl From<Unread> for Stopped {
    fn from(_unread: Unread) -> Stopped {
        Stopped::Unread
    }
}

impl From<Unwritten> for Stopped {
    fn from(_unwritten: Unwritten) -> Stopped {
        Stopped::Unwritten
    }
}
