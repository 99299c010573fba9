// A file to write to.
use crate::path::path_of;
use crate::program::Program;
use std::fs::File;
use std::io;
use std::rt::HostRuntime;

impl<'a> Program<'a> {
    // It is made, or overwritten; nothing where that fails, which is said on standard error.
    pub fn open_output(self, name: &[u8]) -> Option<File> {
        self.or_complain(name, create_named(self.rt, name))
    }
}

fn create_named(rt: HostRuntime, name: &[u8]) -> io::Result<File> {
    File::create(&rt, path_of(name)?)
}
