//! What a program reads.

ghost use Rattle.std.specs.Io.{ReadsAtMost};

use std::fs;
use std::fs::{File, Files};
use std::io::{Error, ErrorKind, Read, Result};

/// What a program reads: standard input, or a file in its place. No clause sees its bytes.
#[derive(Drop)]
pub enum Input<I, F> {
    /// Standard input.
    Standard(I),
    /// A file.
    File(F),
}

impl<I: Read + Drop, F: Read> Input<I, F> {
    /// Standard input, or the file of this name, if there is one.
    ///
    /// # Errors
    ///
    /// The file can't be opened, or it is a directory.
    pub fn open<S: Files<File = F>>(
        system: &S,
        standard: I,
        file: Option<&str>,
    ) -> Result<Input<I, F>> {
        match file {
            Some(name) if fs::metadata(system, name)?.is_dir() => {
                Err(Error::from(ErrorKind::IsADirectory))
            }
            Some(name) => Ok(Input::File(File::open(system, name)?)),
            None => Ok(Input::Standard(standard)),
        }
    }
}

impl<I: Read, F: Read> Read for Input<I, F> {
    fn read(&mut self, buf: &mut [u8]) -> Result<usize>
        ensures bound { ReadsAtMost result buf.new }
    {
        match self {
            Input::Standard(input) => input.read(buf),
            Input::File(file) => file.read(buf),
        }
    }
}
