//! Whether an input is the file that standard output is.
ghost use Rattle.std.specs.Prelude.{◌≡◌};

use std::fs::Metadata;
use std::io::Read;
use std::os::unix::fs::MetadataExt;
use std::rt::Files;
use std::{fs, io};

/// The names of standard input and standard output for the system.
const STANDARD_INPUT: &str = "/dev/stdin";

const STANDARD_OUTPUT: &str = "/dev/stdout";

/// Standard output, if it is a regular file. What reads that file reads what is written, without end.
#[derive(Clone, Copy, PartialEq, Eq, Debug)]
pub struct OwnOutput {
    file: Option<(u64, u64)>,
}

impl OwnOutput {
    /// Standard output.
    pub fn new(files: &impl Files) -> Self {
        let file = match fs::metadata(files, STANDARD_OUTPUT) {
            Ok(found) if found.is_file() => Some((found.dev(), found.ino())),
            _ => None,
        };
        OwnOutput { file }
    }

    /// Tests that a file is this one.
    pub fn is(&self, found: &Metadata) -> bool {
        self.file == Some((found.dev(), found.ino()))
    }

    /// Tests that the file of a name is this one and has bytes.
    pub fn is_named(&self, files: &impl Files, name: &str) -> bool {
        match fs::metadata(files, name) {
            Ok(found) => found.len() > 0 && self.is(&found),
            Err(_) => false,
        }
    }

    /// Tests that standard input is this file and has bytes.
    pub fn is_input(&self, files: &impl Files) -> bool {
        self.is_named(files, STANDARD_INPUT)
    }

    /// A reader of standard input, which fails if that is this file and has bytes.
    pub fn guard<R>(&self, files: &impl Files, input: R) -> Guarded<R>
        ensures { result.stream ≡ input }
    {
        let is_output = self.is_input(files);
        Guarded {
            stream: input,
            is_output,
        }
    }
}

/// A reader that fails if there is something to read of the file that standard output is.
#[derive(Drop)]
pub struct Guarded<R> {
    stream: R,
    is_output: bool,
}

impl<R: Read> Read for Guarded<R> {
    fn read(&mut self, buf: &mut [u8]) -> io::Result<usize> {
        let count = self.stream.read(buf)?;
        if count > 0 && self.is_output {
            return Err(io::Error::other("it is the output, too"));
        }
        Ok(count)
    }
}
