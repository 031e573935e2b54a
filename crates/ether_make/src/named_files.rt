//! Files in the file system.
ghost use Rattle.std.specs.Prelude.{◌≡◌, ⊤};

use crate::input_files::Inputs;
use std::alloc::Global;
use std::io::BufReader;
use std::rt::Files;
use std::{fs, io};

/// The files in the file system.
#[derive(Drop)]
pub struct NamedFiles<'a, F> {
    files: &'a F,
}

impl<'a, F> NamedFiles<'a, F> {
    /// All files.
    pub fn new(files: &'a F) -> Self
        ensures { result.files.now ≡ files.now }
    {
        NamedFiles { files }
    }
}

impl<F: Files> Inputs for NamedFiles<'_, F> {
    type Input = BufReader<F::File>;

    ghost has = { λ _ _ _. ⊤ };

    fn open_named(&self, alloc: Global, name: &str) -> io::Result<BufReader<F::File>> {
        match fs::open(self.files, name) {
            Ok(file) => BufReader::new(alloc, file),
            Err(error) => Err(error),
        }
    }
}
