//! Keeps copies in the file system.
ghost use Rattle.std.specs.Prelude.{◌≡◌, ⊤, None};

use crate::WriteFault;
use crate::copies::Copies;
use crate::units::{Form, WholeParts};
use std::alloc::{AllocError, Global};
use std::fs::{File, Metadata, OpenFile, OpenOptions};
use std::io::{ErrorKind, Write};
use std::os::unix::fs::{MetadataExt, lchown};
use std::path::{Path, PathBuf};
use std::rt::Files;
use std::{fs, io};

/// How many names are tried for a part: each run that was killed may have left one.
const MOST_PARTS: usize = 100;

/// Files that get copies.
#[derive(Drop)]
pub struct CopyFiles<'a, F> {
    files: &'a F,
    alloc: Global,
    form: Form,
    keeps_input: bool,
}

impl<'a, F: Files> CopyFiles<'a, F> {
    /// The copies of this form in all files. Standard input that is a regular file can be read again.
    pub fn new(files: &'a F, alloc: Global, form: Form) -> Self
        ensures files { result.files.now ≡ files.now }
        ensures form { result.form ≡ form }
    {
        let is_file = match fs::metadata(files, STANDARD_INPUT) {
            Ok(found) => found.is_file(),
            Err(_) => false,
        };
        CopyFiles {
            files,
            alloc,
            form,
            keeps_input: !is_file,
        }
    }
}

/// A copy that is being written: to a new file in the folder of the file that gets it. Or directly to what the name is
/// of, if that is not a regular file, as `/dev/null`, or if no file can be made in its folder.
#[derive(Drop)]
pub struct PartFile<W> {
    file: W,
    is_regular: bool,
    beside: Option<String>,
    parts: WholeParts,
    error: Option<io::Error>,
}

/// How many symbolic links are followed from one to the next, as many as Linux follows.
const MOST_LINKS: usize = 40;

/// The name of standard input among those of files, and its name for the system.
const INPUT_WORD: &str = "-";

const STANDARD_INPUT: &str = "/dev/stdin";

impl<W: Write> PartFile<W> {
    /// Tests that a whole packet, block or line was written.
    pub fn has_frames(&self) -> bool {
        self.parts.has_frames()
    }

    /// Keeps the error of a call, if it has failed, and returns what the call returned.
    fn note<V>(&mut self, answer: io::Result<V>) -> io::Result<V>
        ensures { result ≡ answer }
    {
        if let Err(error) = &answer {
            self.error = Some(*error);
        }
        answer
    }
}

impl<W: OpenFile> PartFile<W> {
    /// Waits until a regular file is on the disk.
    fn sync(&self) -> io::Result<()> {
        if self.is_regular {
            return self.file.sync_all();
        }
        Ok(())
    }

    /// Cuts a regular file after what was written whole.
    fn cut(&self) {
        if self.is_regular {
            let _ = self.file.set_len(self.parts.len());
        }
    }
}

impl<W: Write> Write for PartFile<W> {
    fn write(&mut self, buf: &[u8]) -> io::Result<usize> {
        let answer = self.file.write(buf);
        if let Ok(count) = answer {
            self.parts.take(&buf[..count]);
        }
        self.note(answer)
    }

    fn flush(&mut self) -> io::Result<()> {
        let answer = self.file.flush();
        self.note(answer)
    }
}

impl<F: Files> Copies for CopyFiles<'_, F> {
    type Part = PartFile<F::File>;

    ghost file = { λ _ _. None };

    ghost can_refuse = { λ _. ⊤ };

    ghost keeps_input = { λ copies. copies.keeps_input };

    fn keeps_input(&self) -> bool {
        self.keeps_input
    }

    fn begin(&mut self, name: &str, inputs: &[&str]) -> Result<PartFile<F::File>, WriteFault> {
        if name.is_empty() {
            return Err(WriteFault::NoName);
        }
        let Ok(found) = fs::metadata(self.files, name) else {
            return self.beside(self.followed(name)?.as_str());
        };
        if found.is_dir() {
            return Err(WriteFault::IsADirectory);
        }
        let existing = self.directly(name, found.is_file())?;
        if !found.is_file() {
            return Ok(existing);
        }
        match self.beside(self.followed(name)?.as_str()) {
            Ok(part) => {
                self.resemble(&part, &found);
                Ok(part)
            }
            Err(WriteFault::PermissionDenied) => self.in_place(existing, &found, inputs),
            Err(fault) => Err(fault),
        }
    }

    fn finish(&mut self, name: &str, part: PartFile<F::File>) -> Result<(), WriteFault> {
        let moved = match part.sync() {
            Ok(()) => self.rename(&part.beside, name),
            Err(error) => Err(error),
        };
        match moved {
            Ok(()) => Ok(()),
            Err(error) => {
                self.remove(&part.beside);
                Err(WriteFault::of(&error))
            }
        }
    }

    fn break_off(
        &mut self,
        name: &str,
        part: PartFile<F::File>,
        is_kept: bool,
    ) -> Result<(), WriteFault> {
        if is_kept && !part.parts.is_empty() {
            return self.finish(name, part);
        }
        self.remove(&part.beside);
        Ok(())
    }

    fn give_up(&mut self, name: &str, part: PartFile<F::File>, is_kept: bool) -> WriteFault {
        if is_kept && !part.parts.is_empty() {
            part.cut();
            let _ = part.sync();
            let _ = self.rename(&part.beside, name);
        } else {
            self.remove(&part.beside);
        }
        match &part.error {
            Some(error) => WriteFault::of(error),
            None => WriteFault::Other,
        }
    }
}

impl<F: Files> CopyFiles<'_, F> {
    /// Gives a part, if there is one, the name of its file, and waits until the folder is on the disk.
    fn rename(&self, part: &Option<String>, name: &str) -> io::Result<()> {
        let Some(part) = part else {
            return Ok(());
        };
        match self.followed(name) {
            Ok(path) => {
                fs::rename(self.files, part.as_str(), path.as_str())?;
                self.sync_folder(path.as_path());
                Ok(())
            }
            Err(_) => fs::rename(self.files, part.as_str(), name),
        }
    }

    /// Waits until the folder of a file is on the disk, if the system lets it be opened.
    fn sync_folder(&self, path: Path<'_>) {
        let folder = match path.parent() {
            Some(folder) if !folder.as_str().is_empty() => folder.as_str(),
            _ => ".",
        };
        if let Ok(folder) = fs::open(self.files, folder) {
            let _ = folder.sync_all();
        }
    }

    /// Gives a part the owner, the group and the permissions of the file that gets it, as far as the system lets it.
    fn resemble(&self, part: &PartFile<F::File>, found: &Metadata) {
        if let Some(beside) = &part.beside {
            let group = Some(found.gid());
            if lchown(self.files, beside.as_str(), Some(found.uid()), group).is_err() {
                let _ = lchown(self.files, beside.as_str(), None, group);
            }
        }
        let _ = part.file.set_permissions(found.permissions());
    }

    /// The name of the file to which symbolic links lead, also if that is not there. A name that is no link is returned
    /// as it is.
    fn followed(&self, name: &str) -> Result<PathBuf, WriteFault> {
        let Ok(mut path) = PathBuf::from_str(self.alloc, name) else {
            return Err(WriteFault::Other);
        };
        for _ in 0..MOST_LINKS {
            let Ok(next) = self.files.read_link(self.alloc, path.as_str()) else {
                return Ok(path);
            };
            path = match path.with_file_name(self.alloc, next.as_str()) {
                Ok(path) => path,
                Err(_) => return Err(WriteFault::Other),
            };
        }
        Err(WriteFault::Other)
    }

    /// Empties a file that gets a copy, unless it is among what is copied.
    fn in_place(
        &self,
        existing: PartFile<F::File>,
        found: &Metadata,
        inputs: &[&str],
    ) -> Result<PartFile<F::File>, WriteFault> {
        for input in inputs {
            if !self.is_other(input, found) {
                return Err(WriteFault::PermissionDenied);
            }
        }
        match existing.file.set_len(0) {
            Ok(()) => Ok(existing),
            Err(error) => Err(WriteFault::of(&error)),
        }
    }

    /// Tests that an input is another file than this one.
    fn is_other(&self, input: &str, found: &Metadata) -> bool {
        let name = if input == INPUT_WORD {
            STANDARD_INPUT
        } else {
            input
        };
        match fs::metadata(self.files, name) {
            Ok(read) => (read.dev(), read.ino()) != (found.dev(), found.ino()),
            Err(_) => false,
        }
    }

    /// Opens what exists under a name, to write to it directly.
    fn directly(&self, name: &str, is_regular: bool) -> Result<PartFile<F::File>, WriteFault> {
        match OpenOptions::new().write(true).open(self.files, name) {
            Ok(file) => Ok(PartFile {
                file,
                is_regular,
                beside: None,
                parts: WholeParts::new(self.form),
                error: None,
            }),
            Err(error) => Err(WriteFault::of(&error)),
        }
    }

    /// Creates a part in the folder of the file of a name.
    fn beside(&self, name: &str) -> Result<PartFile<F::File>, WriteFault> {
        for number in 0..MOST_PARTS {
            let Ok(part) = part_name(name, number, self.alloc) else {
                return Err(WriteFault::Other);
            };
            match File::create_new(self.files, part.as_str()) {
                Ok(file) => {
                    return Ok(PartFile {
                        file,
                        is_regular: true,
                        beside: Some(part),
                        parts: WholeParts::new(self.form),
                        error: None,
                    });
                }
                Err(error) if error.kind() == ErrorKind::AlreadyExists => (),
                Err(error) => return Err(WriteFault::of(&error)),
            }
        }
        Err(WriteFault::Other)
    }

    /// Removes the part of a copy, if there is one and that can be done.
    fn remove(&self, part: &Option<String>) {
        if let Some(part) = part {
            let _ = fs::remove_file(self.files, part.as_str());
        }
    }
}

/// The name of the part with this number, for the file of this name.
fn part_name(name: &str, number: usize, alloc: Global) -> Result<String, AllocError> {
    match number {
        0 => format!(in alloc; "{name}.part"),
        _ => format!(in alloc; "{name}.{number}.part"),
    }
}
