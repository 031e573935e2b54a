//! Standard streams that are closed.

use std::fs::{File, OpenOptions};
use std::os::fd::AsFd;
use std::rt::Files;

/// What has no end to read, and takes all that is written.
const NOTHING: &str = "/dev/null";

/// Where a standard stream is closed, opens what can't be used in its place: what can't be read in place of the input,
/// and what can't be written in place of another one. So its use fails, and no other file gets its number, as long as
/// this is held. The streams with lower numbers are open or held.
pub fn hold<S: AsFd, F: Files>(stream: &S, files: &F, is_input: bool) -> Option<F::File> {
    if stream.as_fd().try_clone_to_owned().is_ok() {
        return None;
    }
    let opened = if is_input {
        OpenOptions::new().write(true).open(files, NOTHING)
    } else {
        File::open(files, NOTHING)
    };
    opened.ok()
}
