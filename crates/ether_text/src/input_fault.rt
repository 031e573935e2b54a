//! The fault of a reader.
ghost use Rattle.std.specs.Prelude.{codes, Some};

use std::error::Error;
use std::fmt;

/// A read by an [`InputReader`](crate::InputReader) failed: its reader did, or did not end within `u64::MAX` reads, or
/// text waited for the writer.
///
/// ```
/// assert_eq!(rt; format!(in rt.alloc(); "{InputFault}")?.as_str(), "The reader has failed.");
/// ```
#[derive(Clone, Copy, PartialEq, Eq, Debug)]
pub struct InputFault;

impl fmt::Display for InputFault {
    ghost output = { λ _. Some (codes "The reader has failed.") };

    fn fmt<W: fmt::Write>(&self, f: &mut fmt::Formatter<W>) -> fmt::Result {
        write!(f, "The reader has failed.")
    }
}

impl Error for InputFault {}
