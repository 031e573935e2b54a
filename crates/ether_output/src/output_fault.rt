//! The fault of a writer.
ghost use Rattle.std.specs.Prelude.{codes, Some};

use std::error::Error;
use std::fmt;

/// The writer of an [`OutputBuffer`](crate::OutputBuffer) has failed.
///
/// ```
/// assert_eq!(rt; format!(in rt.alloc(); "{OutputFault}")?.as_str(), "The writer has failed.");
/// ```
#[derive(Clone, Copy, PartialEq, Eq, Debug)]
pub struct OutputFault;

impl fmt::Display for OutputFault {
    ghost output = { λ _. Some (codes "The writer has failed.") };

    fn fmt<W: fmt::Write>(&self, f: &mut fmt::Formatter<W>) -> fmt::Result {
        write!(f, "The writer has failed.")
    }
}

impl Error for OutputFault {}
