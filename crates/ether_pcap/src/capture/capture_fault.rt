//! Why the packets of a capture file end before the file does.
ghost use Rattle.std.specs.Prelude.{Some};
ghost use Rattle.ether_pcap.specs.CaptureTexts.{capture_fault_text};

use crate::CaptureError;
use std::error::Error;
use std::fmt;

/// Why the packets of a capture file end before the file does, and where.
///
/// ```
/// let fault = CaptureFault {
///     offset: 24,
///     error: CaptureError::NoInterface(3),
/// };
/// assert_eq!(rt;
///     format!(in rt.alloc(); "{fault}")?.as_str(),
///     "At byte 24: A packet of a pcapng file names interface 3, which its section does not describe."
/// );
/// ```
#[derive(Clone, Copy, PartialEq, Eq, Debug)]
pub struct CaptureFault {
    /// The offset in bytes, from the start of the file, of the file header, record or block that can't be read.
    pub offset: usize,
    /// Why it can't be read.
    pub error: CaptureError,
}

impl fmt::Display for CaptureFault {
    ghost output = { λ fault. Some (capture_fault_text fault) };

    fn fmt<W: fmt::Write>(&self, f: &mut fmt::Formatter<W>) -> fmt::Result {
        let offset = self.offset;
        let error = &self.error;
        write!(f, "At byte {offset}: {error}")
    }
}

impl Error for CaptureFault {}
