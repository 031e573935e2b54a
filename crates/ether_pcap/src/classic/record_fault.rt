//! Why the records of a file end before the file does.
ghost use Rattle.std.specs.Prelude.{Some};
ghost use Rattle.ether_pcap.specs.Texts.{record_fault_text};

use crate::RecordError;
use std::error::Error;
use std::fmt;

/// Why the records of a file end before the file does, and where.
///
/// ```
/// let fault = RecordFault {
///     offset: 24,
///     error: RecordError::Len {
///         required_len: 16,
///         len: 3,
///     },
/// };
/// assert_eq!(rt;
///     format!(in rt.alloc(); "{fault}")?.as_str(),
///     "At byte 24: A record of a pcap file needs 16 byte(s); only 3 are available."
/// );
/// ```
#[derive(Clone, Copy, PartialEq, Eq, Debug)]
pub struct RecordFault {
    /// The offset of the record, from the start of the file.
    pub offset: usize,
    /// Why it can't be read.
    pub error: RecordError,
}

impl fmt::Display for RecordFault {
    ghost output = { λ fault. Some (record_fault_text fault) };

    fn fmt<W: fmt::Write>(&self, f: &mut fmt::Formatter<W>) -> fmt::Result {
        let offset = self.offset;
        let error = &self.error;
        write!(f, "At byte {offset}: {error}")
    }
}

impl Error for RecordFault {}
