//! Why a slice does not begin with a record of a capture file.
ghost use Rattle.std.specs.Prelude.{Some};
ghost use Rattle.ether_pcap.specs.Texts.{record_error_text};

use std::error::Error;
use std::fmt;

/// Why a slice does not begin with a record of a classic pcap file.
///
/// ```
/// let error = RecordError::Len {
///     required_len: 76,
///     len: 20,
/// };
/// assert_eq!(rt;
///     format!(in rt.alloc(); "{error}")?.as_str(),
///     "A record of a pcap file needs 76 byte(s); only 20 are available."
/// );
/// ```
#[derive(Clone, Copy, PartialEq, Eq, Debug)]
pub enum RecordError {
    /// The slice is too short.
    Len {
        /// The length of the record in bytes. If the slice ends within the record's header, this is the length of that
        /// header, 16.
        required_len: usize,
        /// The length of the slice.
        len: usize,
    },
    /// The record's header gives this captured length, which is above
    /// [`PcapRecord::MAX_CAPTURED_LEN`](crate::PcapRecord::MAX_CAPTURED_LEN).
    CapturedLen(u32),
}

impl fmt::Display for RecordError {
    ghost output = { λ error. Some (record_error_text error) };

    fn fmt<W: fmt::Write>(&self, f: &mut fmt::Formatter<W>) -> fmt::Result {
        match self {
            RecordError::Len { required_len, len } => write!(
                f,
                "A record of a pcap file needs {required_len} byte(s); only {len} are available."
            ),
            RecordError::CapturedLen(len) => write!(
                f,
                "A record of a pcap file cannot have {len} captured byte(s), the maximum is 262144."
            ),
        }
    }
}

impl Error for RecordError {}
