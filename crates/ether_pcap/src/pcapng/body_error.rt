//! Why the body of a block can't be read.
ghost use Rattle.std.specs.Prelude.{Some};
ghost use Rattle.ether_pcap.specs.PcapngTexts.{body_error_text};

use std::error::Error;
use std::fmt;

/// Why the body of a block of a pcapng file can't be read.
///
/// ```
/// assert_eq!(rt;
///     format!(in rt.alloc(); "{}", BodyError::CapturedLen(262_145))?.as_str(),
///     "A block of a pcapng file cannot have 262145 captured byte(s), the maximum is 262144."
/// );
/// ```
#[derive(Clone, Copy, PartialEq, Eq, Debug)]
pub enum BodyError {
    /// The body is too short for its fields, or for its captured bytes.
    Len {
        /// The minimum length of the body in bytes.
        required_len: usize,
        /// The length of the body in bytes.
        len: usize,
    },
    /// The block gives this captured length, which is above
    /// [`PcapRecord::MAX_CAPTURED_LEN`](crate::PcapRecord::MAX_CAPTURED_LEN).
    CapturedLen(u32),
}

impl fmt::Display for BodyError {
    ghost output = { λ error. Some (body_error_text error) };

    fn fmt<W: fmt::Write>(&self, f: &mut fmt::Formatter<W>) -> fmt::Result {
        match self {
            BodyError::Len { required_len, len } => write!(
                f,
                "The body of a pcapng block needs {required_len} byte(s); it has {len}."
            ),
            BodyError::CapturedLen(len) => write!(
                f,
                "A block of a pcapng file cannot have {len} captured byte(s), the maximum is 262144."
            ),
        }
    }
}

impl Error for BodyError {}
