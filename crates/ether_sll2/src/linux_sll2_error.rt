//! Why bytes do not begin with a header of Linux cooked capture v2.
ghost use Rattle.std.specs.Prelude.{Some};
ghost use Rattle.ether_sll2.specs.Texts.{linux_sll2_error_text};

use std::error::Error;
use std::fmt;

/// Why bytes do not begin with a header of Linux cooked capture v2.
///
/// ```
/// let error = LinuxSll2Error::Len {
///     required_len: 20,
///     len: 19,
/// };
/// assert_eq!(rt;
///     format!(in rt.alloc(); "{error}")?.as_str(),
///     "A header of Linux cooked capture v2 needs 20 byte(s); only 19 are available."
/// );
/// ```
#[derive(Clone, Copy, PartialEq, Eq, Debug)]
pub enum LinuxSll2Error {
    /// The slice is too short.
    Len {
        /// The length of the header in bytes, 20.
        required_len: usize,
        /// The length of the slice in bytes.
        len: usize,
    },
    /// The packet type of the header, which is above 7,
    /// [`LinuxSllPacketType::MAX_VAL`](ether_base::LinuxSllPacketType::MAX_VAL).
    PacketType(u8),
}

impl fmt::Display for LinuxSll2Error {
    ghost output = { λ error. Some (linux_sll2_error_text error) };

    fn fmt<W: fmt::Write>(&self, f: &mut fmt::Formatter<W>) -> fmt::Result {
        match self {
            LinuxSll2Error::Len { required_len, len } => write!(
                f,
                "A header of Linux cooked capture v2 needs {required_len} byte(s); only {len} are available."
            ),
            LinuxSll2Error::PacketType(packet_type) => write!(
                f,
                "The packet type {packet_type} of a header of Linux cooked capture v2 is not supported, the maximum is 7."
            ),
        }
    }
}

impl Error for LinuxSll2Error {}
