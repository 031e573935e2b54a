//! Field values of a MACsec SecTag that are not allowed.
ghost use Rattle.std.specs.Prelude.{Some};
ghost use Rattle.ether_base.specs.Texts.MacsecErrors.{header_error_text};

use std::error::Error;
use std::fmt;

/// A field of a MACsec SecTag (IEEE 802.1AE) has a value that is not allowed.
///
/// ```
/// let error = HeaderError::UnexpectedVersion;
/// assert_eq!(rt;
///     format!(in rt.alloc(); "{error}")?.as_str(),
///     "MACsec Header Error: Encountered '1' as MACsec version in the MACsec SecTag header (must be '0')."
/// );
/// ```
#[derive(Clone, Copy, PartialEq, Eq, Hash, Debug)]
pub enum HeaderError {
    /// The version bit V is 1.
    UnexpectedVersion,
    /// The payload is unmodified and the short length is 1, though the ether type that it counts takes 2 bytes.
    InvalidUnmodifiedShortLen,
}

impl fmt::Display for HeaderError {
    ghost output = { λ error. Some (header_error_text error) };

    fn fmt<W: fmt::Write>(&self, f: &mut fmt::Formatter<W>) -> fmt::Result {
        match self {
            HeaderError::UnexpectedVersion => write!(
                f,
                "MACsec Header Error: Encountered '1' as MACsec version in the MACsec SecTag header (must be '0')."
            ),
            HeaderError::InvalidUnmodifiedShortLen => write!(
                f,
                "MACsec Header Error: Encountered '1' as MACsec short len in an unmodified packet (must be '0' or '2' or greater)."
            ),
        }
    }
}

impl Error for HeaderError {}
