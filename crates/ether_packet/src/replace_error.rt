//! Why a header is not replaced.
ghost use Rattle.std.specs.Prelude.{Some};
ghost use Rattle.ether_packet.specs.Texts.{replace_error_text};

use crate::Difference;
use std::error::Error;
use std::fmt;

/// Why a header is not replaced. The frame is then unchanged.
///
/// ```
/// assert_eq!(rt;
///     format!(in rt.alloc(); "{}", ReplaceError::NoLinkExt(1))?.as_str(),
///     "There is no VLAN tag or SecTag at this index: the frame has 1."
/// );
/// ```
#[derive(Clone, Copy, PartialEq, Eq, Debug)]
pub enum ReplaceError {
    /// The frame does not begin with a link's header that can be read.
    NoLink,
    /// There is no VLAN tag or SecTag at the index. The error names the number of VLAN tags and SecTags.
    NoLinkExt(usize),
    /// The frame has no ARP packet.
    NoArp,
    /// The new header differs from the one in the frame in its kind, in what it says about what follows it, or in the
    /// length of its addresses.
    SaysOther(Difference),
}

impl fmt::Display for ReplaceError {
    ghost output = { λ error. Some (replace_error_text error) };

    fn fmt<W: fmt::Write>(&self, f: &mut fmt::Formatter<W>) -> fmt::Result {
        match self {
            ReplaceError::NoLink => {
                f.write_str("The frame does not begin with the header of a link.")
            }
            ReplaceError::NoLinkExt(count) => write!(
                f,
                "There is no VLAN tag or SecTag at this index: the frame has {count}."
            ),
            ReplaceError::NoArp => f.write_str("The frame has no ARP packet."),
            ReplaceError::SaysOther(difference) => write!(
                f,
                "The header in the frame is another one in this: {difference}."
            ),
        }
    }
}

impl Error for ReplaceError {}
