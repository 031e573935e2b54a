//! Why a header is not replaced, as a struct of C.
ghost use Rattle.std.specs.Prelude.{◌≡◌};
ghost use Rattle.ether_c.specs.Replacing.{c_replace_error, replace_error_status, difference_number};

use crate::statuses::{DIFFERS, NO_ARP, NO_LINK, NO_TAG};
use ether_packet::{Difference, ReplaceError};

/// Why a header is not replaced, in addition to the status: `etherpeel_replace_error` in C.
///
/// Each bit pattern is a value, so that C may pass memory that it has not written to.
#[repr(C)]
#[derive(Clone, Copy)]
pub struct EtherReplaceError {
    /// The number of VLAN tags and SecTags in the frame, if there is none at the index; else 0.
    pub tags: usize,
    /// The number of the first difference between the header and the one in the frame; 0 if there is none.
    pub difference: u32,
}

// as c/etherpeel.h lays it out
const _: () = prove!(size_of::<EtherReplaceError>() == 16);

impl EtherReplaceError {
    /// The error as a struct of C.
    pub(crate) fn of(error: &ReplaceError) -> EtherReplaceError
        ensures { result ≡ c_replace_error error.now }
    {
        let (tags, difference) = match error {
            ReplaceError::NoLink | ReplaceError::NoArp => (0, 0),
            ReplaceError::NoLinkExt(count) => (*count, 0),
            ReplaceError::SaysOther(difference) => (0, difference_number(*difference)),
        };
        EtherReplaceError { tags, difference }
    }
}

/// The status for an error.
pub(crate) fn status(error: &ReplaceError) -> u32
    ensures { result ≡ replace_error_status error.now }
{
    match error {
        ReplaceError::NoLink => NO_LINK,
        ReplaceError::NoLinkExt(_) => NO_TAG,
        ReplaceError::NoArp => NO_ARP,
        ReplaceError::SaysOther(_) => DIFFERS,
    }
}

/// The number of a difference between headers.
fn difference_number(difference: Difference) -> u32
    ensures { result ≡ difference_number difference }
{
    match difference {
        Difference::Kind => 1,
        Difference::EtherType => 2,
        Difference::HardwareType => 3,
        Difference::ProtocolType => 4,
        Difference::PayloadType => 5,
        Difference::ShortLen => 6,
        Difference::Sci => 7,
        Difference::HwAddrLen => 8,
        Difference::ProtocolAddrLen => 9,
    }
}
