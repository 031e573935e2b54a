//! The result of feeding a walk, as a struct of C.
ghost use Rattle.std.specs.Prelude.{◌≡◌};
ghost use Rattle.ether_c.specs.Found.{c_feed};

use crate::EtherFault;
use ether_peel::Feed;

/// The result of feeding a walk: `etherpeel_fed` in C.
///
/// Each bit pattern is a value, so that C may pass memory that it has not written to.
#[repr(C)]
#[derive(Clone, Copy)]
pub struct EtherFed {
    /// The number of times that the walk asked for more bytes and was given them.
    pub refusals: usize,
    /// The number of bytes that it was given in all.
    pub taken: usize,
    /// The fault of the walk of these bytes, if there is one.
    pub fault: EtherFault,
}

// as c/etherpeel.h lays it out
const _: () = prove!(size_of::<EtherFed>() == 72);

impl EtherFed {
    /// The result of feeding a walk.
    #[inline(always)]
    pub(crate) fn of(fed: &Feed) -> EtherFed
        ensures { result ≡ c_feed fed.now }
    {
        EtherFed {
            refusals: fed.refusals,
            taken: fed.taken,
            fault: EtherFault::of_end(&fed.fault),
        }
    }
}
