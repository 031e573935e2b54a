//! All headers of a packet, as a struct of C.

use crate::{EtherFound, EtherUnit};

/// All headers of a packet: `etherpeel_headers` in C.
///
/// Each bit pattern is a value, so that C may pass memory that it has not written to.
#[repr(C)]
#[derive(Clone, Copy)]
pub struct EtherHeaders {
    /// The headers, outermost first.
    pub units: [EtherUnit; 5],
    /// The number of headers, the window after them, and the fault if a header is refused.
    pub found: EtherFound,
    /// The least length to which the frame can be cut without losing a header.
    pub min_snap_len: usize,
    /// The identifiers of the VLAN tags, outermost first, followed by zeros.
    pub vlan_ids: [u16; 3],
    /// The number of VLAN tags.
    pub vlan_count: u16,
}

// as c/etherpeel.h lays it out
const _: () = prove!(size_of::<EtherHeaders>() == 824);
