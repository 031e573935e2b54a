//! A refused unit, as a struct of C.
ghost use Rattle.std.specs.Prelude.{◌≡◌, ◌-◌, if◌then◌else◌};
ghost use Rattle.ether_c.specs.Found.{c_fault, c_end};

use crate::numbers;
use ether_peel::{PeelError, PeelFault};
use etherparse::err::LenError;
use etherparse::err::linux_sll::HeaderError::{
    UnsupportedArpHardwareId, UnsupportedPacketTypeField,
};
use etherparse::err::macsec::HeaderError::{InvalidUnmodifiedShortLen, UnexpectedVersion};

/// A refused unit, or none: `etherpeel_fault` in C.
///
/// Each bit pattern is a value, so that C may pass memory that it has not written to.
#[repr(C)]
#[derive(Clone, Copy)]
pub struct EtherFault {
    /// The offset of the unit in bytes from the start of the frame.
    pub offset: usize,
    /// The length that the unit requires, in a length fault; else 0.
    pub required_len: usize,
    /// The length that is available to it, in a length fault; else 0.
    pub len: usize,
    /// The minimum number of further bytes that it needs, 0 if more bytes would not help.
    pub missing: usize,
    /// 0 none, 1 a length, 2 a packet type, 3 a hardware type, 4 the version of a SecTag, 5 its short length.
    pub kind: u32,
    /// The layer of a length fault; else 0.
    pub layer: u32,
    /// What gave the available or the required length, in a length fault; else 0.
    pub len_source: u32,
    /// The unsupported packet type of a cooked capture; else 0.
    pub packet_type: u16,
    /// The unsupported hardware type of a cooked capture; else 0.
    pub hardware_type: u16,
    /// 1 if bytes appended to the frame would lie outside the unit, else 0.
    pub closed: u8,
}

// as c/etherpeel.h lays it out
const _: () = prove!(size_of::<EtherFault>() == 56);

impl EtherFault {
    /// No fault.
    pub(crate) const NONE: EtherFault = EtherFault {
        offset: 0,
        required_len: 0,
        len: 0,
        missing: 0,
        kind: 0,
        layer: 0,
        len_source: 0,
        packet_type: 0,
        hardware_type: 0,
        closed: 0,
    };

    /// The fault in which a walk ended, or none.
    #[inline(always)]
    pub(crate) fn of_end(fault: &Option<PeelFault>) -> EtherFault
        ensures { result ≡ c_end fault.now }
    {
        match fault {
            Some(fault) => EtherFault::of(fault),
            None => EtherFault::NONE,
        }
    }

    /// The fault of a walk.
    #[inline(always)]
    pub(crate) fn of(fault: &PeelFault) -> EtherFault
        ensures { result ≡ c_fault fault.now }
    {
        let placed = EtherFault {
            offset: fault.offset,
            closed: u8::from(fault.closed),
            ..EtherFault::NONE
        };
        match &fault.error {
            PeelError::Len(error) => EtherFault {
                kind: 1,
                required_len: error.required_len,
                len: error.len,
                missing: missing(fault.closed, error),
                layer: numbers::layer(error.layer),
                len_source: numbers::len_source(error.len_source),
                ..placed
            },
            PeelError::LinuxSll(UnsupportedPacketTypeField { packet_type }) => EtherFault {
                kind: 2,
                packet_type: *packet_type,
                ..placed
            },
            PeelError::LinuxSll(UnsupportedArpHardwareId { arp_hardware_type }) => EtherFault {
                kind: 3,
                hardware_type: arp_hardware_type.0,
                ..placed
            },
            PeelError::Macsec(UnexpectedVersion) => EtherFault { kind: 4, ..placed },
            PeelError::Macsec(InvalidUnmodifiedShortLen) => EtherFault { kind: 5, ..placed },
        }
    }
}

/// The minimum number of further bytes that a unit with this length error needs, 0 if more bytes would not help.
#[inline(always)]
fn missing(is_closed: bool, error: &LenError) -> usize
    ensures { result ≡ (if is_closed then 0 else error.now.required_len - error.now.len) }
{
    if is_closed {
        0
    } else {
        error.required_len.saturating_sub(error.len)
    }
}
