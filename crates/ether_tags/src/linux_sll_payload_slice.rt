//! A payload that a protocol type of cooked capture names.
ghost use Rattle.std.specs.Prelude.{⊤, ◌≡◌};

use crate::EtherPayloadSlice;
use ether_base::{EtherType, LenSource, LinuxSllProtocolType};
use std::alloc::AllocError;

/// The payload of a packet of Linux cooked capture v1, and the protocol type that names its protocol.
///
/// Payloads are compared and ordered field by field. Public fields are not checked against each other.
///
/// ```
/// let ipv4 = LinuxSllPayloadSlice {
///     protocol_type: LinuxSllProtocolType::EtherType(EtherType::IPV4),
///     payload: &[0x45],
/// };
/// let payload = EtherPayloadSlice {
///     ether_type: EtherType::IPV4,
///     len_source: LenSource::Slice,
///     payload: &[0x45],
/// };
/// assert_eq!(rt; EtherPayloadSlice::try_from(ipv4), Ok(payload));
/// ```
#[derive(Copy, PartialEq, Eq, PartialOrd, Ord, Hash, Debug)]
pub struct LinuxSllPayloadSlice<'a> {
    /// The protocol of the payload.
    pub protocol_type: LinuxSllProtocolType,
    /// The bytes of the payload alone, without the header.
    pub payload: &'a [u8],
}

// Written by hand, field by field: for a struct that borrows and has a field with a model, a copy of the whole is not
// proved.
impl<'a> Clone for LinuxSllPayloadSlice<'a> {
    ghost is_clone = { λ a b. b ≡ a };

    ghost is_infallible = { λ _. ⊤ };

    fn clone(&self) -> Result<Self, AllocError> {
        Ok(LinuxSllPayloadSlice {
            protocol_type: self.protocol_type,
            payload: self.payload,
        })
    }
}

/// Keeps the payload, with its ether type as protocol type. Its `len_source` is dropped.
impl<'a> From<EtherPayloadSlice<'a>> for LinuxSllPayloadSlice<'a> {
    ghost use Rattle.ether_base.specs.declared.linux_sll_protocol_type.LinuxSllProtocolType.TheVariants as protocols;

    ghost from_gives = { λ ether sll. (sll.protocol_type ≡ protocols.EtherType ether.ether_type)
        × (sll.payload.now ≡ ether.payload.now) };

    fn from(payload: EtherPayloadSlice<'a>) -> LinuxSllPayloadSlice<'a> {
        LinuxSllPayloadSlice {
            protocol_type: LinuxSllProtocolType::EtherType(payload.ether_type),
            payload: payload.payload,
        }
    }
}

/// Keeps the payload, with the number of an `EtherType` or `LinuxNonstandardEtherType` as ether type. Its `len_source`
/// is [`LenSource::Slice`]. Netlink, GRE and ignored protocols are refused.
impl<'a> TryFrom<LinuxSllPayloadSlice<'a>> for EtherPayloadSlice<'a> {
    type Error = ();

    ghost use Rattle.std.specs.Prelude.{MatchResult, Some, None};
    ghost use Rattle.ether_base.specs.declared.len_source.LenSource.TheVariants as sources;
    ghost use Rattle.ether_base.specs.Formats.LinuxSllProtocolType.{told_ether_type};

    ghost try_from_gives = { λ sll r. MatchResult r (λ ether. (told_ether_type sll.protocol_type ≡ Some ether.ether_type.0)
        × (ether.len_source ≡ sources.Slice) × (ether.payload.now ≡ sll.payload.now))
        (λ _. told_ether_type sll.protocol_type ≡ None) };

    fn try_from(payload: LinuxSllPayloadSlice<'a>) -> Result<EtherPayloadSlice<'a>, ()> {
        match payload.protocol_type {
            LinuxSllProtocolType::EtherType(_)
            | LinuxSllProtocolType::LinuxNonstandardEtherType(_) => Ok(EtherPayloadSlice {
                ether_type: EtherType(u16::from(payload.protocol_type)),
                len_source: LenSource::Slice,
                payload: payload.payload,
            }),
            _ => Err(()),
        }
    }
}
