//! A view of a link's packet of either kind, or of its payload alone.
ghost use Rattle.std.specs.Prelude.{◌≡◌, MatchOption, Some, None};
ghost use Rattle.ether_sll.specs.Link.{link_value, header_value, link_protocol, link_source, link_payload};
ghost use Rattle.ether_base.specs.Formats.LinuxSllProtocolType.{told_ether_type};

use crate::{LinkHeader, LinuxSllSlice};
use ether_tags::{EtherPayloadSlice, Ethernet2Slice, LinuxSllPayloadSlice};

/// A view of a link's packet, of Ethernet II or Linux cooked capture v1, or of a payload without its header.
///
/// ```
/// let bytes = [0, 4, 0, 1, 0, 6, 2, 0, 0, 0, 0, 1, 0, 0, 0x08, 0x00, 0x45];
/// let link = LinkSlice::LinuxSll(LinuxSllSlice::from_slice(&bytes)?);
/// let payload = EtherPayloadSlice {
///     ether_type: EtherType::IPV4,
///     len_source: LenSource::Slice,
///     payload: &[0x45],
/// };
/// assert_eq!(rt; link.ether_payload(), Some(payload));
/// ```
#[derive(Clone, PartialEq, Eq, Debug, Drop)]
pub enum LinkSlice<'a> {
    /// An Ethernet II frame.
    Ethernet2(Ethernet2Slice<'a>),
    /// A packet of Linux cooked capture v1.
    LinuxSll(LinuxSllSlice<'a>),
    /// A payload with its ether type, without header.
    EtherPayload(EtherPayloadSlice<'a>),
    /// A payload with its protocol type of cooked capture, without header.
    LinuxSllPayload(LinuxSllPayloadSlice<'a>),
}

impl<'a> LinkSlice<'a> {
    /// The header as a value; `None` if this is a payload without header.
    pub fn to_header(&self) -> Option<LinkHeader>
        ensures { header_value result ≡ link_value self.now }
    {
        match self {
            LinkSlice::Ethernet2(slice) => Some(LinkHeader::Ethernet2(slice.to_header())),
            LinkSlice::LinuxSll(slice) => Some(LinkHeader::LinuxSll(slice.to_header())),
            LinkSlice::EtherPayload(_) | LinkSlice::LinuxSllPayload(_) => None,
        }
    }

    /// The payload and its ether type. `None` if its protocol type of cooked capture is not an `EtherType` or
    /// `LinuxNonstandardEtherType`, but a netlink, GRE or ignored protocol.
    pub fn ether_payload(&self) -> Option<EtherPayloadSlice<'a>>
        ensures { MatchOption result (told_ether_type (link_protocol self.now) ≡ None)
            (λ p. (told_ether_type (link_protocol self.now) ≡ Some p.ether_type.0)
            × (p.len_source ≡ link_source self.now) × (p.payload.now ≡ link_payload self.now)) }
    {
        match self {
            LinkSlice::Ethernet2(slice) => Some(slice.payload()),
            LinkSlice::EtherPayload(payload) => Some(*payload),
            LinkSlice::LinuxSll(_) | LinkSlice::LinuxSllPayload(_) => {
                EtherPayloadSlice::try_from(self.sll_payload()).ok()
            }
        }
    }

    /// The payload and its protocol type of cooked capture. For an Ethernet II frame or an [`EtherPayloadSlice`] that
    /// is `LinuxSllProtocolType::EtherType` with its ether type.
    pub fn sll_payload(&self) -> LinuxSllPayloadSlice<'a>
        ensures protocol { result.protocol_type ≡ link_protocol self.now }
        ensures bytes { result.payload.now ≡ link_payload self.now }
    {
        match self {
            LinkSlice::Ethernet2(slice) => LinuxSllPayloadSlice::from(slice.payload()),
            LinkSlice::LinuxSll(slice) => slice.payload(),
            LinkSlice::EtherPayload(payload) => LinuxSllPayloadSlice::from(*payload),
            LinkSlice::LinuxSllPayload(payload) => LinuxSllPayloadSlice {
                protocol_type: payload.protocol_type,
                payload: payload.payload,
            },
        }
    }
}
