//! A view of a link extension and its payload.
ghost use Rattle.std.specs.Prelude.{◌≡◌};
ghost use Rattle.ether_tags.specs.LinkExt.{ext_header_view, ext_slice_len, ext_slice_header, HoldsExtPayload};

use crate::{EtherPayloadSlice, LinkExtHeader, MacsecSlice, SingleVlanSlice};

/// A view of a VLAN tag or a MACsec SecTag, and of its payload.
///
/// ```
/// let tag = SingleVlanSlice::from_slice(&[0xB1, 0x23, 0x08, 0x00, 0x45])?;
/// let ext = LinkExtSlice::Vlan(tag);
/// let payload = EtherPayloadSlice {
///     ether_type: EtherType::IPV4,
///     len_source: LenSource::Slice,
///     payload: &[0x45],
/// };
/// assert_eq!(rt; ext.header_len(), 4);
/// assert_eq!(rt; ext.ether_payload(), Some(payload));
/// ```
#[derive(Clone, PartialEq, Eq, Debug, Drop)]
pub enum LinkExtSlice<'a> {
    /// A VLAN tag and its payload.
    Vlan(SingleVlanSlice<'a>),
    /// A MACsec SecTag and its payload.
    Macsec(MacsecSlice<'a>),
}

impl<'a> LinkExtSlice<'a> {
    /// The length of the tag in bytes: 4 for a VLAN tag, 6 to 16 for a MACsec SecTag.
    pub fn header_len(&self) -> usize
        ensures { result ≡ ext_slice_len self.now }
    {
        match self {
            LinkExtSlice::Vlan(slice) => slice.header_len(),
            LinkExtSlice::Macsec(slice) => slice.header.header_len(),
        }
    }

    /// The tag as a value.
    pub fn to_header(&self) -> LinkExtHeader
        ensures { ext_header_view result ≡ ext_slice_header self.now }
    {
        match self {
            LinkExtSlice::Vlan(slice) => LinkExtHeader::Vlan(slice.to_header()),
            LinkExtSlice::Macsec(slice) => LinkExtHeader::Macsec(slice.header.to_header()),
        }
    }

    /// The payload and its ether type; `None` if a MACsec SecTag says that it is encrypted or changed.
    pub fn ether_payload(&self) -> Option<EtherPayloadSlice<'a>>
        ensures { HoldsExtPayload self.now result }
    {
        match self {
            LinkExtSlice::Vlan(slice) => Some(slice.payload()),
            LinkExtSlice::Macsec(slice) => slice.ether_payload(),
        }
    }
}
