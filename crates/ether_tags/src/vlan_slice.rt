//! A view of one VLAN tag or two, and the payload.
ghost use Rattle.std.specs.Prelude.{◌≡◌};

use crate::{DoubleVlanSlice, EtherPayloadSlice, SingleVlanSlice, VlanHeader};

/// A view of one VLAN tag or two, and of the payload of the last one.
///
/// ```
/// let bytes = [0xB1, 0x23, 0x08, 0x00, 0x45];
/// let tags = VlanSlice::SingleVlan(SingleVlanSlice::from_slice(&bytes)?);
/// assert_eq!(rt; tags.to_header().next_header(), EtherType::IPV4);
/// assert_eq!(rt; tags.payload().payload, [0x45].as_slice());
/// ```
#[derive(Clone, PartialEq, Eq, Debug, Drop)]
pub enum VlanSlice<'a> {
    /// One tag.
    SingleVlan(SingleVlanSlice<'a>),
    /// Two tags.
    DoubleVlan(DoubleVlanSlice<'a>),
}

impl<'a> VlanSlice<'a> {
    ghost use Rattle.std.specs.Prelude.{◌≡◌, length, slice_range};
    ghost use Rattle.ether_base.specs.declared.len_source.LenSource.TheVariants as sources;
    ghost use Rattle.ether_base.specs.Formats.Vlan.{vlan_of};
    ghost use Rattle.ether_tags.specs.Vlan.{header_tags, slice_tags, innermost};

    /// The tags as a value.
    pub fn to_header(&self) -> VlanHeader
        ensures { header_tags result ≡ slice_tags self.now }
    {
        match self {
            VlanSlice::SingleVlan(slice) => VlanHeader::Single(slice.to_header()),
            VlanSlice::DoubleVlan(slice) => VlanHeader::Double(slice.to_header()),
        }
    }

    /// The payload of the last tag and its ether type. Its `len_source` is `LenSource::Slice`.
    pub fn payload(&self) -> EtherPayloadSlice<'a>
        ensures ether_type { result.ether_type.0 ≡ (vlan_of (innermost self.now)).ether_type }
        ensures len_source { result.len_source ≡ sources.Slice }
        ensures bytes { result.payload.now
            ≡ slice_range (innermost self.now) 4 (length (innermost self.now)) }
    {
        match self {
            VlanSlice::SingleVlan(slice) => slice.payload(),
            VlanSlice::DoubleVlan(slice) => slice.payload(),
        }
    }
}
