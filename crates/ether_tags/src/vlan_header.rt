//! One VLAN tag or two, as a value.
use crate::{DoubleVlanHeader, SingleVlanHeader};
use ether_base::EtherType;

/// One VLAN tag or two.
///
/// ```
/// let outer = SingleVlanHeader::from_bytes([0x00, 0x0A, 0x81, 0x00]);
/// let inner = SingleVlanHeader::from_bytes([0x00, 0x64, 0x08, 0x00]);
/// let tags = VlanHeader::Double(DoubleVlanHeader { outer, inner });
/// assert!(rt; VlanHeader::VLAN_ETHER_TYPES.contains(&outer.ether_type));
/// assert_eq!(rt; tags.next_header(), EtherType::IPV4);
/// ```
#[derive(Clone, Copy, PartialEq, Eq, Debug)]
pub enum VlanHeader {
    /// One tag.
    Single(SingleVlanHeader),
    /// Two tags.
    Double(DoubleVlanHeader),
}

impl VlanHeader {
    ghost use Rattle.std.specs.Prelude.{◌≡◌};
    ghost use Rattle.ether_tags.specs.Vlan.{next_type};

    /// The TPIDs, which are the ether types that announce a VLAN tag: 0x8100 of a customer tag, 0x88A8 of a service
    /// tag, and 0x9100, which some devices sent before service tags had a number.
    pub const VLAN_ETHER_TYPES: [EtherType; 3] = [
        EtherType::VLAN_TAGGED_FRAME,
        EtherType::PROVIDER_BRIDGING,
        EtherType::VLAN_DOUBLE_TAGGED_FRAME,
    ];

    /// The ether type of the last tag, which names the protocol of what follows the tags.
    pub fn next_header(&self) -> EtherType
        ensures { result.0 ≡ next_type self.now }
    {
        match self {
            VlanHeader::Single(header) => header.ether_type,
            VlanHeader::Double(header) => header.inner.ether_type,
        }
    }
}
