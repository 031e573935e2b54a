//! Two VLAN tags as a value.
use crate::SingleVlanHeader;
use ether_base::EtherType;

/// Two VLAN tags (QinQ), the inner one right after the outer one.
///
/// Public fields are not checked against each other: the outer tag's ether type may be any, though in a frame it is the
/// TPID of the inner tag.
///
/// ```
/// let mut tags = DoubleVlanHeader::default();
/// tags.outer.vlan_id = VlanId::try_new(10)?;
/// tags.inner.vlan_id = VlanId::try_new(100)?;
/// tags.inner.ether_type = EtherType::IPV4;
/// assert_eq!(rt; tags.outer.to_bytes(), [0x00, 0x0A, 0x81, 0x00]);
/// assert_eq!(rt; tags.inner.to_bytes(), [0x00, 0x64, 0x08, 0x00]);
/// ```
#[derive(Clone, Copy, PartialEq, Eq, Debug)]
pub struct DoubleVlanHeader {
    /// The tag that comes first; its ether type is the TPID of the inner tag.
    pub outer: SingleVlanHeader,
    /// The tag after it; its ether type names the protocol of what follows both.
    pub inner: SingleVlanHeader,
}

impl Default for DoubleVlanHeader {
    ghost use Rattle.std.specs.Prelude.{◌≡◌};
    ghost use Rattle.ether_tags.specs.Vlan.{vlan_view};

    ghost is_default = { λ h. (vlan_view h.outer ≡ record { pcp = 0; dei = 0; vid = 0; ether_type = 0x8100 })
        × (vlan_view h.inner ≡ record { pcp = 0; dei = 0; vid = 0; ether_type = 0 }) };

    /// An outer tag with the ether type [`EtherType::VLAN_TAGGED_FRAME`], all else zero.
    fn default() -> DoubleVlanHeader {
        DoubleVlanHeader {
            outer: SingleVlanHeader {
                ether_type: EtherType::VLAN_TAGGED_FRAME,
                ..SingleVlanHeader::default()
            },
            inner: SingleVlanHeader::default(),
        }
    }
}
