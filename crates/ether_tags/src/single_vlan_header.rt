//! A VLAN tag as a value.
ghost use Rattle.std.specs.Prelude.{ℕ, List, ◌++◌, ◌≡◌, length, slice_range, IfOk, IfErr, OnErr, ◌<◌};
ghost use Rattle.ether_base.specs.declared.len_source.LenSource.TheVariants as sources;
ghost use Rattle.ether_base.specs.Formats.Header as headers;
ghost use Rattle.ether_base.specs.Formats.Header.{Means};
ghost use Rattle.ether_base.specs.Formats.Kind as kinds;
ghost use Rattle.ether_base.specs.Formats.Refusal.{Accepts};
ghost use Rattle.ether_base.specs.Formats.RefusedLen.{IsRefusedLen};
ghost use Rattle.ether_base.specs.Formats.Vlan.{VlanValue, IsVlan, vlan_bytes, FitsVlan};
ghost use Rattle.ether_tags.specs.Vlan.{vlan_view};

use crate::SingleVlanHeaderSlice;
use crate::vlan_fields::{self, tag_control_of};
use ether_base::err::LenError;
use ether_base::{EtherType, VlanId, VlanPcp};

/// A VLAN tag (IEEE 802.1Q, 9.4): the tag control information (TCI) and the *next* ether type, 4 bytes on the wire.
///
/// The standard counts the tag protocol identifier (TPID), such as 0x8100, as the first two bytes of a tag. In a frame
/// it is at the place of the ether type of the layer before, so it is that layer's `ether_type` here, and the tag
/// begins after it:
///
/// ```text
///     layer before  |      SingleVlanHeader
///     +-------------+-------------+-----------------+
///     |    TPID     |     TCI     | next ether type |
///     +-------------+-------------+-----------------+
///              byte 0             2                 4
///
///     bit of the TCI  15      13  12  11             0
///                     +---------+-----+--------------+
///                     |   PCP   | DEI |     VID      |
///                     +---------+-----+--------------+
/// ```
///
/// A next ether type of at most 1500 is a length (IEEE 802.3, 3.2.6). It is passed through unchanged.
///
/// ```
/// let mut tag = SingleVlanHeader::from_bytes([0xB1, 0x23, 0x08, 0x00]);
/// assert_eq!(rt; tag.pcp.value(), 5);
/// assert!(rt; tag.drop_eligible_indicator);
/// assert_eq!(rt; tag.vlan_id.value(), 0x123);
/// assert_eq!(rt; tag.ether_type, EtherType::IPV4);
///
/// tag.vlan_id = VlanId::try_new(100)?;
/// assert_eq!(rt; tag.to_bytes(), [0xB0, 0x64, 0x08, 0x00]);
/// ```
#[derive(Clone, Copy, PartialEq, Eq, Debug, Default)]
pub struct SingleVlanHeader {
    /// The priority code point (PCP).
    pub pcp: VlanPcp,
    /// The drop eligible indicator (DEI): whether the frame may be dropped first under congestion.
    pub drop_eligible_indicator: bool,
    /// The VLAN identifier (VID).
    pub vlan_id: VlanId,
    /// The next ether type, which names the protocol of what follows the tag.
    pub ether_type: EtherType,
}

impl SingleVlanHeader {
    /// The length of TCI and next ether type in bytes.
    pub const LEN: usize = 4;

    /// The same as [`SingleVlanHeader::LEN`], under its older name.
    pub const SERIALIZED_SIZE: usize = 4;

    /// Reads the tag at the front of a slice, and returns it with the rest of the slice.
    ///
    /// # Errors
    ///
    /// The slice has fewer than 4 bytes: `required_len` is 4, `len` the slice's length, `len_source` is
    /// `LenSource::Slice`, `layer` is `Layer::VlanHeader` and `layer_start_offset` is 0.
    pub fn from_slice(slice: &[u8]) -> Result<(SingleVlanHeader, &[u8]), LenError>
        ensures accepted { IfOk result (λ answer. Accepts sources.Slice slice.now kinds.Vlan) }
        ensures value { IfOk result
            (λ answer. Means slice.now (headers.Vlan (vlan_view answer.0))) }
        ensures rest { IfOk result
            (λ answer. answer.1.now ≡ slice_range slice.now 4 (length slice.now)) }
        ensures refused { IfErr result (IsRefusedLen slice.now kinds.Vlan) }
        ensures short { OnErr result (length slice.now < 4) }
    {
        let header = SingleVlanHeaderSlice::from_slice(slice)?.to_header();
        Ok((header, &slice[SingleVlanHeader::LEN..]))
    }

    /// The same as [`SingleVlanHeader::from_slice`], under its older name.
    ///
    /// # Errors
    ///
    /// Those of [`SingleVlanHeader::from_slice`].
    pub fn read_from_slice(slice: &[u8]) -> Result<(SingleVlanHeader, &[u8]), LenError>
        ensures accepted { IfOk result (λ answer. Accepts sources.Slice slice.now kinds.Vlan) }
        ensures value { IfOk result
            (λ answer. Means slice.now (headers.Vlan (vlan_view answer.0))) }
        ensures rest { IfOk result
            (λ answer. answer.1.now ≡ slice_range slice.now 4 (length slice.now)) }
        ensures refused { IfErr result (IsRefusedLen slice.now kinds.Vlan) }
        ensures short { OnErr result (length slice.now < 4) }
    {
        SingleVlanHeader::from_slice(slice)
    }

    /// Reads the tag from its 4 bytes. Any 4 bytes are a tag.
    pub fn from_bytes(bytes: [u8; 4]) -> SingleVlanHeader
        ensures value { IsVlan bytes (vlan_view result) }
        ensures inverse { vlan_bytes (vlan_view result) ≡ bytes }
    {
        vlan_fields::header(&bytes)
    }

    /// The length of the tag in bytes, which is [`SingleVlanHeader::LEN`].
    pub fn header_len(&self) -> usize
        ensures { result ≡ 4 }
    {
        SingleVlanHeader::LEN
    }

    /// The bytes of the tag on the wire.
    pub fn to_bytes(&self) -> [u8; 4]
        ensures value { result ≡ vlan_bytes (vlan_view self.now) }
        ensures len { length result ≡ 4 }
        ensures fits { FitsVlan (vlan_view self.now) }
        ensures inverse { (v : VlanValue) → IsVlan result v → v ≡ vlan_view self.now }
        ensures accepted { (more : List ℕ) → Accepts sources.Slice (result ++ more) kinds.Vlan }
        ensures read_back { (more : List ℕ) (h : SingleVlanHeader)
            → Means (result ++ more) (headers.Vlan (vlan_view h)) → h ≡ self.now }
        ensures same { (h : SingleVlanHeader) → IsVlan result (vlan_view h) → h ≡ self.now }
    {
        let control = tag_control_of(self.pcp, self.drop_eligible_indicator, self.vlan_id);
        vlan_fields::bytes_of(control, self.ether_type.0)
    }
}
