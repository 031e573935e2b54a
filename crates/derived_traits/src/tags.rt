//! What callers know of the derived traits and of the constants, at each type of `ether_tags`. These functions are
//! proved and never run.
ghost use Rattle.std.specs.Prelude.{◌≡◌, ◌↔◌, ◌++◌, IsTrue, Some, map};
ghost use Rattle.std.specs.Hash as fed;
ghost use Rattle.ether_base.specs.Enumerations.Hashes.{protocol_type_fed};
ghost use Rattle.ether_base.specs.Formats.LinuxSllProtocolType.{protocol_number, protocol_place};
ghost use Rattle.ether_tags.specs.Hashes.{ether_payload_slice_fed, macsec_p_type_fed};
ghost use Rattle.std.specs.Ordering.{nat_cmp, on, then_cmp};
ghost use Rattle.std.specs.Cmp.Lexicographic.{slice_cmp};
ghost use Rattle.ether_base.specs.Enumerations.LenSource.{len_source_place};
ghost use Rattle.ether_tags.specs.Macsec.{SamePayload, SameTagged, tag_bytes};
ghost use Rattle.ether_tags.specs.LinkExt.{SameExt};
ghost use Rattle.ether_tags.specs.Ethernet2.{ethernet2_view};
ghost use Rattle.ether_base.specs.Formats.Vlan.{vlan_ether_types};
ghost use Rattle.ether_tags.specs.Vlan.{vlan_view};

use super::callers::partial_order_of;
use ether_base::EtherType;
use ether_tags::{
    DoubleVlanHeader, DoubleVlanSlice, EtherPayloadSlice, Ethernet2Header, Ethernet2HeaderSlice,
    Ethernet2Slice, LinkExtHeader, LinkExtSlice, LinuxSllPayloadSlice, MacsecHeader,
    MacsecHeaderSlice, MacsecPType, MacsecPayloadSlice, MacsecSlice, SingleVlanHeader,
    SingleVlanHeaderSlice, SingleVlanSlice, VlanHeader, VlanSlice,
};
use std::cmp::Ordering;
use std::hash::Hash;

/// A clone is `Ok` and equals its source.
pub fn clones()
    ensures ethernet2_header { let it = ⟦<Ethernet2Header as Clone>⟧ in
        (a b : _) → it.is_infallible a × (it.is_clone a b → b ≡ a) }
    ensures single_vlan_header { let it = ⟦<SingleVlanHeader as Clone>⟧ in
        (a b : _) → it.is_infallible a × (it.is_clone a b → b ≡ a) }
    ensures double_vlan_header { let it = ⟦<DoubleVlanHeader as Clone>⟧ in
        (a b : _) → it.is_infallible a × (it.is_clone a b → b ≡ a) }
    ensures vlan_header { let it = ⟦<VlanHeader as Clone>⟧ in
        (a b : _) → it.is_infallible a × (it.is_clone a b → b ≡ a) }
    ensures ethernet2_header_slice { let it = ⟦<Ethernet2HeaderSlice<'static> as Clone>⟧ in
        (a b : _) → it.is_infallible a × (it.is_clone a b → b ≡ a) }
    ensures ethernet2_slice { let it = ⟦<Ethernet2Slice<'static> as Clone>⟧ in
        (a b : _) → it.is_infallible a × (it.is_clone a b → b ≡ a) }
    ensures single_vlan_header_slice { let it = ⟦<SingleVlanHeaderSlice<'static> as Clone>⟧ in
        (a b : _) → it.is_infallible a × (it.is_clone a b → b ≡ a) }
    ensures single_vlan_slice { let it = ⟦<SingleVlanSlice<'static> as Clone>⟧ in
        (a b : _) → it.is_infallible a × (it.is_clone a b → b ≡ a) }
    ensures double_vlan_slice { let it = ⟦<DoubleVlanSlice<'static> as Clone>⟧ in
        (a b : _) → it.is_infallible a × (it.is_clone a b → b ≡ a) }
    ensures vlan_slice { let it = ⟦<VlanSlice<'static> as Clone>⟧ in
        (a b : _) → it.is_infallible a × (it.is_clone a b → b ≡ a) }
    ensures ether_payload_slice { let it = ⟦<EtherPayloadSlice<'static> as Clone>⟧ in
        (a b : _) → it.is_infallible a × (it.is_clone a b → b ≡ a) }
    ensures macsec_p_type { let it = ⟦<MacsecPType as Clone>⟧ in
        (a b : _) → it.is_infallible a × (it.is_clone a b → b ≡ a) }
    ensures macsec_header { let it = ⟦<MacsecHeader as Clone>⟧ in
        (a b : _) → it.is_infallible a × (it.is_clone a b → b ≡ a) }
    ensures link_ext_header { let it = ⟦<LinkExtHeader as Clone>⟧ in
        (a b : _) → it.is_infallible a × (it.is_clone a b → b ≡ a) }
    ensures macsec_header_slice { let it = ⟦<MacsecHeaderSlice<'static> as Clone>⟧ in
        (a b : _) → it.is_infallible a × (it.is_clone a b → b ≡ a) }
    ensures macsec_payload_slice { let it = ⟦<MacsecPayloadSlice<'static> as Clone>⟧ in
        (a b : _) → it.is_infallible a × (it.is_clone a b → b ≡ a) }
    ensures macsec_slice { let it = ⟦<MacsecSlice<'static> as Clone>⟧ in
        (a b : _) → it.is_infallible a × (it.is_clone a b → b ≡ a) }
    ensures link_ext_slice { let it = ⟦<LinkExtSlice<'static> as Clone>⟧ in
        (a b : _) → it.is_infallible a × (it.is_clone a b → b ≡ a) }
    ensures linux_sll_payload_slice { let it = ⟦<LinuxSllPayloadSlice<'static> as Clone>⟧ in
        (a b : _) → it.is_infallible a × (it.is_clone a b → b ≡ a) }
{}

/// `==` is equality. For views with a SecTag it is equality of their bytes and of all other fields.
pub fn equality()
    ensures ethernet2_header { (a b : _) → IsTrue (⟦<Ethernet2Header as PartialEq>⟧.eq a b) ↔ (a ≡ b) }
    ensures single_vlan_header { (a b : _) → IsTrue (⟦<SingleVlanHeader as PartialEq>⟧.eq a b) ↔ (a ≡ b) }
    ensures double_vlan_header { (a b : _) → IsTrue (⟦<DoubleVlanHeader as PartialEq>⟧.eq a b) ↔ (a ≡ b) }
    ensures vlan_header { (a b : _) → IsTrue (⟦<VlanHeader as PartialEq>⟧.eq a b) ↔ (a ≡ b) }
    ensures ethernet2_header_slice { (a b : _) → IsTrue (⟦<Ethernet2HeaderSlice<'static> as PartialEq>⟧.eq a b)
        ↔ (a ≡ b) }
    ensures ethernet2_slice { (a b : _) → IsTrue (⟦<Ethernet2Slice<'static> as PartialEq>⟧.eq a b) ↔ (a ≡ b) }
    ensures single_vlan_header_slice { (a b : _) → IsTrue (⟦<SingleVlanHeaderSlice<'static> as PartialEq>⟧.eq a b)
        ↔ (a ≡ b) }
    ensures single_vlan_slice { (a b : _) → IsTrue (⟦<SingleVlanSlice<'static> as PartialEq>⟧.eq a b) ↔ (a ≡ b) }
    ensures double_vlan_slice { (a b : _) → IsTrue (⟦<DoubleVlanSlice<'static> as PartialEq>⟧.eq a b) ↔ (a ≡ b) }
    ensures vlan_slice { (a b : _) → IsTrue (⟦<VlanSlice<'static> as PartialEq>⟧.eq a b) ↔ (a ≡ b) }
    ensures ether_payload_slice { (a b : _) → IsTrue (⟦<EtherPayloadSlice<'static> as PartialEq>⟧.eq a b)
        ↔ ((a.ether_type ≡ b.ether_type) × (a.len_source ≡ b.len_source) × (a.payload.now ≡ b.payload.now)) }
    ensures macsec_p_type { (a b : _) → IsTrue (⟦<MacsecPType as PartialEq>⟧.eq a b) ↔ (a ≡ b) }
    ensures macsec_header_slice { (a b : _) → IsTrue (⟦<MacsecHeaderSlice<'static> as PartialEq>⟧.eq a b)
        ↔ (tag_bytes a ≡ tag_bytes b) }
    ensures macsec_payload_slice { (a b : _) → IsTrue (⟦<MacsecPayloadSlice<'static> as PartialEq>⟧.eq a b)
        ↔ SamePayload a b }
    ensures macsec_header { (a b : _) → IsTrue (⟦<MacsecHeader as PartialEq>⟧.eq a b) ↔ (a ≡ b) }
    ensures link_ext_header { (a b : _) → IsTrue (⟦<LinkExtHeader as PartialEq>⟧.eq a b) ↔ (a ≡ b) }
    ensures macsec_slice { (a b : _) → IsTrue (⟦<MacsecSlice<'static> as PartialEq>⟧.eq a b) ↔ SameTagged a b }
    ensures link_ext_slice { (a b : _) → IsTrue (⟦<LinkExtSlice<'static> as PartialEq>⟧.eq a b) ↔ SameExt a b }
    ensures linux_sll_payload_slice { (a b : _) → IsTrue (⟦<LinuxSllPayloadSlice<'static> as PartialEq>⟧.eq a b)
        ↔ ((a.protocol_type ≡ b.protocol_type) × (a.payload.now ≡ b.payload.now)) }
{}

/// What the hash of each type feeds a hasher.
pub fn hashes()
    ensures ether_payload_slice { (a : _) → ⟦<EtherPayloadSlice<'static> as Hash>⟧.hash_input a
        ≡ ether_payload_slice_fed a }
    ensures macsec_p_type { (a : _) → ⟦<MacsecPType as Hash>⟧.hash_input a ≡ macsec_p_type_fed a }
    ensures linux_sll_payload_slice { (a : _) → ⟦<LinuxSllPayloadSlice<'static> as Hash>⟧.hash_input a
        ≡ protocol_type_fed a.protocol_type ++ fed.slice fed.u8 a.payload.now }
{}

/// Values are ordered field by field, in the order of the fields.
pub fn orders()
    ensures ether_payload_slice { (a b : _) → ⟦<EtherPayloadSlice<'static> as Ord>⟧.cmp a b
        ≡ then_cmp (on (λ p. p.ether_type.0) nat_cmp)
        (then_cmp (on (λ p. len_source_place p.len_source) nat_cmp)
        (on (λ p. p.payload.now) (slice_cmp nat_cmp))) a b }
    ensures linux_sll_payload_slice { (a b : _) → ⟦<LinuxSllPayloadSlice<'static> as Ord>⟧.cmp a b
        ≡ then_cmp (then_cmp (on (λ p. protocol_place p.protocol_type) nat_cmp)
        (on (λ p. protocol_number p.protocol_type) nat_cmp))
        (on (λ p. p.payload.now) (slice_cmp nat_cmp)) a b }
{}

pub fn partial_order_of_ether_payload_slices(
    a: &EtherPayloadSlice<'_>,
    b: &EtherPayloadSlice<'_>,
) -> Option<Ordering>
    ensures { result ≡ Some
        (then_cmp (on (λ p. p.ether_type.0) nat_cmp)
        (then_cmp (on (λ p. len_source_place p.len_source) nat_cmp)
        (on (λ p. p.payload.now) (slice_cmp nat_cmp))) a.now b.now) }
{
    partial_order_of(a, b)
}

pub fn partial_order_of_linux_sll_payload_slices(
    a: &LinuxSllPayloadSlice<'_>,
    b: &LinuxSllPayloadSlice<'_>,
) -> Option<Ordering>
    ensures { result ≡ Some
        (then_cmp (then_cmp (on (λ p. protocol_place p.protocol_type) nat_cmp)
        (on (λ p. protocol_number p.protocol_type) nat_cmp))
        (on (λ p. p.payload.now) (slice_cmp nat_cmp)) a.now b.now) }
{
    partial_order_of(a, b)
}

/// The default of each type that has one.
pub fn defaults()
    ensures ethernet2_header { (a : _) → ⟦<Ethernet2Header as Default>⟧.is_default a
        → ethernet2_view a ≡ record { destination = 0; source = 0; ether_type = 0 } }
    ensures single_vlan_header { (a : _) → ⟦<SingleVlanHeader as Default>⟧.is_default a
        → vlan_view a ≡ record { pcp = 0; dei = 0; vid = 0; ether_type = 0 } }
    ensures double_vlan_header { (a : _) → ⟦<DoubleVlanHeader as Default>⟧.is_default a
        → ((vlan_view a.outer ≡ record { pcp = 0; dei = 0; vid = 0; ether_type = 0x8100 })
        × (vlan_view a.inner ≡ record { pcp = 0; dei = 0; vid = 0; ether_type = 0 })) }
{}

pub fn vlan_ether_types() -> [EtherType; 3]
    ensures { map (λ ether_type. ether_type.0) result ≡ vlan_ether_types }
{
    VlanHeader::VLAN_ETHER_TYPES
}

pub fn lengths() -> (usize, usize, usize, usize, usize, usize)
    ensures { result ≡ (14, 14, 4, 4, 6, 16) }
{
    (
        Ethernet2Header::LEN,
        Ethernet2Header::SERIALIZED_SIZE,
        SingleVlanHeader::LEN,
        SingleVlanHeader::SERIALIZED_SIZE,
        MacsecHeader::MIN_LEN,
        MacsecHeader::MAX_LEN,
    )
}

pub fn read_back_ethernet2_header(header: Ethernet2Header) -> Ethernet2Header
    ensures { result ≡ header }
{
    Ethernet2Header::from_bytes(header.to_bytes())
}

pub fn read_back_single_vlan_header(header: SingleVlanHeader) -> SingleVlanHeader
    ensures { result ≡ header }
{
    SingleVlanHeader::from_bytes(header.to_bytes())
}
