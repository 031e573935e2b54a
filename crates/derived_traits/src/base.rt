//! What the traits of the numbers, names and errors of `ether_base` mean. A function without arguments has a clause
//! for each type, on all its values.
mod constants;
mod texts;

ghost use Rattle.std.specs.Prelude.{◌≡◌, ◌↔◌, IsTrue};
ghost use Rattle.std.specs.Hash as fed;
ghost use Rattle.std.specs.Ordering.{nat_cmp, on, then_cmp};
ghost use Rattle.ether_base.specs.Enumerations.Hashes.{arp_eth_ipv4_from_error_fed, arp_new_error_fed, header_slice_error_fed, hw_addr_error_fed, layer_fed, len_error_fed, len_source_fed, linux_sll_header_error_fed, macsec_header_error_fed, proto_addr_error_fed, protocol_type_fed, slice_write_space_error_fed, value_too_big_error_fed, value_type_fed};
ghost use Rattle.ether_base.specs.Enumerations.LenSource.{len_source_place};
ghost use Rattle.ether_base.specs.Enumerations.Layer.{layer_place};
ghost use Rattle.ether_base.specs.Enumerations.ValueType.{value_type_place};
ghost use Rattle.ether_base.specs.Formats.LinuxSllProtocolType.{protocol_place, protocol_number};

use ether_base::err::arp::{ArpEthIpv4FromError, ArpHwAddrError, ArpNewError, ArpProtoAddrError};
use ether_base::err::{
    Layer, LenError, SliceWriteSpaceError, ValueTooBigError, ValueType, linux_sll, macsec,
};
use ether_base::{
    ArpHardwareId, ArpOperation, EtherType, LenSource, LinuxNonstandardEtherType,
    LinuxSllPacketType, LinuxSllProtocolType, MacsecAn, MacsecShortLen, VlanId, VlanPcp,
};
use std::hash::Hash;

/// A clone is `Ok` and equals its source.
pub fn clones()
    ensures vlan_id { let it = ⟦<VlanId as Clone>⟧ in (a b : _) → it.is_infallible a × (it.is_clone a b → b ≡ a) }
    ensures vlan_pcp { let it = ⟦<VlanPcp as Clone>⟧ in (a b : _) → it.is_infallible a × (it.is_clone a b → b ≡ a) }
    ensures macsec_an { let it = ⟦<MacsecAn as Clone>⟧ in (a b : _) → it.is_infallible a × (it.is_clone a b → b ≡ a) }
    ensures macsec_short_len { let it = ⟦<MacsecShortLen as Clone>⟧ in
        (a b : _) → it.is_infallible a × (it.is_clone a b → b ≡ a) }
    ensures ether_type { let it = ⟦<EtherType as Clone>⟧ in
        (a b : _) → it.is_infallible a × (it.is_clone a b → b ≡ a) }
    ensures arp_hardware_id { let it = ⟦<ArpHardwareId as Clone>⟧ in
        (a b : _) → it.is_infallible a × (it.is_clone a b → b ≡ a) }
    ensures arp_operation { let it = ⟦<ArpOperation as Clone>⟧ in
        (a b : _) → it.is_infallible a × (it.is_clone a b → b ≡ a) }
    ensures linux_nonstandard_ether_type { let it = ⟦<LinuxNonstandardEtherType as Clone>⟧ in
        (a b : _) → it.is_infallible a × (it.is_clone a b → b ≡ a) }
    ensures linux_sll_packet_type { let it = ⟦<LinuxSllPacketType as Clone>⟧ in
        (a b : _) → it.is_infallible a × (it.is_clone a b → b ≡ a) }
    ensures linux_sll_protocol_type { let it = ⟦<LinuxSllProtocolType as Clone>⟧ in
        (a b : _) → it.is_infallible a × (it.is_clone a b → b ≡ a) }
    ensures len_source { let it = ⟦<LenSource as Clone>⟧ in
        (a b : _) → it.is_infallible a × (it.is_clone a b → b ≡ a) }
    ensures layer { let it = ⟦<Layer as Clone>⟧ in (a b : _) → it.is_infallible a × (it.is_clone a b → b ≡ a) }
    ensures value_type { let it = ⟦<ValueType as Clone>⟧ in
        (a b : _) → it.is_infallible a × (it.is_clone a b → b ≡ a) }
    ensures len_error { let it = ⟦<LenError as Clone>⟧ in (a b : _) → it.is_infallible a × (it.is_clone a b → b ≡ a) }
    ensures slice_write_space_error { let it = ⟦<SliceWriteSpaceError as Clone>⟧ in
        (a b : _) → it.is_infallible a × (it.is_clone a b → b ≡ a) }
    ensures arp_hw_addr_error { let it = ⟦<ArpHwAddrError as Clone>⟧ in
        (a b : _) → it.is_infallible a × (it.is_clone a b → b ≡ a) }
    ensures arp_proto_addr_error { let it = ⟦<ArpProtoAddrError as Clone>⟧ in
        (a b : _) → it.is_infallible a × (it.is_clone a b → b ≡ a) }
    ensures arp_new_error { let it = ⟦<ArpNewError as Clone>⟧ in
        (a b : _) → it.is_infallible a × (it.is_clone a b → b ≡ a) }
    ensures arp_eth_ipv4_from_error { let it = ⟦<ArpEthIpv4FromError as Clone>⟧ in
        (a b : _) → it.is_infallible a × (it.is_clone a b → b ≡ a) }
    ensures linux_sll_header_error { let it = ⟦<linux_sll::HeaderError as Clone>⟧ in
        (a b : _) → it.is_infallible a × (it.is_clone a b → b ≡ a) }
    ensures linux_sll_header_slice_error { let it = ⟦<linux_sll::HeaderSliceError as Clone>⟧ in
        (a b : _) → it.is_infallible a × (it.is_clone a b → b ≡ a) }
    ensures macsec_header_error { let it = ⟦<macsec::HeaderError as Clone>⟧ in
        (a b : _) → it.is_infallible a × (it.is_clone a b → b ≡ a) }
    ensures macsec_header_slice_error { let it = ⟦<macsec::HeaderSliceError as Clone>⟧ in
        (a b : _) → it.is_infallible a × (it.is_clone a b → b ≡ a) }
    ensures value_too_big_error_of_u16 { let it = ⟦<ValueTooBigError<u16> as Clone>⟧ in
        (a b : _) → it.is_infallible a × (it.is_clone a b → b ≡ a) }
    ensures value_too_big_error_of_u8 { let it = ⟦<ValueTooBigError<u8> as Clone>⟧ in
        (a b : _) → it.is_infallible a × (it.is_clone a b → b ≡ a) }
{}

/// `==` is equality.
pub fn equality()
    ensures vlan_id { (a b : _) → IsTrue (⟦<VlanId as PartialEq>⟧.eq a b) ↔ (a ≡ b) }
    ensures vlan_pcp { (a b : _) → IsTrue (⟦<VlanPcp as PartialEq>⟧.eq a b) ↔ (a ≡ b) }
    ensures macsec_an { (a b : _) → IsTrue (⟦<MacsecAn as PartialEq>⟧.eq a b) ↔ (a ≡ b) }
    ensures macsec_short_len { (a b : _) → IsTrue (⟦<MacsecShortLen as PartialEq>⟧.eq a b) ↔ (a ≡ b) }
    ensures ether_type { (a b : _) → IsTrue (⟦<EtherType as PartialEq>⟧.eq a b) ↔ (a ≡ b) }
    ensures arp_hardware_id { (a b : _) → IsTrue (⟦<ArpHardwareId as PartialEq>⟧.eq a b) ↔ (a ≡ b) }
    ensures arp_operation { (a b : _) → IsTrue (⟦<ArpOperation as PartialEq>⟧.eq a b) ↔ (a ≡ b) }
    ensures linux_nonstandard_ether_type { (a b : _) → IsTrue (⟦<LinuxNonstandardEtherType as PartialEq>⟧.eq a b)
        ↔ (a ≡ b) }
    ensures linux_sll_packet_type { (a b : _) → IsTrue (⟦<LinuxSllPacketType as PartialEq>⟧.eq a b) ↔ (a ≡ b) }
    ensures linux_sll_protocol_type { (a b : _) → IsTrue (⟦<LinuxSllProtocolType as PartialEq>⟧.eq a b) ↔ (a ≡ b) }
    ensures len_source { (a b : _) → IsTrue (⟦<LenSource as PartialEq>⟧.eq a b) ↔ (a ≡ b) }
    ensures layer { (a b : _) → IsTrue (⟦<Layer as PartialEq>⟧.eq a b) ↔ (a ≡ b) }
    ensures value_type { (a b : _) → IsTrue (⟦<ValueType as PartialEq>⟧.eq a b) ↔ (a ≡ b) }
    ensures len_error { (a b : _) → IsTrue (⟦<LenError as PartialEq>⟧.eq a b) ↔ (a ≡ b) }
    ensures slice_write_space_error { (a b : _) → IsTrue (⟦<SliceWriteSpaceError as PartialEq>⟧.eq a b) ↔ (a ≡ b) }
    ensures arp_hw_addr_error { (a b : _) → IsTrue (⟦<ArpHwAddrError as PartialEq>⟧.eq a b) ↔ (a ≡ b) }
    ensures arp_proto_addr_error { (a b : _) → IsTrue (⟦<ArpProtoAddrError as PartialEq>⟧.eq a b) ↔ (a ≡ b) }
    ensures arp_new_error { (a b : _) → IsTrue (⟦<ArpNewError as PartialEq>⟧.eq a b) ↔ (a ≡ b) }
    ensures arp_eth_ipv4_from_error { (a b : _) → IsTrue (⟦<ArpEthIpv4FromError as PartialEq>⟧.eq a b) ↔ (a ≡ b) }
    ensures linux_sll_header_error { (a b : _) → IsTrue (⟦<linux_sll::HeaderError as PartialEq>⟧.eq a b) ↔ (a ≡ b) }
    ensures linux_sll_header_slice_error { (a b : _) → IsTrue (⟦<linux_sll::HeaderSliceError as PartialEq>⟧.eq a b)
        ↔ (a ≡ b) }
    ensures macsec_header_error { (a b : _) → IsTrue (⟦<macsec::HeaderError as PartialEq>⟧.eq a b) ↔ (a ≡ b) }
    ensures macsec_header_slice_error { (a b : _) → IsTrue (⟦<macsec::HeaderSliceError as PartialEq>⟧.eq a b)
        ↔ (a ≡ b) }
    ensures value_too_big_error_of_u16 { (a b : _) → IsTrue (⟦<ValueTooBigError<u16> as PartialEq>⟧.eq a b)
        ↔ (a ≡ b) }
    ensures value_too_big_error_of_u8 { (a b : _) → IsTrue (⟦<ValueTooBigError<u8> as PartialEq>⟧.eq a b) ↔ (a ≡ b) }
{}

/// What a hash feeds a hasher: the bytes of a number; for an enumeration the place of the variant, then the fields in
/// order.
pub fn hashes()
    ensures vlan_id { (a : _) → ⟦<VlanId as Hash>⟧.hash_input a ≡ fed.u16 a }
    ensures vlan_pcp { (a : _) → ⟦<VlanPcp as Hash>⟧.hash_input a ≡ fed.u8 a }
    ensures macsec_an { (a : _) → ⟦<MacsecAn as Hash>⟧.hash_input a ≡ fed.u8 a }
    ensures macsec_short_len { (a : _) → ⟦<MacsecShortLen as Hash>⟧.hash_input a ≡ fed.u8 a }
    ensures ether_type { (a : _) → ⟦<EtherType as Hash>⟧.hash_input a ≡ fed.u16 a.0 }
    ensures arp_hardware_id { (a : _) → ⟦<ArpHardwareId as Hash>⟧.hash_input a ≡ fed.u16 a.0 }
    ensures arp_operation { (a : _) → ⟦<ArpOperation as Hash>⟧.hash_input a ≡ fed.u16 a.0 }
    ensures linux_nonstandard_ether_type { (a : _) → ⟦<LinuxNonstandardEtherType as Hash>⟧.hash_input a ≡ fed.u16 a }
    ensures linux_sll_protocol_type { (a : _) → ⟦<LinuxSllProtocolType as Hash>⟧.hash_input a ≡ protocol_type_fed a }
    ensures len_source { (a : _) → ⟦<LenSource as Hash>⟧.hash_input a ≡ len_source_fed a }
    ensures layer { (a : _) → ⟦<Layer as Hash>⟧.hash_input a ≡ layer_fed a }
    ensures value_type { (a : _) → ⟦<ValueType as Hash>⟧.hash_input a ≡ value_type_fed a }
    ensures len_error { (a : _) → ⟦<LenError as Hash>⟧.hash_input a ≡ len_error_fed a }
    ensures slice_write_space_error { (a : _) → ⟦<SliceWriteSpaceError as Hash>⟧.hash_input a
        ≡ slice_write_space_error_fed a }
    ensures value_too_big_error_of_u16 { (a : _) → ⟦<ValueTooBigError<u16> as Hash>⟧.hash_input a
        ≡ value_too_big_error_fed fed.u16 a }
    ensures value_too_big_error_of_u8 { (a : _) → ⟦<ValueTooBigError<u8> as Hash>⟧.hash_input a
        ≡ value_too_big_error_fed fed.u8 a }
    ensures arp_hw_addr_error { (a : _) → ⟦<ArpHwAddrError as Hash>⟧.hash_input a ≡ hw_addr_error_fed a }
    ensures arp_proto_addr_error { (a : _) → ⟦<ArpProtoAddrError as Hash>⟧.hash_input a ≡ proto_addr_error_fed a }
    ensures arp_new_error { (a : _) → ⟦<ArpNewError as Hash>⟧.hash_input a ≡ arp_new_error_fed a }
    ensures arp_eth_ipv4_from_error { (a : _) → ⟦<ArpEthIpv4FromError as Hash>⟧.hash_input a
        ≡ arp_eth_ipv4_from_error_fed a }
    ensures linux_sll_header_error { (a : _) → ⟦<linux_sll::HeaderError as Hash>⟧.hash_input a
        ≡ linux_sll_header_error_fed a }
    ensures linux_sll_header_slice_error { (a : _) → ⟦<linux_sll::HeaderSliceError as Hash>⟧.hash_input a
        ≡ header_slice_error_fed linux_sll_header_error_fed a }
    ensures macsec_header_error { (a : _) → ⟦<macsec::HeaderError as Hash>⟧.hash_input a ≡ macsec_header_error_fed a }
    ensures macsec_header_slice_error { (a : _) → ⟦<macsec::HeaderSliceError as Hash>⟧.hash_input a
        ≡ header_slice_error_fed macsec_header_error_fed a }
{}

/// Numbers are ordered by their value; enumerations by the order of their variants, then by what a variant holds.
pub fn orders()
    ensures vlan_id { (a b : _) → ⟦<VlanId as Ord>⟧.cmp a b ≡ nat_cmp a b }
    ensures vlan_pcp { (a b : _) → ⟦<VlanPcp as Ord>⟧.cmp a b ≡ nat_cmp a b }
    ensures macsec_an { (a b : _) → ⟦<MacsecAn as Ord>⟧.cmp a b ≡ nat_cmp a b }
    ensures macsec_short_len { (a b : _) → ⟦<MacsecShortLen as Ord>⟧.cmp a b ≡ nat_cmp a b }
    ensures linux_nonstandard_ether_type { (a b : _) → ⟦<LinuxNonstandardEtherType as Ord>⟧.cmp a b ≡ nat_cmp a b }
    ensures ether_type { (a b : _) → ⟦<EtherType as Ord>⟧.cmp a b ≡ nat_cmp a.0 b.0 }
    ensures arp_hardware_id { (a b : _) → ⟦<ArpHardwareId as Ord>⟧.cmp a b ≡ nat_cmp a.0 b.0 }
    ensures arp_operation { (a b : _) → ⟦<ArpOperation as Ord>⟧.cmp a b ≡ nat_cmp a.0 b.0 }
    ensures len_source { (a b : _) → ⟦<LenSource as Ord>⟧.cmp a b ≡ on len_source_place nat_cmp a b }
    ensures layer { (a b : _) → ⟦<Layer as Ord>⟧.cmp a b ≡ on layer_place nat_cmp a b }
    ensures value_type { (a b : _) → ⟦<ValueType as Ord>⟧.cmp a b ≡ on value_type_place nat_cmp a b }
    ensures linux_sll_protocol_type { (a b : _) → ⟦<LinuxSllProtocolType as Ord>⟧.cmp a b
        ≡ then_cmp (on protocol_place nat_cmp) (on protocol_number nat_cmp) a b }
{}

/// The default is 0, which is `HOST` for a packet type. For a nonstandard ether type it is 1, `N802_3`.
pub fn defaults()
    ensures vlan_id { (a : _) → ⟦<VlanId as Default>⟧.is_default a → a ≡ 0 }
    ensures vlan_pcp { (a : _) → ⟦<VlanPcp as Default>⟧.is_default a → a ≡ 0 }
    ensures macsec_an { (a : _) → ⟦<MacsecAn as Default>⟧.is_default a → a ≡ 0 }
    ensures macsec_short_len { (a : _) → ⟦<MacsecShortLen as Default>⟧.is_default a → a ≡ 0 }
    ensures ether_type { (a : _) → ⟦<EtherType as Default>⟧.is_default a → a.0 ≡ 0 }
    ensures arp_hardware_id { (a : _) → ⟦<ArpHardwareId as Default>⟧.is_default a → a.0 ≡ 0 }
    ensures arp_operation { (a : _) → ⟦<ArpOperation as Default>⟧.is_default a → a.0 ≡ 0 }
    ensures linux_nonstandard_ether_type { (a : _) → ⟦<LinuxNonstandardEtherType as Default>⟧.is_default a → a ≡ 1 }
    ensures linux_sll_packet_type { (a : _) → ⟦<LinuxSllPacketType as Default>⟧.is_default a → a ≡ 0 }
{}
