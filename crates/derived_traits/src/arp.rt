//! What callers know of clones, equality and hashing at each type of `ether_arp`, of public fields that they write,
//! and of what is read back. These functions are proved and never run.
ghost use Rattle.std.specs.Hash as fed;
ghost use Rattle.std.specs.Prelude.{◌≡◌, ◌↔◌, ◌++◌, IsTrue, Ok};

use ether_arp::{ArpEthIpv4Packet, ArpPacket, ArpPacketSlice};
use ether_base::err::LenError;
use ether_base::err::arp::ArpEthIpv4FromError;
use ether_base::{ArpHardwareId, ArpOperation, EtherType};
use std::hash::Hash;

/// A clone is `Ok` and equals its source.
pub fn clones()
    ensures arp_packet { let it = ⟦<ArpPacket as Clone>⟧ in
        (a b : _) → it.is_infallible a × (it.is_clone a b → b ≡ a) }
    ensures arp_packet_slice { let it = ⟦<ArpPacketSlice<'static> as Clone>⟧ in
        (a b : _) → it.is_infallible a × (it.is_clone a b → b ≡ a) }
    ensures arp_eth_ipv4_packet { let it = ⟦<ArpEthIpv4Packet as Clone>⟧ in
        (a b : _) → it.is_infallible a × (it.is_clone a b → b ≡ a) }
{}

/// `==` is equality.
pub fn equality()
    ensures arp_packet { (a b : _) → IsTrue (⟦<ArpPacket as PartialEq>⟧.eq a b) ↔ (a ≡ b) }
    ensures arp_packet_slice { (a b : _) → IsTrue (⟦<ArpPacketSlice<'static> as PartialEq>⟧.eq a b) ↔ (a ≡ b) }
    ensures arp_eth_ipv4_packet { (a b : _) → IsTrue (⟦<ArpEthIpv4Packet as PartialEq>⟧.eq a b) ↔ (a ≡ b) }
{}

/// A hash feeds a hasher the numbers, and then the addresses with their lengths.
pub fn hashes()
    ensures { (p : _) → let types = fed.u16 p.hardware_type ++ fed.u16 p.protocol_type ++ fed.u16 p.operation in
        let senders = fed.slice fed.u8 p.sender_hardware ++ fed.slice fed.u8 p.sender_protocol in
        let targets = fed.slice fed.u8 p.target_hardware ++ fed.slice fed.u8 p.target_protocol in
        ⟦<ArpPacket as Hash>⟧.hash_input p ≡ types ++ (senders ++ targets) }
{}

pub fn set_hw_addr_type(packet: &mut ArpPacket, hw_addr_type: ArpHardwareId)
    ensures { packet.new ≡ record packet.old { hardware_type = hw_addr_type.0 } }
{
    packet.hw_addr_type = hw_addr_type;
}

pub fn set_proto_addr_type(packet: &mut ArpPacket, proto_addr_type: EtherType)
    ensures { packet.new ≡ record packet.old { protocol_type = proto_addr_type.0 } }
{
    packet.proto_addr_type = proto_addr_type;
}

pub fn set_operation(packet: &mut ArpPacket, operation: ArpOperation)
    ensures { packet.new ≡ record packet.old { operation = operation.0 } }
{
    packet.operation = operation;
}

pub fn hw_addr_type(packet: &ArpPacket) -> ArpHardwareId
    ensures { result.0 ≡ packet.now.hardware_type }
{
    packet.hw_addr_type
}

pub fn proto_addr_type(packet: &ArpPacket) -> EtherType
    ensures { result.0 ≡ packet.now.protocol_type }
{
    packet.proto_addr_type
}

pub fn operation(packet: &ArpPacket) -> ArpOperation
    ensures { result.0 ≡ packet.now.operation }
{
    packet.operation
}

pub fn read_back(packet: &ArpPacket) -> Result<ArpPacket, LenError>
    ensures { result ≡ Ok packet.now }
{
    let bytes = packet.to_bytes();
    ArpPacket::from_slice(bytes.as_slice())
}

pub fn there_and_back(packet: ArpEthIpv4Packet) -> Result<ArpEthIpv4Packet, ArpEthIpv4FromError>
    ensures { result ≡ Ok packet }
{
    ArpEthIpv4Packet::try_from(ArpPacket::from(packet))
}

pub fn same_bytes(packet: &ArpEthIpv4Packet) -> bool
    ensures { IsTrue result }
{
    packet.to_arp_packet().to_bytes().as_slice() == packet.to_bytes().as_slice()
}

pub fn max_len() -> usize
    ensures { result ≡ 1028 }
{
    ArpPacket::MAX_LEN
}

pub fn eth_ipv4_len() -> usize
    ensures { result ≡ 28 }
{
    ArpEthIpv4Packet::LEN
}
