//! The fields of an ARP packet in the bytes that begin with it (RFC 826, "Packet format"): hardware type, protocol
//! type, the two sizes and the operation in eight bytes, then the addresses of the sender and those of the target.
ghost use Rattle.std.specs.Prelude.{◌≡◌, ◌+◌, ◌*◌, ◌≤◌, ◌<◌, length, slice_range, drop, IfOk, IfErr};
ghost use Rattle.ether_base.specs.Formats.Arp.{arp_front_in, arp_len, arp_of};
ghost use Rattle.ether_base.specs.Bytes.{number};
ghost use Rattle.ether_base.specs.Formats.Kind as kinds;
ghost use Rattle.ether_base.specs.Formats.RefusedLen.{IsRefusedLen};
ghost use Rattle.ether_arp.specs.Arp.{BeginsWithArp, HoldsArp};

use ether_base::big_endian::u16_in;
use ether_base::err::{Layer, LenError};
use ether_base::slice_len::too_short;
use ether_base::{ArpHardwareId, ArpOperation, EtherType, LenSource};
use std::ops::Range;

/// The bytes of the hardware type.
const HARDWARE_TYPE: Range<usize> = 0..2;

/// The bytes of the protocol type.
const PROTOCOL_TYPE: Range<usize> = 2..4;

/// The byte with the size of a hardware address.
const HARDWARE_SIZE: usize = 4;

/// The byte with the size of a protocol address.
const PROTOCOL_SIZE: usize = 5;

/// The bytes of the operation.
const OPERATION: Range<usize> = 6..8;

/// The length of the part before the addresses, in bytes.
const FRONT_LEN: usize = 8;

/// The bytes of the packet that a slice begins with, 8 to 1028. Errors are those of `ArpPacketSlice::from_slice`.
pub fn packet(slice: &[u8]) -> Result<&[u8], LenError>
    ensures bytes { IfOk result
        (λ packet. packet.now ≡ slice_range slice.now 0 (arp_len (arp_front_in slice.now))) }
    ensures begins { IfOk result (λ _. BeginsWithArp slice.now) }
    ensures refused { IfErr result (IsRefusedLen slice.now kinds.Arp) }
    ensures short { IfErr result (λ e. length slice.now < e.required_len) }
{
    if slice.len() < FRONT_LEN {
        return Err(too_short(FRONT_LEN, slice.len(), LenSource::Slice, Layer::Arp));
    }
    let required_len = packet_len(slice);
    if slice.len() < required_len {
        return Err(too_short(
            required_len,
            slice.len(),
            LenSource::ArpAddrLengths,
            Layer::Arp,
        ));
    }
    Ok(&slice[..required_len])
}

/// The length of the packet in bytes, from the two sizes: 8 to 1028.
fn packet_len(packet: &[u8]) -> usize
    requires { 8 ≤ length packet.now }
    ensures { result ≡ arp_len (arp_front_in packet.now) }
{
    FRONT_LEN + 2 * usize::from(hw_addr_size(packet)) + 2 * usize::from(proto_addr_size(packet))
}

/// The hardware type.
pub fn hw_addr_type(packet: &[u8]) -> ArpHardwareId
    requires { 8 ≤ length packet.now }
    ensures { result.0 ≡ (arp_front_in packet.now).hardware_type }
{
    ArpHardwareId(u16_in(&packet[HARDWARE_TYPE]))
}

/// The protocol type.
pub fn proto_addr_type(packet: &[u8]) -> EtherType
    requires { 8 ≤ length packet.now }
    ensures { result.0 ≡ (arp_front_in packet.now).protocol_type }
{
    EtherType(u16_in(&packet[PROTOCOL_TYPE]))
}

/// The size of a hardware address in bytes.
pub fn hw_addr_size(packet: &[u8]) -> u8
    requires { 8 ≤ length packet.now }
    ensures { result ≡ (arp_front_in packet.now).hardware_size }
{
    packet[HARDWARE_SIZE]
}

/// The size of a protocol address in bytes.
pub fn proto_addr_size(packet: &[u8]) -> u8
    requires { 8 ≤ length packet.now }
    ensures { result ≡ (arp_front_in packet.now).protocol_size }
{
    packet[PROTOCOL_SIZE]
}

/// The operation.
pub fn operation(packet: &[u8]) -> ArpOperation
    requires { 8 ≤ length packet.now }
    ensures { result.0 ≡ (arp_front_in packet.now).operation }
{
    ArpOperation(u16_in(&packet[OPERATION]))
}

/// The sender's hardware address.
pub fn sender_hw_addr(packet: &[u8]) -> &[u8]
    requires { BeginsWithArp packet.now }
    ensures address { result.now ≡ (arp_of packet.now).sender_hardware }
    ensures len { length result.now ≡ (arp_front_in packet.now).hardware_size }
    ensures fits { length result.now ≤ 255 }
{
    let hardware = usize::from(hw_addr_size(packet));
    &packet[FRONT_LEN..FRONT_LEN + hardware]
}

/// The sender's protocol address.
pub fn sender_protocol_addr(packet: &[u8]) -> &[u8]
    requires { BeginsWithArp packet.now }
    ensures address { result.now ≡ (arp_of packet.now).sender_protocol }
    ensures len { length result.now ≡ (arp_front_in packet.now).protocol_size }
    ensures fits { length result.now ≤ 255 }
{
    let start = FRONT_LEN + usize::from(hw_addr_size(packet));
    &packet[start..start + usize::from(proto_addr_size(packet))]
}

/// The target's hardware address.
pub fn target_hw_addr(packet: &[u8]) -> &[u8]
    requires { BeginsWithArp packet.now }
    ensures address { result.now ≡ (arp_of packet.now).target_hardware }
    ensures len { length result.now ≡ (arp_front_in packet.now).hardware_size }
    ensures fits { length result.now ≤ 255 }
{
    let hardware = usize::from(hw_addr_size(packet));
    let start = FRONT_LEN + hardware + usize::from(proto_addr_size(packet));
    &packet[start..start + hardware]
}

/// The target's protocol address.
pub fn target_protocol_addr(packet: &[u8]) -> &[u8]
    requires { BeginsWithArp packet.now }
    ensures address { result.now ≡ (arp_of packet.now).target_protocol }
    ensures len { length result.now ≡ (arp_front_in packet.now).protocol_size }
    ensures fits { length result.now ≤ 255 }
{
    let protocol = usize::from(proto_addr_size(packet));
    let start = FRONT_LEN + 2 * usize::from(hw_addr_size(packet)) + protocol;
    &packet[start..start + protocol]
}
