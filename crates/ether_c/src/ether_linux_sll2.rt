//! A header of Linux cooked capture v2, as a struct of C.
ghost use Rattle.std.specs.Prelude.{◌≡◌, ◌≤◌, length, unwrap_or};
ghost use Rattle.ether_sll2.specs.LinuxSll2.{linux_sll2_of, protocol_of_header};
ghost use Rattle.ether_sll2.specs.Views.{refusal_view};
ghost use Rattle.ether_base.specs.Formats.LinuxSllProtocolType.{told_ether_type};
ghost use Rattle.ether_c.specs.CookedV2.{c_linux_sll2, c_linux_sll2_refusal, start_number};

use ether_peel::Start;
use ether_sll2::{LinuxSll2Error, LinuxSll2Header, LinuxSll2Slice};

/// A header of Linux cooked capture v2: `etherpeel_linux_sll2_header` in C.
///
/// Each bit pattern is a value, so that C may pass memory that it has not written to.
#[repr(C)]
#[derive(Clone, Copy)]
pub struct EtherLinuxSll2 {
    /// The offset of the payload in bytes from the start of the header: 20.
    pub payload_start: usize,
    /// The index of the interface on which the packet was seen.
    pub interface_index: u32,
    /// The number of the start for the payload's walk: 4 if the payload has an ether type, else 0.
    pub start: u32,
    /// The protocol number of the payload, read according to the hardware type.
    pub protocol: u16,
    /// The ether type of the payload, 0 if it has none.
    pub ether_type: u16,
    /// The ARPHRD number of the interface.
    pub hardware_type: u16,
    /// Who sent the packet, and to whom: 0 to 7.
    pub packet_type: u8,
    /// The length of the sender's address, which may exceed 8.
    pub address_len: u8,
    /// The sender's address, truncated to 8 bytes or padded.
    pub address: [u8; 8],
}

// as c/etherpeel.h lays it out
const _: () = prove!(size_of::<EtherLinuxSll2>() == 32);

impl EtherLinuxSll2 {
    const NONE: EtherLinuxSll2 = EtherLinuxSll2 {
        payload_start: 0,
        interface_index: 0,
        start: 0,
        protocol: 0,
        ether_type: 0,
        hardware_type: 0,
        packet_type: 0,
        address_len: 0,
        address: [0; 8],
    };

    /// The header of a packet.
    pub(crate) fn of(packet: &LinuxSll2Slice<'_>) -> EtherLinuxSll2
        ensures { result ≡ c_linux_sll2 (linux_sll2_of packet.now) }
    {
        let (start, ether_type) = start_of(packet);
        EtherLinuxSll2 {
            payload_start: LinuxSll2Header::LEN,
            interface_index: packet.interface_index(),
            start,
            protocol: packet.protocol_number(),
            ether_type,
            hardware_type: packet.arp_hardware_type().0,
            packet_type: packet.packet_type_number(),
            address_len: packet.sender_address_valid_length(),
            address: packet.sender_address_full(),
        }
    }

    /// The struct for a refused header: all 0, except for a packet type that is not supported.
    pub(crate) fn of_refusal(error: &LinuxSll2Error) -> EtherLinuxSll2
        ensures { result ≡ c_linux_sll2_refusal (refusal_view error.now) }
    {
        match error {
            LinuxSll2Error::Len { .. } => EtherLinuxSll2::NONE,
            LinuxSll2Error::PacketType(packet_type) => EtherLinuxSll2 {
                packet_type: *packet_type,
                ..EtherLinuxSll2::NONE
            },
        }
    }
}

/// The number of the start for the payload's walk, and the payload's ether type.
fn start_of(packet: &LinuxSll2Slice<'_>) -> (u32, u16)
    ensures number { result.0 ≡ start_number (told_ether_type (protocol_of_header packet.now)) }
    ensures ether_type { result.1 ≡ unwrap_or (told_ether_type (protocol_of_header packet.now)) 0 }
{
    match packet.start() {
        Some(Start::EtherType(ether_type)) => (4, ether_type.0),
        _ => (0, 0),
    }
}
