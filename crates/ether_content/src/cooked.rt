//! The header of Linux cooked capture v1 (LINKTYPE_LINUX_SLL) with a hardware type that is not that of Ethernet, and
//! gives protocol numbers no meaning of its own.
ghost use Rattle.std.specs.Prelude.{◌≡◌, ◌+◌, ◌≤◌, length, slice_range, true, false, None, IfSome};
ghost use Rattle.ether_base.specs.Bytes.{number};
ghost use Rattle.ether_base.specs.Formats.LinuxSll.{is_supported, linux_sll_of};
ghost use Rattle.ether_content.specs.Content.{has_other_hardware};
ghost use Rattle.ether_content.specs.ContentViews.{cooked_view};

use ether_sll::linux_sll_fields as fields;
use etherparse::{ArpHardwareId, EtherType, LinuxSllPacketType, LinuxSllProtocolType};

/// The header of a packet of Linux cooked capture v1 (LINKTYPE_LINUX_SLL) with a hardware type that is not that of
/// Ethernet, and gives protocol numbers no meaning of its own, such as 772 of the loopback device. The walk refuses
/// such a header; here its protocol is read as an ether type.
///
/// ```
/// let packet = CapturedPacket {
///     time: None,
///     interface: None,
///     direction: None,
///     comment: None,
///     original_len: 18,
///     link_type: LinkType::LINUX_SLL,
///     snap_len: 262_144,
///     fcs_len: None,
///     packet: &[
///         0x00, 0x00, 0x03, 0x04, 0x00, 0x06, // packet type 0, hardware type 772, six bytes of an address
///         0x00, 0x00, 0x00, 0x00, 0x00, 0x00, 0x00, 0x00, 0x08, 0x00, // the address, and the protocol
///         0x45, 0x00,
///     ],
/// };
/// if let Content::LinuxSll(header, payload) = Content::of(&packet) {
///     assert_eq!(rt; header.hardware_type, ArpHardwareId::LOOPBACK);
///     assert_eq!(rt; header.protocol, EtherType::IPV4);
///     assert_eq!(rt; payload, [0x45, 0x00].as_slice());
/// }
/// ```
#[derive(Clone, Copy, PartialEq, Eq, Debug)]
pub struct CookedHeader {
    /// How the packet was sent: the number of a [`LinuxSllPacketType`], 0 to 7.
    pub packet_type: u16,
    /// The ARPHRD_ type of the device.
    pub hardware_type: ArpHardwareId,
    /// The length of the sender's address in bytes. May exceed 8, though the field holds only 8 bytes.
    pub address_len: u16,
    /// The sender's address, truncated to 8 bytes or padded.
    pub address: [u8; 8],
    /// The protocol, read as an ether type. A number below 0x0600 is not one.
    pub protocol: EtherType,
}

impl CookedHeader {
    /// The length of the header in bytes.
    pub const LEN: usize = 16;
}

/// Reads the header at the front of a packet of cooked capture v1. Returns `None` if the packet is read as a frame
/// instead.
pub(crate) fn cooked_header(bytes: &[u8]) -> Option<CookedHeader>
    ensures some { IfSome result (λ h. (has_other_hardware bytes.now ≡ true)
        × (cooked_view h ≡ linux_sll_of bytes.now)) }
    ensures none { result ≡ None → has_other_hardware bytes.now ≡ false }
{
    if bytes.len() < CookedHeader::LEN {
        return None;
    }
    let packet_type = fields::packet_type_number(bytes);
    if packet_type > LinuxSllPacketType::MAX_VAL {
        return None;
    }
    let hardware_type = fields::arp_hardware_type(bytes);
    if is_supported(hardware_type) {
        return None;
    }
    Some(CookedHeader {
        packet_type,
        hardware_type,
        address_len: fields::sender_address_valid_length(bytes),
        address: fields::sender_address_full(bytes),
        protocol: EtherType(fields::protocol_number(bytes)),
    })
}

/// Whether a hardware type is that of Ethernet, or gives protocol numbers a meaning of its own.
fn is_supported(hardware_type: ArpHardwareId) -> bool
    ensures { result ≡ is_supported hardware_type.0 }
{
    LinuxSllProtocolType::try_from((hardware_type, 0)).is_ok()
}
