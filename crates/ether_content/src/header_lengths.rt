//! The number of bytes that the headers of a captured packet take.
ghost use Rattle.std.specs.Prelude.{◌≤◌, length};
ghost use Rattle.ether_pcap.specs.CaptureViews.{captured_packet_view};
ghost use Rattle.ether_content.specs.Content.{content_of};
ghost use Rattle.ether_content.specs.Content as contents;
ghost use Rattle.ether_content.specs.Headers.{HeadersTake, Reaches};
ghost use Rattle.ether_peel.specs.Walker.Start.{next_of};

use crate::content::{Content, payload_of};
use crate::cooked::CookedHeader;
use ether_packet::min_snap_len;
use ether_pcap::CapturedPacket;
use ether_peel::Start;
use ether_sll2::{LinuxSll2Header, LinuxSll2Slice};

/// The number of bytes that the link-layer headers of a packet take, with the payloads whose lengths they give. A
/// packet that is cut to that many bytes keeps all headers.
///
/// A header that is refused is not counted, and a packet whose link type the walk does not know has no headers.
///
/// ```
/// let packet = CapturedPacket {
///     time: None,
///     interface: None,
///     direction: None,
///     comment: None,
///     original_len: 60,
///     link_type: LinkType::ETHERNET,
///     snap_len: 262_144,
///     fcs_len: None,
///     packet: &[
///         0xFF, 0xFF, 0xFF, 0xFF, 0xFF, 0xFF, 0x02, 0x00, 0x00, 0x00, 0x00, 0x01, 0x81, 0x00, // Ethernet II
///         0xB1, 0x23, 0x08, 0x00, // VLAN 291
///         0x45, 0x00,
///     ],
/// };
/// assert_eq!(rt; headers_len(&packet), 18);
/// ```
pub fn headers_len(packet: &CapturedPacket<'_>) -> usize
    ensures { HeadersTake (content_of (captured_packet_view packet.now)) result }
{
    match Content::of(packet) {
        Content::Frame(start, frame) => frame_len(start, frame),
        Content::LinuxSll(header, payload) => {
            CookedHeader::LEN + frame_len(Start::EtherType(header.protocol), payload)
        }
        Content::LinuxSll2(bytes) => linux_sll2_len(bytes),
        Content::Unknown => 0,
    }
}

/// The number of bytes that the headers of a frame take.
fn frame_len(start: Start, frame: &[u8]) -> usize
    ensures reaches { Reaches (next_of start) frame.now result }
    ensures within { result ≤ length frame.now }
{
    min_snap_len(start, frame)
}

/// The number of bytes that the headers of a packet of cooked capture v2 take.
fn linux_sll2_len(bytes: &[u8]) -> usize
    ensures { HeadersTake (contents.LinuxSll2 bytes.now) result }
{
    match LinuxSll2Slice::from_slice(bytes) {
        Ok(_) => match payload_of(bytes) {
            Some((start, payload)) => LinuxSll2Header::LEN + frame_len(start, payload),
            None => LinuxSll2Header::LEN,
        },
        Err(_) => 0,
    }
}
