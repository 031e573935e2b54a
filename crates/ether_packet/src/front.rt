//! The first headers of a frame: that of the link, and the VLAN tag directly after it.
ghost use Rattle.std.specs.Prelude.{◌≡◌, List, option_map, option_and_then};
ghost use Rattle.etherparse.specs.Ethernet2.{ethernet2_view};
ghost use Rattle.etherparse.specs.Header.{Header};
ghost use Rattle.etherparse.specs.Vlan.{vlan_view};
ghost use Rattle.ether_peel.specs.Grammar.Stack.{Ending, Walk};
ghost use Rattle.ether_peel.specs.Walker.Start.{start_of};
ghost use Rattle.ether_packet.specs.TypedLink.{link_len as link_len_of};
ghost use Rattle.ether_packet.specs.Front.{first_ethernet2, link_type, outer_tag};

use crate::popping::require_tag;
use crate::typed_link::chunk_at;
use ether_peel::Start;
use etherparse::{Ethernet2Header, Ethernet2Slice, LinuxSllHeader, SingleVlanHeader};

/// The first headers of an Ethernet II frame.
#[derive(Clone, Copy, Debug)]
pub struct EthernetFront {
    /// The header of Ethernet II.
    pub link: Ethernet2Header,
    /// The VLAN tag directly after it, if there is one.
    pub vlan: Option<SingleVlanHeader>,
}

/// Reads the header of an Ethernet II frame without a frame check sequence, and the VLAN tag directly after it.
///
/// This is what a switch or a load balancer needs; the bytes after these headers are not read. `None` if the frame has
/// fewer than 14 bytes. A VLAN tag that is cut short is not returned.
///
/// # Examples
///
/// ```
/// let frame = [
///     0xFF, 0xFF, 0xFF, 0xFF, 0xFF, 0xFF, 0x02, 0x00, 0x00, 0x00, 0x00, 0x01, 0x81, 0x00, // Ethernet II
///     0xB1, 0x23, 0x08, 0x00, // VLAN
///     0x45,
/// ];
/// match ethernet_front(&frame) {
///     Some(front) => {
///         assert_eq!(rt; front.link.source, [2, 0, 0, 0, 0, 1]);
///         assert_eq!(rt; front.vlan, Some(SingleVlanHeader::from_bytes([0xB1, 0x23, 0x08, 0x00])));
///     }
///     None => panic!(rt; "no header"),
/// }
/// ```
pub fn ethernet_front(frame: &[u8]) -> Option<EthernetFront>
    ensures link { (hs : List Header) (e : Ending) → Walk (start_of Start.Ethernet2) frame.now hs e
        → first_ethernet2 hs ≡ option_map (λ f. ethernet2_view f.link) result }
    ensures ether_type { (hs : List Header) (e : Ending) → Walk (start_of Start.Ethernet2) frame.now hs e
        → link_type hs ≡ option_map (λ f. f.link.ether_type.0) result }
    ensures vlan { (hs : List Header) (e : Ending) → Walk (start_of Start.Ethernet2) frame.now hs e
        → outer_tag hs ≡ option_and_then (λ f. option_map vlan_view f.vlan) result }
{
    match Ethernet2Slice::from_slice_without_fcs(frame) {
        Ok(slice) => Some(EthernetFront {
            link: slice.to_header(),
            vlan: outer_vlan(Start::Ethernet2, frame),
        }),
        Err(_) => None,
    }
}

/// The VLAN tag directly after the header of the link, which is the tag that [`pop_vlan`](crate::pop_vlan) would take
/// off.
///
/// `None` where `pop_vlan` refuses the frame.
///
/// # Examples
///
/// ```
/// let frame = [
///     0xFF, 0xFF, 0xFF, 0xFF, 0xFF, 0xFF, 0x02, 0x00, 0x00, 0x00, 0x00, 0x01, 0x81, 0x00, // Ethernet II
///     0xB1, 0x23, 0x08, 0x00, // VLAN
/// ];
/// let tag = outer_vlan(Start::Ethernet2, &frame);
/// assert_eq!(rt; tag, Some(SingleVlanHeader::from_bytes([0xB1, 0x23, 0x08, 0x00])));
/// assert_eq!(rt; outer_vlan(Start::Ethernet2, &frame[..17]), None);
/// ```
pub fn outer_vlan(start: Start, frame: &[u8]) -> Option<SingleVlanHeader>
    ensures { (hs : List Header) (e : Ending) → Walk (start_of start) frame.now hs e
        → outer_tag hs ≡ option_map vlan_view result }
{
    match require_tag(start, frame) {
        Ok(()) => Some(SingleVlanHeader::from_bytes(chunk_at::<4>(frame, link_len(start)))),
        Err(_) => None,
    }
}

/// The length in bytes of the link's header, for a start that has one.
fn link_len(start: Start) -> usize
    ensures { result ≡ link_len_of start }
{
    match start {
        Start::LinuxSll => LinuxSllHeader::LEN,
        _ => Ethernet2Header::LEN,
    }
}
