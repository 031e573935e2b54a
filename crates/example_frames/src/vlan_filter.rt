//! A filter of frames by VLAN and protocol, as an example of a function over `ether_packet`.
ghost use Rattle.std.specs.Prelude.{◌≡◌, ◌↔◌, List, IsTrue};
ghost use Rattle.etherparse.specs.Header.{Header};
ghost use Rattle.ether_peel.specs.Grammar.Stack.{Ending, last_expected, Walk};
ghost use Rattle.ether_peel.specs.Walker.Start.{kind_shown};
ghost use Rattle.ether_packet.specs.Packet.{packet_start, packet_headers};
ghost use Rattle.example_frames.specs.Passes.{IsInVlan, IsIpv4OrArp};

use ether_packet::PacketSlice;
use ether_peel::{RestKind, Start};
use etherparse::{EtherType, VlanId};

/// Returns `true` if a frame is in one of some VLANs and has IPv4 or ARP.
///
/// The frame begins with an Ethernet II header and has no frame check sequence. It is in the VLAN of its outermost
/// VLAN tag; a frame without a VLAN tag is in none. SecTags and further VLAN tags are skipped: the ether type after
/// the last one counts. An ARP packet counts even if it is cut short.
///
/// At most three VLAN tags and SecTags are read, as by [`PacketSlice::from_slice`].
///
/// # Examples
///
/// ```
/// let frame = [
///     0xFF, 0xFF, 0xFF, 0xFF, 0xFF, 0xFF, 0x02, 0x00, 0x00, 0x00, 0x00, 0x01, 0x81, 0x00, // Ethernet II
///     0xB1, 0x23, 0x08, 0x00, // VLAN
///     0x45,
/// ];
/// let id = VlanId::try_new(0x123)?;
/// assert!(rt; is_ipv4_or_arp_in_vlans(&frame, &[VlanId::ZERO, id]));
/// assert!(rt; !is_ipv4_or_arp_in_vlans(&frame, &[VlanId::ZERO]));
/// ```
pub fn is_ipv4_or_arp_in_vlans(frame: &[u8], vlan_ids: &[VlanId]) -> bool
    ensures { (hs : List Header) (e : Ending) → Walk (packet_start Start.Ethernet2) frame.now hs e
        → IsTrue result ↔ (IsInVlan vlan_ids.now hs × IsIpv4OrArp (kind_shown (last_expected e))) }
{
    let packet = PacketSlice::from_slice(Start::Ethernet2, frame);
    is_in_vlans(&packet, vlan_ids) && is_ipv4_or_arp(&packet.rest_kind)
}

/// Whether the outermost VLAN tag has one of these identifiers.
fn is_in_vlans(packet: &PacketSlice<'_>, vlan_ids: &[VlanId]) -> bool
    ensures { IsTrue result ↔ IsInVlan vlan_ids.now (packet_headers packet.now) }
{
    let ids = packet.vlan_ids();
    match ids.as_slice().first() {
        Some(outermost) => vlan_ids.contains(outermost),
        None => false,
    }
}

/// Whether the rest is IPv4, an ARP packet that is cut short, or what follows an ARP packet.
fn is_ipv4_or_arp(kind: &RestKind) -> bool
    ensures { IsTrue result ↔ IsIpv4OrArp kind.now }
{
    matches!(
        *kind,
        RestKind::EtherType(EtherType::IPV4 | EtherType::ARP) | RestKind::AfterArp
    )
}
