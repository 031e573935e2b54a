//! Replaces the ARP packet of a frame in place.
ghost use Rattle.std.specs.Prelude.{◌≡◌, ◌≤◌, List, length, IfOk, IfErr, OnErr, IfSome, None};
ghost use Rattle.etherparse.specs.Arp.{arp_of};
ghost use Rattle.etherparse.specs.Header.{Header, header_len};
ghost use Rattle.etherparse.specs.Header as headers;
ghost use Rattle.ether_peel.specs.Grammar.Stack.{Ending, Walk};
ghost use Rattle.ether_packet.specs.Packet.{packet_start};
ghost use Rattle.ether_packet.specs.Replacing.{Agree, Differs};
ghost use Rattle.ether_packet.specs.ReplacingArp.{TakesArp, ReplacesArp, RefusesArp};

use crate::packet_builder::write_arp;
use crate::{Difference, PacketSlice, ReplaceError};
use ether_peel::Start;
use etherparse::{ArpPacket, ArpPacketSlice};

/// Replaces the ARP packet of a frame, in place, by another one whose hardware addresses and protocol addresses have
/// the same lengths.
///
/// The ARP packet is the one that [`PacketSlice::arp`] returns. No other byte changes: the walk has the new ARP
/// packet, and all other headers are unchanged. A frame check sequence and an integrity check value are also
/// unchanged, and don't fit the new bytes.
///
/// # Errors
///
/// The frame is then unchanged:
///
/// - [`ReplaceError::NoArp`]: the frame has no ARP packet, or its ARP packet is cut short.
/// - [`ReplaceError::SaysOther`]: the two packets differ in the length of their hardware addresses, or in that of
///   their protocol addresses. The error names the difference.
///
/// # Examples
///
/// The request for the hardware address of 10.0.0.2 becomes the reply to it. The addresses of the Ethernet II header
/// are left to [`replace_link`](crate::replace_link).
///
/// ```
/// let mut frame = [
///     0xFF, 0xFF, 0xFF, 0xFF, 0xFF, 0xFF, 0x02, 0x00, 0x00, 0x00, 0x00, 0x01, 0x08, 0x06, // Ethernet II
///     0x00, 0x01, 0x08, 0x00, 0x06, 0x04, 0x00, 0x01, // ARP
///     0x02, 0x00, 0x00, 0x00, 0x00, 0x01, 0x0A, 0x00, 0x00, 0x01, // sender
///     0x00, 0x00, 0x00, 0x00, 0x00, 0x00, 0x0A, 0x00, 0x00, 0x02, // target
/// ];
/// let reply = ArpEthIpv4Packet {
///     operation: ArpOperation::REPLY,
///     sender_mac: [0x02, 0x00, 0x00, 0x00, 0x00, 0x02],
///     sender_ipv4: [10, 0, 0, 2],
///     target_mac: [0x02, 0x00, 0x00, 0x00, 0x00, 0x01],
///     target_ipv4: [10, 0, 0, 1],
/// };
/// let packet = reply.to_arp_packet();
/// assert_eq!(rt; replace_arp(Start::Ethernet2, &mut frame, &packet), Ok(()));
/// assert_eq!(rt; frame[20..22], [0x00, 0x02]);
/// assert_eq!(rt; frame[22..32], [0x02, 0x00, 0x00, 0x00, 0x00, 0x02, 0x0A, 0x00, 0x00, 0x02]);
/// assert_eq!(rt; frame[32..], [0x02, 0x00, 0x00, 0x00, 0x00, 0x01, 0x0A, 0x00, 0x00, 0x01]);
/// ```
pub fn replace_arp(start: Start, frame: &mut [u8], packet: &ArpPacket) -> Result<(), ReplaceError>
    ensures ok { IfOk result (λ _. (hs : List Header) (e : Ending)
        → Walk (packet_start start) frame.old hs e
        → ReplacesArp (packet_start start) frame.old hs e packet.now frame.new) }
    ensures refused { IfErr result (λ error. (hs : List Header) (e : Ending)
        → Walk (packet_start start) frame.old hs e → RefusesArp hs packet.now error) }
    ensures kept { OnErr result (frame.new ≡ frame.old) }
{
    let end = find_arp(start, frame, packet)?;
    write_arp(frame, end, packet);
    Ok(())
}

/// The offset at which the ARP packet of a frame ends, if the other packet can replace it.
fn find_arp(start: Start, frame: &[u8], packet: &ArpPacket) -> Result<usize, ReplaceError>
    ensures ok { IfOk result (λ end. (hs : List Header) (e : Ending)
        → Walk (packet_start start) frame.now hs e → TakesArp hs packet.now end) }
    ensures room { IfOk result (λ end. header_len (headers.Arp packet.now) ≤ end) }
    ensures inside { IfOk result (λ end. end ≤ length frame.now) }
    ensures refused { IfErr result (λ error. (hs : List Header) (e : Ending)
        → Walk (packet_start start) frame.now hs e → RefusesArp hs packet.now error) }
{
    let read = PacketSlice::from_slice(start, frame);
    let Some(old) = read.arp() else {
        return Err(ReplaceError::NoArp);
    };
    match arp_difference(packet, &old) {
        // Nothing is read after an ARP packet, so the rest starts where it ends.
        None => Ok(read.rest_offset),
        Some(difference) => Err(ReplaceError::SaysOther(difference)),
    }
}

/// The first of the two address lengths in which ARP packets differ.
fn arp_difference(new: &ArpPacket, old: &ArpPacketSlice<'_>) -> Option<Difference>
    ensures none { result ≡ None → Agree (headers.Arp new.now) (headers.Arp (arp_of old.now)) }
    ensures some { IfSome result (Differs (headers.Arp new.now) (headers.Arp (arp_of old.now))) }
{
    if new.hw_addr_size() != old.hw_addr_size() {
        Some(Difference::HwAddrLen)
    } else if new.protocol_addr_size() != old.proto_addr_size() {
        Some(Difference::ProtocolAddrLen)
    } else {
        None
    }
}
