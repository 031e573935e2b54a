//! Builds packets for callers in C.
ghost use Rattle.std.specs.Prelude.{◌≡◌, ◌≤◌, [], ◌∷◌, length, take, drop, IfOk, IfErr, OnOk};
ghost use Rattle.ether_c.specs.Building.{GivesBuild, PassesParts, PassesNoPacket, AreExts, AreSplit, RefusesTags, ArePassedArp, HasContent, GivesPacketBuilt};
ghost use Rattle.ether_c.specs.Passed.{PassesNoArp};
ghost use Rattle.ether_c.specs.declared.ether_unit.EtherUnit.{EtherUnit as unit};

use crate::EtherUnit;
use crate::statuses::{BAD_KIND, DONE, NO_ROOM, OTHER_LINK, SEALED, TOO_MANY_TAGS};
use ether_packet::{BuildError, PacketBuilder, PacketContent};
use etherparse::{ArpPacket, EtherType, LinkExtHeader, LinkHeader, SingleVlanHeader};

/// The most VLAN tags and SecTags of a packet.
pub(crate) const MAX_TAGS: usize = 8;

/// The number of the kind of unit that is an ARP packet.
const ARP_KIND: u32 = 5;

/// Why units do not make a packet: the status of the call, and the index of the unit that is wrong.
pub(crate) type Refusal = (u32, usize);

/// The parts of a packet, except for its tags.
#[derive(Drop)]
pub(crate) struct PacketParts {
    pub(crate) link: LinkHeader,
    /// The number of tags.
    pub(crate) tags: usize,
    pub(crate) arp: Option<ArpPacket>,
}

/// Writes a packet to the front of a target: the headers of the units, and the payload. If the last unit is an ARP
/// packet, its addresses are read from the payload instead.
#[unsafe(no_mangle)]
pub extern "C" fn etherpeel_build(
    units: &[EtherUnit],
    ether_type: u16,
    payload: &[u8],
    target: &mut [u8],
    len: &mut usize,
) -> u32
    ensures { GivesBuild units.now ether_type payload.now target.old target.new len.new result }
{
    let mut tags = [LinkExtHeader::Vlan(SingleVlanHeader::default()); MAX_TAGS];
    let (status, given) = match parts(units, payload, &mut tags) {
        Ok(parts) => {
            let packet = PacketBuilder {
                link: parts.link,
                link_exts: &tags[..parts.tags],
                content: content(&parts.arp, ether_type, payload),
            };
            write(&packet, target)
        }
        Err(refusal) => refusal,
    };
    *len = given;
    status
}

/// The parts of the packet that the units make; its tags are written to an array.
pub(crate) fn parts(
    units: &[EtherUnit],
    bytes: &[u8],
    tags: &mut [LinkExtHeader; MAX_TAGS],
) -> Result<PacketParts, Refusal>
    ensures parts { IfOk result (λ p. PassesParts units.now bytes.now p.link (take p.tags tags.new) p.arp) }
    ensures room { IfOk result (λ p. p.tags ≤ 8) }
    ensures refused { IfErr result (λ r. PassesNoPacket units.now bytes.now r.0 r.1) }
{
    let Some((first, inner)) = units.split_first() else {
        return Err((BAD_KIND, 0));
    };
    let link = match first.to_link() {
        Ok(link) => link,
        Err(status) => return Err((status, 0)),
    };
    let (outer, last) = inner.split_at(tag_count(inner));
    if let Err(refusal) = put_tags(outer, tags) {
        return Err(refusal);
    }
    match passed_arp(last, bytes) {
        Ok(arp) => Ok(PacketParts {
            link,
            tags: outer.len(),
            arp,
        }),
        Err(status) => Err((status, outer.len() + 1)),
    }
}

/// The number of units before an ARP packet at the end.
fn tag_count(units: &[EtherUnit]) -> usize
    ensures bound { result ≤ length units.now }
    ensures split { AreSplit (take result units.now) (drop result units.now) }
{
    match units.split_last() {
        Some((last, front)) if last.kind == ARP_KIND => front.len(),
        _ => units.len(),
    }
}

/// Writes the tags in the units to an array.
fn put_tags(units: &[EtherUnit], tags: &mut [LinkExtHeader; MAX_TAGS]) -> Result<(), Refusal>
    ensures put { OnOk result (AreExts units.now (take (length units.now) tags.new)) }
    ensures few { OnOk result (length units.now ≤ 8) }
    ensures refused { IfErr result (λ r. RefusesTags units.now r.0 r.1) }
{
    for (i, unit) in units.iter().enumerate() {
        let tag = match unit.to_link_ext() {
            Ok(tag) => tag,
            Err(status) => return Err((status, i + 1)),
        };
        if i >= MAX_TAGS {
            return Err((TOO_MANY_TAGS, MAX_TAGS + 1));
        }
        tags[i] = tag;
    }
    Ok(())
}

/// The ARP packet in the unit, if there is a unit.
fn passed_arp(units: &[EtherUnit], bytes: &[u8]) -> Result<Option<ArpPacket>, u32>
    requires { length units.now ≤ 1 }
    ensures arp { IfOk result (ArePassedArp units.now bytes.now) }
    ensures refused { IfErr result (λ status. (u : unit) × (units.now ≡ u ∷ [])
        × PassesNoArp u bytes.now status) }
{
    match units.first() {
        None => Ok(None),
        Some(unit) => match unit.to_arp(bytes) {
            Ok(packet) => Ok(Some(packet)),
            Err(status) => Err(status),
        },
    }
}

/// An ARP packet if there is one, else a payload.
pub(crate) fn content<'a>(
    arp: &'a Option<ArpPacket>,
    ether_type: u16,
    payload: &'a [u8],
) -> PacketContent<'a>
    ensures { HasContent arp.now ether_type payload.now result }
{
    match arp {
        Some(packet) => PacketContent::Arp(packet),
        None => PacketContent::Payload(EtherType(ether_type), payload),
    }
}

/// Writes a packet. Returns the status of the call, and a number: the length of the packet; without room the length
/// that it needs; after a sealed SecTag the index of that SecTag plus 1; else 0.
fn write(packet: &PacketBuilder<'_, '_>, target: &mut [u8]) -> (u32, usize)
    requires { length packet.now.link_exts.now ≤ 8 }
    ensures { GivesPacketBuilt packet.now target.old target.new result.1 result.0 }
{
    match packet.write(target) {
        Ok(end) => (DONE, end),
        Err(BuildError::HardwareType(_)) => (OTHER_LINK, 0),
        Err(BuildError::Sealed(index)) => (SEALED, index + 1),
        Err(BuildError::Space(error)) => (NO_ROOM, error.required_len),
    }
}
