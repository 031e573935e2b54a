//! Whether a header, or what the capture says of a packet, has a tested value of a field.
ghost use Rattle.std.specs.Prelude.{◌≡◌, ◌-◌, ◌^◌, Some, min};
ghost use Rattle.etherparse.specs.Bytes.{spelled};
ghost use Rattle.std.specs.Option.{option_map};
ghost use Rattle.etherparse.specs.Ethernet2.{ethernet2_of};
ghost use Rattle.etherparse.specs.LinuxSll.{linux_sll_of};
ghost use Rattle.etherparse.specs.Vlan.{vlan_of};
ghost use Rattle.etherparse.specs.Macsec.{payload_type_view, sec_tag_of, tag_bytes};
ghost use Rattle.etherparse.specs.Arp.{arp_of};
ghost use Rattle.ether_base.specs.Formats.Macsec.{encrypted_of, changed_of, sec_tag_front_of};
ghost use Rattle.ether_peel.specs.Walker.UnitHeader.{unit_header};
ghost use Rattle.ether_filter.specs.FieldTests.{Number, Bytes, are_related as are_related_of, part_of, is_hit, hit_if, hit, ethernet2_gives, linux_sll_gives, vlan_gives, macsec_gives, arp_gives, frame_gives};
ghost use Rattle.ether_filter.specs.Primitives.{frame_of, nanoseconds_of};

use crate::field_test::{FieldTest, Relation};
use crate::packet::{Packet, PacketTime};
use ether_base::big_endian::{bytes_of_u64, u64_in};
use ether_peel::PeelUnit;
use etherparse::{
    ArpPacketSlice, Ethernet2Slice, LinuxSllSlice, MacsecHeaderSlice, MacsecPType, SingleVlanSlice,
};

/// Whether the value that the header of a unit gives a field has the tested relation. `None` if it gives it no value.
pub(crate) fn unit_hit(test: &FieldTest, unit: &PeelUnit<'_>) -> Option<bool>
    ensures { result ≡ hit test.now (unit_header unit.now) }
{
    match unit {
        PeelUnit::Ethernet2(link) => link_hit(test, link),
        PeelUnit::LinuxSll(link) => cooked_hit(test, link),
        PeelUnit::Vlan(tag) => tag_hit(test, tag),
        PeelUnit::Macsec(packet) => sec_tag_hit(test, &packet.header),
        PeelUnit::Arp(packet) => arp_hit(test, packet),
    }
}

/// .. of Ethernet II.
fn link_hit(test: &FieldTest, link: &Ethernet2Slice<'_>) -> Option<bool>
    ensures { result ≡ hit_if test.now (ethernet2_gives test.now.field (ethernet2_of link.now.bytes)) }
{
    match test.field {
        1 => bytes_hit(test, &link.destination()),
        2 => bytes_hit(test, &link.source()),
        3 => number_hit(test, u64::from(link.ether_type().0)),
        252 => bytes_hit(test, b"eth"),
        _ => None,
    }
}

/// .. of Linux cooked capture.
fn cooked_hit(test: &FieldTest, link: &LinuxSllSlice<'_>) -> Option<bool>
    ensures { result ≡ hit_if test.now (linux_sll_gives test.now.field (linux_sll_of link.now)) }
{
    match test.field {
        4 => number_hit(test, u64::from(link.packet_type_number())),
        5 => number_hit(test, u64::from(link.arp_hardware_type().0)),
        6 => number_hit(test, u64::from(link.sender_address_valid_length())),
        7 => bytes_hit(test, &link.sender_address_full()),
        8 => number_hit(test, u64::from(link.protocol_number())),
        252 => bytes_hit(test, b"sll"),
        _ => None,
    }
}

/// .. of a VLAN tag.
fn tag_hit(test: &FieldTest, tag: &SingleVlanSlice<'_>) -> Option<bool>
    ensures { result ≡ hit_if test.now (vlan_gives test.now.field (vlan_of tag.now)) }
{
    match test.field {
        9 => number_hit(test, u64::from(tag.priority_code_point().value())),
        10 => number_hit(test, u64::from(tag.drop_eligible_indicator())),
        11 => number_hit(test, u64::from(tag.vlan_identifier().value())),
        12 => number_hit(test, u64::from(tag.ether_type().0)),
        252 => bytes_hit(test, b"vlan"),
        _ => None,
    }
}

/// .. of a SecTag.
fn sec_tag_hit(test: &FieldTest, tag: &MacsecHeaderSlice<'_>) -> Option<bool>
    ensures { result ≡ hit_if test.now (macsec_gives test.now.field
        (sec_tag_front_of 0 0 (sec_tag_of (tag_bytes tag.now))) (sec_tag_of (tag_bytes tag.now))) }
{
    match test.field {
        14 => number_hit(test, u64::from(tag.endstation_id())),
        16 => number_hit(test, u64::from(tag.tci_scb())),
        17 => number_hit(test, is_encrypted(tag.ptype())),
        18 => number_hit(test, is_changed(tag.ptype())),
        19 => number_hit(test, u64::from(tag.an().value())),
        21 => number_hit(test, u64::from(tag.short_len().value())),
        22 => number_hit(test, u64::from(tag.packet_nr())),
        23 => match tag.sci() {
            Some(sci) => sci_hit(test, sci),
            None => None,
        },
        24 => match tag.ptype() {
            MacsecPType::Unmodified(ether_type) => number_hit(test, u64::from(ether_type.0)),
            _ => None,
        },
        252 => bytes_hit(test, b"macsec"),
        _ => None,
    }
}

/// .. of its secure channel identifier.
fn sci_hit(test: &FieldTest, sci: u64) -> Option<bool>
    ensures { result ≡ hit_if test.now (Some (Bytes (spelled 8 sci))) }
{
    bytes_hit(test, &bytes_of_u64(sci))
}

/// The bit that says whether a payload is encrypted.
fn is_encrypted(payload: MacsecPType) -> u64
    ensures { result ≡ encrypted_of (payload_type_view payload) }
{
    match payload {
        MacsecPType::Encrypted | MacsecPType::EncryptedUnmodified => 1,
        MacsecPType::Unmodified(_) | MacsecPType::Modified => 0,
    }
}

/// The bit that says whether a payload was changed.
fn is_changed(payload: MacsecPType) -> u64
    ensures { result ≡ changed_of (payload_type_view payload) }
{
    match payload {
        MacsecPType::Encrypted | MacsecPType::Modified => 1,
        MacsecPType::Unmodified(_) | MacsecPType::EncryptedUnmodified => 0,
    }
}

/// .. of an ARP packet.
fn arp_hit(test: &FieldTest, packet: &ArpPacketSlice<'_>) -> Option<bool>
    ensures { result ≡ hit_if test.now (arp_gives test.now.field (arp_of packet.now)) }
{
    match test.field {
        25 => number_hit(test, u64::from(packet.hw_addr_type().0)),
        26 => number_hit(test, u64::from(packet.proto_addr_type().0)),
        27 => number_hit(test, u64::from(packet.hw_addr_size())),
        28 => number_hit(test, u64::from(packet.proto_addr_size())),
        29 => number_hit(test, u64::from(packet.operation().0)),
        30 => bytes_hit(test, packet.sender_hw_addr()),
        31 => bytes_hit(test, packet.sender_protocol_addr()),
        32 => bytes_hit(test, packet.target_hw_addr()),
        33 => bytes_hit(test, packet.target_protocol_addr()),
        252 => bytes_hit(test, b"arp"),
        _ => None,
    }
}

/// Whether what the capture says of a packet has the tested relation. `None` if there is no value.
pub(crate) fn frame_hit(test: &FieldTest, packet: &Packet<'_>) -> Option<bool>
    ensures { result ≡ hit_if test.now (frame_gives test.now.field (frame_of packet.now)) }
{
    match test.field {
        253 => match packet.time {
            Some(time) => number_hit(test, nanoseconds(time)),
            None => None,
        },
        254 => number_hit(test, packet.captured_len as u64),
        255 => number_hit(test, u64::from(packet.original_len)),
        _ => None,
    }
}

/// The nanoseconds since the beginning of 1970, at most those that fit in 64 bits.
fn nanoseconds(time: PacketTime) -> u64
    ensures { result ≡ min (nanoseconds_of time) (2 ^ 64 - 1) }
{
    let all = u128::from(time.seconds) * 1_000_000_000 + u128::from(time.nanoseconds);
    all.min(u128::from(u64::MAX)) as u64
}

/// Whether a number has the tested relation.
fn number_hit(test: &FieldTest, number: u64) -> Option<bool>
    ensures { result ≡ option_map (is_hit test.now) (part_of test.now.first test.now.count (Number number)) }
{
    Some(are_related(test.relation, number & test.mask, test.value))
}

/// Whether the tested part of some bytes has the tested relation. `None` if they do not have that part.
fn bytes_hit(test: &FieldTest, bytes: &[u8]) -> Option<bool>
    ensures { result ≡ option_map (is_hit test.now) (part_of test.now.first test.now.count (Bytes bytes.now)) }
{
    if test.count == 0 {
        return Some(part_hit(test, bytes));
    }
    let first = usize::from(test.first);
    let end = first + usize::from(test.count);
    if end > bytes.len() {
        return None;
    }
    Some(part_hit(test, &bytes[first..end]))
}

/// .. whether all of these bytes have it.
fn part_hit(test: &FieldTest, bytes: &[u8]) -> bool
    ensures { result ≡ is_hit test.now (Bytes bytes.now) }
{
    bytes.len() == usize::from(test.len)
        && bytes.len() <= 8
        && are_related(test.relation, u64_in(bytes) & test.mask, test.value)
}

/// Whether two numbers are related. For `!=` it is asked whether they are equal.
fn are_related(relation: Relation, number: u64, value: u64) -> bool
    ensures { result ≡ are_related_of relation number value }
{
    match relation {
        Relation::Exists => true,
        Relation::Equal | Relation::NotEqual => number == value,
        Relation::Less => number < value,
        Relation::AtMost => number <= value,
        Relation::Greater => number > value,
        Relation::AtLeast => number >= value,
    }
}
