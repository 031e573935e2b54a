//! The value of each field, by its index: of a header, of the name and the place of one, and of a packet itself.
ghost use Rattle.std.specs.Prelude.{◌≡◌, Option, Some, length, take};
ghost use Rattle.std.specs.Option.{option_map};
ghost use Rattle.ether_base.specs.Bytes.{number as number_of_bytes, spelled};
ghost use Rattle.etherparse.specs.Arp.{arp_of};
ghost use Rattle.etherparse.specs.Ethernet2.{ethernet2_of, fcs_of};
ghost use Rattle.etherparse.specs.LinuxSll.{linux_sll_of};
ghost use Rattle.etherparse.specs.Macsec.{changed_of, encrypted_of, payload_type_view, sec_tag_of, tag_bytes};
ghost use Rattle.etherparse.specs.Vlan.{vlan_of};
ghost use Rattle.ether_content.specs.ContentViews.{cooked_view};
ghost use Rattle.ether_sll2.specs.LinuxSll2.{linux_sll2_of};
ghost use Rattle.ether_fields.specs.Fields.{section_name};
ghost use Rattle.ether_pcap.specs.CaptureViews.{captured_packet_view, direction_view, timestamp_view};
ghost use Rattle.ether_format.specs.Calendar.{AreMoments};
ghost use Rattle.ether_format.specs.Told.{place_values};
ghost use Rattle.ether_format.specs.Members.{Bytes, Number, Text, Word, arp_values, direction_word, ethernet2_values, if_some, linux_sll2_values, linux_sll_values, macsec_values, payload_type_value, payload_word, protocol_address, vlan_values};
ghost use Rattle.ether_format.specs.Origins.{origin_view};
ghost use Rattle.ether_format.specs.Values.{ShowsField, unit_values, value_at, value_view};

use crate::Moment;
use crate::calendar::moment_of;
use crate::interval::Interval;
use crate::origin::Origin;
use crate::place::Place;
use crate::spelling::first_of;
use crate::value::{Shown, Value};
use ether_content::CookedHeader;
use ether_fields::Section;
use ether_pcap::{CapturedPacket, Direction, Timestamp};
use ether_peel::PeelUnit;
use ether_sll2::LinuxSll2Slice;
use etherparse::{
    ArpPacketSlice, EtherType, Ethernet2Slice, LinuxSllSlice, MacsecHeaderSlice, MacsecPType,
    SingleVlanSlice,
};

/// What a packet itself has in a field.
#[inline(always)]
pub(crate) fn packet_value<'a>(
    origin: &Origin<'a>,
    packet: &CapturedPacket<'a>,
    index: usize,
) -> Option<Shown<'a>>
    ensures { ShowsField (origin_view origin.now) (captured_packet_view packet.now) index result }
{
    match index {
        0 => Some(Shown::Value(Value::Number(origin.number as u64))),
        1 => Some(Shown::Time),
        2 => Some(Shown::Value(Value::Number(u64::from(packet.link_type.0)))),
        3 => Some(Shown::Value(Value::Number(packet.packet.len() as u64))),
        4 => Some(Shown::Value(Value::Number(u64::from(packet.original_len)))),
        5 => Some(Shown::Value(interface_value(packet.interface))),
        6 => Some(Shown::Value(direction_value(packet.direction))),
        7 => Some(Shown::Value(text_value(packet.comment))),
        8 => Some(Shown::Value(text_value(origin.file))),
        9 => Some(Shown::Within(Interval::Minute)),
        10 => Some(Shown::Within(Interval::Hour)),
        11 => Some(Shown::Within(Interval::Day)),
        _ => None,
    }
}

/// The value of the number of an interface.
#[inline(always)]
fn interface_value<'a>(interface: Option<u32>) -> Value<'a>
    ensures { value_view result ≡ if_some Number interface }
{
    match interface {
        Some(interface) => Value::Number(u64::from(interface)),
        None => Value::Nothing,
    }
}

/// The value of a direction.
#[inline(always)]
fn direction_value<'a>(direction: Option<Direction>) -> Value<'a>
    ensures { value_view result ≡ if_some (λ d. Word (direction_word d)) (option_map direction_view direction) }
{
    match direction {
        Some(Direction::Inbound) => Value::Word("inbound"),
        Some(Direction::Outbound) => Value::Word("outbound"),
        None => Value::Nothing,
    }
}

/// The value of a text.
#[inline(always)]
fn text_value<'a>(text: Option<&'a [u8]>) -> Value<'a>
    ensures { value_view result ≡ if_some Text (option_map (λ t. t.now) text.entry) }
{
    match text {
        Some(text) => Value::Text(text),
        None => Value::Nothing,
    }
}

/// The moment of a time, if there is one.
pub(crate) fn moment_if(time: Option<Timestamp>) -> Option<Moment>
    ensures { AreMoments (option_map timestamp_view time) result }
{
    match time {
        Some(time) => Some(moment_of(time)),
        None => None,
    }
}

/// The value of a field of the name and the place of a header.
#[inline(always)]
pub(crate) fn place_value<'a>(section: Section, place: Place, index: usize) -> Option<Value<'a>>
    ensures { option_map value_view result ≡ value_at (place_values (section_name section) place) index }
{
    match index {
        0 => Some(Value::Word(section.name())),
        1 => Some(Value::Number(place.start as u64)),
        2 => Some(Value::Number(place.header_end as u64)),
        3 => Some(Value::Number(place.payload_end as u64)),
        4 => Some(Value::Flag(place.closed)),
        _ => None,
    }
}

/// The value of a field of a unit.
#[inline(always)]
pub(crate) fn unit_value<'a>(unit: &'a PeelUnit<'_>, index: usize) -> Option<Value<'a>>
    ensures { option_map value_view result ≡ value_at (unit_values unit.now) index }
{
    match unit {
        PeelUnit::Ethernet2(slice) => ethernet2_value(slice, index),
        PeelUnit::LinuxSll(slice) => linux_sll_column(slice, index),
        PeelUnit::Vlan(slice) => vlan_value(slice, index),
        PeelUnit::Macsec(slice) => macsec_column(&slice.header, index),
        PeelUnit::Arp(slice) => arp_value(slice, index),
    }
}

/// [`linux_sll_value`] as a call.
#[inline(never)]
fn linux_sll_column<'a>(slice: &'a LinuxSllSlice<'_>, index: usize) -> Option<Value<'a>>
    ensures { option_map value_view result ≡ value_at (linux_sll_values (linux_sll_of slice.now)) index }
{
    linux_sll_value(slice, index)
}

/// [`macsec_value`] as a call.
#[inline(never)]
fn macsec_column<'a>(tag: &MacsecHeaderSlice<'_>, index: usize) -> Option<Value<'a>>
    ensures { option_map value_view result ≡ value_at (macsec_values (sec_tag_of (tag_bytes tag.now))) index }
{
    macsec_value(tag, index)
}

/// A number as a value.
#[inline(always)]
fn number<'a>(number: u64) -> Option<Value<'a>>
    ensures { option_map value_view result ≡ Some (Number number) }
{
    Some(Value::Number(number))
}

/// The value of a field of an Ethernet II header.
#[inline(always)]
pub(crate) fn ethernet2_value<'a>(slice: &Ethernet2Slice<'_>, index: usize) -> Option<Value<'a>>
    ensures { option_map value_view result
        ≡ value_at (ethernet2_values (ethernet2_of slice.now.bytes) (fcs_of slice.now)) index }
{
    match index {
        0 => Some(Value::Mac(slice.destination())),
        1 => Some(Value::Mac(slice.source())),
        2 => Some(Value::Protocol(slice.ether_type().0)),
        3 => Some(fcs_value(slice.fcs())),
        _ => None,
    }
}

/// The value of a frame check sequence.
#[inline(always)]
fn fcs_value<'a>(fcs: Option<[u8; 4]>) -> Value<'a>
    ensures { value_view result ≡ if_some Bytes fcs }
{
    match fcs {
        Some(fcs) => Value::Four(fcs),
        None => Value::Nothing,
    }
}

/// The value of a field of a VLAN tag.
#[inline(always)]
pub(crate) fn vlan_value<'a>(slice: &SingleVlanSlice<'_>, index: usize) -> Option<Value<'a>>
    ensures { option_map value_view result ≡ value_at (vlan_values (vlan_of slice.now)) index }
{
    match index {
        0 => number(u64::from(slice.priority_code_point().value())),
        1 => number(u64::from(slice.drop_eligible_indicator())),
        2 => number(u64::from(slice.vlan_identifier().value())),
        3 => Some(Value::Protocol(slice.ether_type().0)),
        _ => None,
    }
}

/// The value of a field of a SecTag.
#[inline(always)]
pub(crate) fn macsec_value<'a>(tag: &MacsecHeaderSlice<'_>, index: usize) -> Option<Value<'a>>
    ensures { option_map value_view result ≡ value_at (macsec_values (sec_tag_of (tag_bytes tag.now))) index }
{
    match index {
        0 => Some(Value::Word(payload_word(tag.ptype()))),
        2 => number(u64::from(tag.endstation_id())),
        4 => number(u64::from(tag.tci_scb())),
        5 => number(encrypted_bit(tag.ptype())),
        6 => number(changed_bit(tag.ptype())),
        7 => number(u64::from(tag.an().value())),
        9 => number(u64::from(tag.short_len().value())),
        10 => number(u64::from(tag.packet_nr())),
        11 => Some(sci_value(tag.sci())),
        12 => Some(payload_type_value(tag.ptype())),
        _ => None,
    }
}

/// 1 if the payload of a SecTag is encrypted.
pub(crate) fn encrypted_bit(payload_type: MacsecPType) -> u64
    ensures { result ≡ encrypted_of (payload_type_view payload_type) }
{
    match payload_type {
        MacsecPType::EncryptedUnmodified | MacsecPType::Encrypted => 1,
        _ => 0,
    }
}

/// 1 if the payload of a SecTag is changed.
pub(crate) fn changed_bit(payload_type: MacsecPType) -> u64
    ensures { result ≡ changed_of (payload_type_view payload_type) }
{
    match payload_type {
        MacsecPType::Modified | MacsecPType::Encrypted => 1,
        _ => 0,
    }
}

/// The word for the payload of a SecTag.
fn payload_word(payload_type: MacsecPType) -> &'static str
    ensures { result.now ≡ payload_word (payload_type_view payload_type) }
{
    match payload_type {
        MacsecPType::Unmodified(_) => "unmodified",
        MacsecPType::Modified => "modified",
        MacsecPType::EncryptedUnmodified => "encrypted_unmodified",
        MacsecPType::Encrypted => "encrypted",
    }
}

/// The ether type of the payload of a SecTag, if it can be read.
fn payload_type_value<'a>(payload_type: MacsecPType) -> Value<'a>
    ensures { value_view result ≡ payload_type_value (payload_type_view payload_type) }
{
    match payload_type {
        MacsecPType::Unmodified(ether_type) => Value::Protocol(ether_type.0),
        _ => Value::Nothing,
    }
}

/// The value of a secure channel identifier.
fn sci_value<'a>(sci: Option<u64>) -> Value<'a>
    ensures { value_view result ≡ if_some (λ n. Bytes (spelled 8 n)) sci }
{
    match sci {
        Some(sci) => Value::Eight(sci.to_be_bytes()),
        None => Value::Nothing,
    }
}

/// The value of a field of an ARP packet.
#[inline(always)]
pub(crate) fn arp_value<'a>(packet: &'a ArpPacketSlice<'_>, index: usize) -> Option<Value<'a>>
    ensures { option_map value_view result ≡ value_at (arp_values (arp_of packet.now)) index }
{
    match index {
        0 => number(u64::from(packet.hw_addr_type().0)),
        1 => Some(Value::Protocol(packet.proto_addr_type().0)),
        2 => number(u64::from(packet.hw_addr_size())),
        3 => number(u64::from(packet.proto_addr_size())),
        4 => number(u64::from(packet.operation().0)),
        5 => Some(Value::Bytes(packet.sender_hw_addr())),
        6 => Some(protocol_address(packet.proto_addr_type(), packet.sender_protocol_addr())),
        7 => Some(Value::Bytes(packet.target_hw_addr())),
        8 => Some(protocol_address(packet.proto_addr_type(), packet.target_protocol_addr())),
        _ => None,
    }
}

/// The value of an address of a protocol.
fn protocol_address(protocol: EtherType, bytes: &[u8]) -> Value<'_>
    ensures { value_view result ≡ protocol_address protocol.0 bytes.now }
{
    if protocol == EtherType::IPV4 && bytes.len() == 4 {
        Value::Dotted(bytes)
    } else {
        Value::Bytes(bytes)
    }
}

/// The value of a field of a header of Linux cooked capture v1.
#[inline(always)]
pub(crate) fn linux_sll_value<'a>(slice: &'a LinuxSllSlice<'_>, index: usize) -> Option<Value<'a>>
    ensures { option_map value_view result ≡ value_at (linux_sll_values (linux_sll_of slice.now)) index }
{
    let len = slice.sender_address_valid_length();
    match index {
        0 => number(u64::from(slice.packet_type_number())),
        1 => number(u64::from(slice.arp_hardware_type().0)),
        2 => number(u64::from(len)),
        3 => Some(Value::Short(slice.sender_address_full(), usize::from(len))),
        4 => Some(Value::Protocol(slice.protocol_number())),
        _ => None,
    }
}

/// The value of a field of a header of Linux cooked capture v1 that is not walked.
#[inline(always)]
pub(crate) fn cooked_value<'a>(header: &'a CookedHeader, index: usize) -> Option<Value<'a>>
    ensures { option_map value_view result ≡ value_at (linux_sll_values (cooked_view header.now)) index }
{
    let len = usize::from(header.address_len);
    match index {
        0 => number(u64::from(header.packet_type)),
        1 => number(u64::from(header.hardware_type.0)),
        2 => number(u64::from(header.address_len)),
        3 => Some(Value::Bytes(used(&header.address, len))),
        4 => Some(Value::Protocol(header.protocol.0)),
        _ => None,
    }
}

/// The first `len` of the 8 bytes of an address, or all if `len` is greater.
pub(crate) fn used(address: &[u8], len: usize) -> &[u8]
    requires { length address.now ≡ 8 }
    ensures { result.now ≡ take len (spelled 8 (number_of_bytes address.now)) }
{
    first_of(address, len)
}

/// The value of a field of a header of Linux cooked capture v2.
#[inline(always)]
pub(crate) fn linux_sll2_value<'a>(
    packet: &'a LinuxSll2Slice<'_>,
    index: usize,
) -> Option<Value<'a>>
    ensures { option_map value_view result ≡ value_at (linux_sll2_values (linux_sll2_of packet.now)) index }
{
    let len = packet.sender_address_valid_length();
    match index {
        0 => Some(Value::Protocol(packet.protocol_number())),
        2 => number(u64::from(packet.interface_index())),
        3 => number(u64::from(packet.arp_hardware_type().0)),
        4 => number(u64::from(packet.packet_type_number())),
        5 => number(u64::from(len)),
        6 => Some(Value::Short(packet.sender_address_full(), usize::from(len))),
        _ => None,
    }
}
