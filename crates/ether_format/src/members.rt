//! Writes the members of each header and of what else a packet tells, as an object has them.
ghost use Rattle.std.specs.Prelude.{None, codes};
ghost use Rattle.std.specs.Option.{option_map};
ghost use Rattle.std.specs.List.{flat_map};
ghost use Rattle.etherparse.specs.Arp.{arp_of};
ghost use Rattle.etherparse.specs.Ethernet2.{ethernet2_of, fcs_of};
ghost use Rattle.etherparse.specs.LinuxSll.{linux_sll_of};
ghost use Rattle.etherparse.specs.Macsec.{sec_tag_of, tag_bytes};
ghost use Rattle.etherparse.specs.Vlan.{vlan_of};
ghost use Rattle.ether_content.specs.ContentViews.{cooked_view};
ghost use Rattle.ether_sll2.specs.LinuxSll2.{linux_sll2_of};
ghost use Rattle.ether_pcap.specs.CaptureViews.{captured_packet_view, timestamp_view};
ghost use Rattle.ether_fields.specs.Fields.{section_name};
ghost use Rattle.ether_fields.specs.Rows.{arp_rows, ethernet2_rows, fault_rows, linux_sll2_rows, linux_sll_rows, macsec_rows, place_rows, rest_rows, vlan_rows};
ghost use Rattle.ether_output.specs.OutputBuffer.{Takes};
ghost use Rattle.ether_format.specs.Members.{Nothing, arp_values, ethernet2_values, linux_sll2_values, linux_sll_values, macsec_values, rest_values, vlan_values};
ghost use Rattle.ether_format.specs.Origins.{origin_view};
ghost use Rattle.ether_format.specs.Told.{fault_values, kind_value, kind_word, place_values};
ghost use Rattle.ether_format.specs.Values.{TakesTimed, keyed, keyed_after, keyed_text, keyed_with, packet_keyed, shown_view, value_view};

use crate::cause::Cause;
use crate::end_values::{fault_value, rest_value, skipped_value};
use crate::origin::Origin;
use crate::place::Place;
use crate::spelling::write_json_value;
use crate::times::{write_json_interval, write_json_time};
use crate::value::{Shown, Value};
use crate::values::{
    arp_value, cooked_value, ethernet2_value, linux_sll_value, linux_sll2_value, macsec_value,
    packet_value, place_value, vlan_value,
};
use ether_content::CookedHeader;
use ether_fields::{Field, Section, rows};
use ether_output::{OutputBuffer, Sink};
use ether_pcap::{CapturedPacket, Timestamp};
use ether_peel::RestKind;
use ether_sll2::LinuxSll2Slice;
use etherparse::{
    ArpPacketSlice, Ethernet2Slice, LinuxSllSlice, MacsecHeaderSlice, SingleVlanSlice,
};

/// Writes a member: its name, with what precedes it, and its value.
///
/// It is expanded where it is called: there the compiler knows the name, and which kind of value has it.
#[inline(always)]
fn write_member<W: Sink>(field: &Field, value: Option<Value<'_>>, out: &mut OutputBuffer<'_, W>)
    ensures { Takes W.contents W.can_fail out.old
        (keyed_text (keyed_with field.now.key.now (option_map value_view value.entry))) out.new }
{
    out.append(field.key.as_bytes());
    match &value {
        Some(value) => write_json_value(value, out),
        None => out.append(b"null"),
    }
}

/// [`write_member`] as a call.
#[inline(never)]
fn write_rare_member<W: Sink>(
    field: &Field,
    value: Option<Value<'_>>,
    out: &mut OutputBuffer<'_, W>,
)
    ensures { Takes W.contents W.can_fail out.old
        (keyed_text (keyed_with field.now.key.now (option_map value_view value.entry))) out.new }
{
    write_member(field, value, out);
}

/// Writes a member of a packet itself.
#[inline(always)]
fn write_shown_member<W: Sink>(
    field: &Field,
    shown: Option<Shown<'_>>,
    time: Option<Timestamp>,
    out: &mut OutputBuffer<'_, W>,
)
    ensures { TakesTimed W.contents W.can_fail (option_map timestamp_view time)
        (λ moment. keyed_text (keyed_with field.now.key.now (option_map (shown_view moment) shown.entry)))
        out.old out.new }
{
    match shown {
        Some(Shown::Time) => {
            out.append(field.key.as_bytes());
            write_json_time(time, out);
        }
        Some(Shown::Within(interval)) => {
            out.append(field.key.as_bytes());
            write_json_interval(interval, time, out);
        }
        Some(Shown::Value(value)) => write_member(field, Some(value), out),
        None => write_member(field, None, out),
    }
}

/// Writes the members of a packet itself, from the first member of its object on.
#[inline(always)]
pub(crate) fn write_packet_members<W: Sink>(
    origin: &Origin<'_>,
    packet: &CapturedPacket<'_>,
    out: &mut OutputBuffer<'_, W>,
)
    ensures { TakesTimed W.contents W.can_fail (captured_packet_view packet.now).time
        (λ moment. flat_map keyed_text
        (packet_keyed (origin_view origin.now) (captured_packet_view packet.now) moment)) out.old out.new }
{
    write_shown_member(
        &rows::FRAME[0],
        packet_value(origin, packet, 0),
        packet.time,
        out,
    );
    write_shown_member(
        &rows::FRAME[1],
        packet_value(origin, packet, 1),
        packet.time,
        out,
    );
    write_shown_member(
        &rows::FRAME[2],
        packet_value(origin, packet, 2),
        packet.time,
        out,
    );
    write_shown_member(
        &rows::FRAME[3],
        packet_value(origin, packet, 3),
        packet.time,
        out,
    );
    write_shown_member(
        &rows::FRAME[4],
        packet_value(origin, packet, 4),
        packet.time,
        out,
    );
    write_shown_member(
        &rows::FRAME[5],
        packet_value(origin, packet, 5),
        packet.time,
        out,
    );
    write_shown_member(
        &rows::FRAME[6],
        packet_value(origin, packet, 6),
        packet.time,
        out,
    );
    write_shown_member(
        &rows::FRAME[7],
        packet_value(origin, packet, 7),
        packet.time,
        out,
    );
    write_shown_member(
        &rows::FRAME[8],
        packet_value(origin, packet, 8),
        packet.time,
        out,
    );
}

/// Writes the members that each header begins with: its name and its place.
#[inline(always)]
pub(crate) fn write_placed<W: Sink>(section: Section, place: Place, out: &mut OutputBuffer<'_, W>)
    ensures { Takes W.contents W.can_fail out.old (flat_map keyed_text
        (keyed place_rows (place_values (section_name section) place))) out.new }
{
    write_member(&rows::HEADERS[0], place_value(section, place, 0), out);
    write_member(&rows::HEADERS[1], place_value(section, place, 1), out);
    write_member(&rows::HEADERS[2], place_value(section, place, 2), out);
    write_member(&rows::HEADERS[3], place_value(section, place, 3), out);
    write_member(&rows::HEADERS[4], place_value(section, place, 4), out);
}

/// Writes the members of a header of Ethernet II.
#[inline(always)]
pub(crate) fn write_ethernet2<W: Sink>(slice: &Ethernet2Slice<'_>, out: &mut OutputBuffer<'_, W>)
    ensures { Takes W.contents W.can_fail out.old (flat_map keyed_text
        (keyed_after ethernet2_rows (ethernet2_values (ethernet2_of slice.now.bytes) (fcs_of slice.now)))) out.new }
{
    write_member(&rows::ETH[5], ethernet2_value(slice, 0), out);
    write_member(&rows::ETH[6], ethernet2_value(slice, 1), out);
    write_member(&rows::ETH[7], ethernet2_value(slice, 2), out);
    write_member(&rows::ETH[8], ethernet2_value(slice, 3), out);
}

/// .. without a frame check sequence.
#[inline(never)]
pub(crate) fn write_ethernet2_without_fcs<W: Sink>(
    slice: &Ethernet2Slice<'_>,
    out: &mut OutputBuffer<'_, W>,
)
    ensures { Takes W.contents W.can_fail out.old (flat_map keyed_text
        (keyed_after ethernet2_rows (ethernet2_values (ethernet2_of slice.now.bytes) None))) out.new }
{
    write_rare_member(&rows::ETH[5], ethernet2_value(slice, 0), out);
    write_rare_member(&rows::ETH[6], ethernet2_value(slice, 1), out);
    write_rare_member(&rows::ETH[7], ethernet2_value(slice, 2), out);
    write_rare_member(&rows::ETH[8], Some(Value::Nothing), out);
}

/// Writes the members of a VLAN tag.
#[inline(always)]
pub(crate) fn write_vlan<W: Sink>(slice: &SingleVlanSlice<'_>, out: &mut OutputBuffer<'_, W>)
    ensures { Takes W.contents W.can_fail out.old (flat_map keyed_text
        (keyed_after vlan_rows (vlan_values (vlan_of slice.now)))) out.new }
{
    write_member(&rows::VLAN[5], vlan_value(slice, 0), out);
    write_member(&rows::VLAN[6], vlan_value(slice, 1), out);
    write_member(&rows::VLAN[7], vlan_value(slice, 2), out);
    write_member(&rows::VLAN[8], vlan_value(slice, 3), out);
}

/// Writes the members of a SecTag.
#[inline(never)]
pub(crate) fn write_macsec<W: Sink>(tag: &MacsecHeaderSlice<'_>, out: &mut OutputBuffer<'_, W>)
    ensures { Takes W.contents W.can_fail out.old (flat_map keyed_text
        (keyed_after macsec_rows (macsec_values (sec_tag_of (tag_bytes tag.now))))) out.new }
{
    write_member(&rows::MACSEC[5], macsec_value(tag, 0), out);
    write_member(&rows::MACSEC[7], macsec_value(tag, 2), out);
    write_member(&rows::MACSEC[9], macsec_value(tag, 4), out);
    write_member(&rows::MACSEC[10], macsec_value(tag, 5), out);
    write_member(&rows::MACSEC[11], macsec_value(tag, 6), out);
    write_member(&rows::MACSEC[12], macsec_value(tag, 7), out);
    write_member(&rows::MACSEC[14], macsec_value(tag, 9), out);
    write_member(&rows::MACSEC[15], macsec_value(tag, 10), out);
    write_member(&rows::MACSEC[16], macsec_value(tag, 11), out);
    write_member(&rows::MACSEC[17], macsec_value(tag, 12), out);
}

/// Writes the members of an ARP packet.
#[inline(always)]
pub(crate) fn write_arp<W: Sink>(packet: &ArpPacketSlice<'_>, out: &mut OutputBuffer<'_, W>)
    ensures { Takes W.contents W.can_fail out.old (flat_map keyed_text
        (keyed_after arp_rows (arp_values (arp_of packet.now)))) out.new }
{
    write_member(&rows::ARP[5], arp_value(packet, 0), out);
    write_member(&rows::ARP[6], arp_value(packet, 1), out);
    write_member(&rows::ARP[7], arp_value(packet, 2), out);
    write_member(&rows::ARP[8], arp_value(packet, 3), out);
    write_member(&rows::ARP[9], arp_value(packet, 4), out);
    write_member(&rows::ARP[10], arp_value(packet, 5), out);
    write_member(&rows::ARP[11], arp_value(packet, 6), out);
    write_member(&rows::ARP[12], arp_value(packet, 7), out);
    write_member(&rows::ARP[13], arp_value(packet, 8), out);
}

/// Writes the members of a header of Linux cooked capture v1.
#[inline(never)]
pub(crate) fn write_linux_sll<W: Sink>(slice: &LinuxSllSlice<'_>, out: &mut OutputBuffer<'_, W>)
    ensures { Takes W.contents W.can_fail out.old (flat_map keyed_text
        (keyed_after linux_sll_rows (linux_sll_values (linux_sll_of slice.now)))) out.new }
{
    write_member(&rows::SLL[5], linux_sll_value(slice, 0), out);
    write_member(&rows::SLL[6], linux_sll_value(slice, 1), out);
    write_member(&rows::SLL[7], linux_sll_value(slice, 2), out);
    write_member(&rows::SLL[8], linux_sll_value(slice, 3), out);
    write_member(&rows::SLL[9], linux_sll_value(slice, 4), out);
}

/// Writes the members of a header of Linux cooked capture v1 that is not walked.
#[inline(never)]
pub(crate) fn write_cooked<W: Sink>(header: &CookedHeader, out: &mut OutputBuffer<'_, W>)
    ensures { Takes W.contents W.can_fail out.old (flat_map keyed_text
        (keyed_after linux_sll_rows (linux_sll_values (cooked_view header.now)))) out.new }
{
    write_rare_member(&rows::SLL[5], cooked_value(header, 0), out);
    write_rare_member(&rows::SLL[6], cooked_value(header, 1), out);
    write_rare_member(&rows::SLL[7], cooked_value(header, 2), out);
    write_rare_member(&rows::SLL[8], cooked_value(header, 3), out);
    write_rare_member(&rows::SLL[9], cooked_value(header, 4), out);
}

/// Writes the members of a header of Linux cooked capture v2.
#[inline(never)]
pub(crate) fn write_linux_sll2<W: Sink>(packet: &LinuxSll2Slice<'_>, out: &mut OutputBuffer<'_, W>)
    ensures { Takes W.contents W.can_fail out.old (flat_map keyed_text
        (keyed_after linux_sll2_rows (linux_sll2_values (linux_sll2_of packet.now)))) out.new }
{
    write_member(&rows::SLL2[5], linux_sll2_value(packet, 0), out);
    write_member(&rows::SLL2[7], linux_sll2_value(packet, 2), out);
    write_member(&rows::SLL2[8], linux_sll2_value(packet, 3), out);
    write_member(&rows::SLL2[9], linux_sll2_value(packet, 4), out);
    write_member(&rows::SLL2[10], linux_sll2_value(packet, 5), out);
    write_member(&rows::SLL2[11], linux_sll2_value(packet, 6), out);
}

/// Writes the members of what is left.
#[inline(always)]
pub(crate) fn write_rest<W: Sink>(
    start: usize,
    end: usize,
    kind: &RestKind,
    out: &mut OutputBuffer<'_, W>,
)
    ensures { Takes W.contents W.can_fail out.old (flat_map keyed_text
        (keyed rest_rows (rest_values start end (kind_word kind.now) (kind_value kind.now)))) out.new }
{
    write_member(&rows::REST[0], rest_value(start, end, kind, 0), out);
    write_member(&rows::REST[1], rest_value(start, end, kind, 1), out);
    write_member(&rows::REST[2], rest_value(start, end, kind, 2), out);
    write_member(&rows::REST[3], rest_value(start, end, kind, 3), out);
}

/// Writes the members of a packet that is skipped.
#[inline(never)]
pub(crate) fn write_skipped<W: Sink>(len: usize, out: &mut OutputBuffer<'_, W>)
    ensures { Takes W.contents W.can_fail out.old (flat_map keyed_text
        (keyed rest_rows (rest_values 0 len (codes "skipped") Nothing))) out.new }
{
    write_rare_member(&rows::REST[0], skipped_value(len, 0), out);
    write_rare_member(&rows::REST[1], skipped_value(len, 1), out);
    write_rare_member(&rows::REST[2], skipped_value(len, 2), out);
    write_rare_member(&rows::REST[3], skipped_value(len, 3), out);
}

/// Writes the members of a fault.
#[inline(never)]
pub(crate) fn write_fault<W: Sink>(
    start: usize,
    closed: bool,
    cause: &Cause,
    out: &mut OutputBuffer<'_, W>,
)
    ensures { Takes W.contents W.can_fail out.old (flat_map keyed_text
        (keyed fault_rows (fault_values start closed cause.now))) out.new }
{
    write_rare_member(&rows::FAULT[0], fault_value(start, closed, cause, 0), out);
    write_rare_member(&rows::FAULT[1], fault_value(start, closed, cause, 1), out);
    write_rare_member(&rows::FAULT[2], fault_value(start, closed, cause, 2), out);
    write_rare_member(&rows::FAULT[3], fault_value(start, closed, cause, 3), out);
    write_rare_member(&rows::FAULT[4], fault_value(start, closed, cause, 4), out);
    write_rare_member(&rows::FAULT[5], fault_value(start, closed, cause, 5), out);
    write_rare_member(&rows::FAULT[6], fault_value(start, closed, cause, 6), out);
}
