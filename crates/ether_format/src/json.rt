//! Writes a packet as a line of JSON.
ghost use Rattle.std.specs.Prelude.{◌++◌};
ghost use Rattle.std.specs.List.{flat_map};
ghost use Rattle.ether_output.specs.OutputBuffer.{Takes};
ghost use Rattle.ether_pcap.specs.CaptureViews.{captured_packet_view};
ghost use Rattle.ether_format.specs.Found.{found_told};
ghost use Rattle.ether_format.specs.FoundHeaders.{found_keyed};
ghost use Rattle.ether_format.specs.Json.{json_end, json_front, json_object};
ghost use Rattle.ether_format.specs.Lines.{json_end_front};
ghost use Rattle.ether_format.specs.Origins.{origin_view};
ghost use Rattle.ether_format.specs.Told.{told_members};
ghost use Rattle.ether_format.specs.Values.{TakesTimed, comma_if, keyed_text, unit_keyed};

use crate::end::End;
use crate::found::Found;
use crate::found_header::FoundHeader;
use crate::members;
use crate::origin::Origin;
use ether_output::{OutputBuffer, Sink};
use ether_pcap::CapturedPacket;
use ether_peel::PeelUnit;

/// Writes the object of a packet up to its list of headers: its members, and the name of that list.
pub(crate) fn write_json_front<W: Sink>(
    origin: &Origin<'_>,
    packet: &CapturedPacket<'_>,
    out: &mut OutputBuffer<'_, W>,
)
    ensures { TakesTimed W.contents W.can_fail (captured_packet_view packet.now).time
        (json_front (origin_view origin.now) (captured_packet_view packet.now)) out.old out.new }
{
    members::write_packet_members(origin, packet, out);
    out.append(b",\"headers\":[");
}

/// Writes a header as an object, after a comma unless it is the first.
#[inline(never)]
pub(crate) fn write_json_header<W: Sink>(
    is_first: bool,
    found: &Found<'_>,
    out: &mut OutputBuffer<'_, W>,
)
    ensures { Takes W.contents W.can_fail out.old
        (comma_if is_first ++ json_object (told_members (found_told found.now))) out.new }
{
    write_comma(is_first, out);
    members::write_placed(found.section, found.place, out);
    write_own(&found.header, out);
    out.append(b"}");
}

/// Writes the members of a header after its name and its place.
#[inline(always)]
pub(crate) fn write_own<W: Sink>(header: &FoundHeader<'_>, out: &mut OutputBuffer<'_, W>)
    ensures { Takes W.contents W.can_fail out.old (flat_map keyed_text (found_keyed header.now)) out.new }
{
    match header {
        FoundHeader::Walked(unit) => write_unit(unit, out),
        FoundHeader::Cooked(header) => members::write_cooked(header, out),
        FoundHeader::CookedV2(packet) => members::write_linux_sll2(packet, out),
    }
}

/// Writes the members of a header of the walk after its name and its place.
#[inline(always)]
pub(crate) fn write_unit<W: Sink>(unit: &PeelUnit<'_>, out: &mut OutputBuffer<'_, W>)
    ensures { Takes W.contents W.can_fail out.old (flat_map keyed_text (unit_keyed unit.now)) out.new }
{
    match unit {
        PeelUnit::Ethernet2(slice) => members::write_ethernet2(slice, out),
        PeelUnit::LinuxSll(slice) => members::write_linux_sll(slice, out),
        PeelUnit::Vlan(slice) => members::write_vlan(slice, out),
        PeelUnit::Macsec(slice) => members::write_macsec(&slice.header, out),
        PeelUnit::Arp(slice) => members::write_arp(slice, out),
    }
}

/// Writes the end of the list of headers, and how the walk through them ends.
pub(crate) fn write_json_end<W: Sink>(end: &End, out: &mut OutputBuffer<'_, W>)
    ensures { Takes W.contents W.can_fail out.old (json_end end.now) out.new }
{
    write_end_front(end, out);
    out.append(b"}}\n");
}

/// .. up to the last member of how the walk ends.
#[inline(always)]
pub(crate) fn write_end_front<W: Sink>(end: &End, out: &mut OutputBuffer<'_, W>)
    ensures { Takes W.contents W.can_fail out.old (json_end_front end.now) out.new }
{
    match end {
        End::Rest(start, end, kind) => {
            out.append(b"],\"rest\":");
            members::write_rest(*start, *end, kind, out);
        }
        End::Skipped(len) => {
            out.append(b"],\"rest\":");
            members::write_skipped(*len, out);
        }
        End::Fault(start, closed, cause) => {
            out.append(b"],\"fault\":");
            members::write_fault(*start, *closed, cause, out);
        }
    }
}

/// Writes a comma, but not before the first of several.
#[inline(always)]
pub(crate) fn write_comma<W: Sink>(is_first: bool, out: &mut OutputBuffer<'_, W>)
    ensures { Takes W.contents W.can_fail out.old (comma_if is_first) out.new }
{
    if !is_first {
        out.append(b",");
    }
}
