//! Writes a packet as a line of JSON that says each of its bytes.
ghost use Rattle.std.specs.Prelude.{◌≡◌, ◌++◌, ◌<◌, drop, slice_index_or};
ghost use Rattle.std.specs.List.{flat_map};
ghost use Rattle.ether_output.specs.HexText.{hex_text};
ghost use Rattle.ether_output.specs.OutputBuffer.{Takes, TakesAnswer};
ghost use Rattle.ether_pcap.specs.CaptureViews.{captured_packet_view};
ghost use Rattle.ether_format.specs.declared.format.Format.TheVariants as formats;
ghost use Rattle.ether_format.specs.Found.{found_told};
ghost use Rattle.ether_format.specs.Json.{json_end_of, json_object};
ghost use Rattle.ether_format.specs.JsonBytes.{exact_end_members, exact_members, reserved_bits};
ghost use Rattle.ether_format.specs.JsonBytesLines.{bytes_text, exact_keyed, exact_unit_keyed, reserved_text};
ghost use Rattle.ether_format.specs.Origins.{origin_view};
ghost use Rattle.ether_format.specs.Texts.{HasText};
ghost use Rattle.ether_format.specs.Values.{comma_if, keyed_text};

use crate::end::End;
use crate::found::Found;
use crate::found_header::FoundHeader;
use crate::json::{write_comma, write_end_front, write_json_front, write_own, write_unit};
use crate::members::{write_ethernet2_without_fcs, write_placed};
use crate::origin::Origin;
use crate::visit::{Visitor, visit};
use ether_fields::Section;
use ether_output::{OutputBuffer, Sink, digit_pair, write_decimal};
use ether_pcap::CapturedPacket;
use ether_peel::PeelUnit;

/// Writes headers with their reserved bits.
#[derive(Clone, Copy)]
struct ExactHeaders<'p> {
    /// The packet that has them.
    packet: &'p [u8],
    /// Whether the next header is the first of the packet.
    is_first: bool,
}

impl<'a, 'b, 'p, W: Sink> Visitor<'a, OutputBuffer<'b, W>> for ExactHeaders<'p> {
    ghost use Rattle.ether_format.specs.JsonBytesLines.{TakesExactHeader};

    ghost takes = { λ old out told new out_new. TakesExactHeader W.contents W.can_fail old out told new out_new };

    #[inline(always)]
    fn header(&mut self, found: Found<'a>, target: &mut OutputBuffer<'b, W>) {
        write_exact_header(self.is_first, self.packet, &found, target);
        self.is_first = false;
    }
}

/// Writes a packet as a line, and returns whether no header of it is refused.
#[inline(never)]
pub(crate) fn write_json_bytes<W: Sink>(
    limit: Option<usize>,
    origin: &Origin<'_>,
    packet: &CapturedPacket<'_>,
    out: &mut OutputBuffer<'_, W>,
) -> bool
    ensures { TakesAnswer W.contents W.can_fail
        (HasText formats.JsonBytes limit (origin_view origin.now) (captured_packet_view packet.now))
        out.old out.new result }
{
    write_json_front(origin, packet, out);
    let mut headers = ExactHeaders {
        packet: packet.packet,
        is_first: true,
    };
    let end = visit(packet, limit, &mut headers, out);
    write_exact_end(packet.packet, &end, out);
    end.is_accepted()
}

/// Writes a header of a packet as an object, after a comma unless it is the first.
#[inline(never)]
fn write_exact_header<W: Sink>(
    is_first: bool,
    packet: &[u8],
    found: &Found<'_>,
    out: &mut OutputBuffer<'_, W>,
)
    ensures { Takes W.contents W.can_fail out.old
        (comma_if is_first ++ json_object (exact_members packet.now (found_told found.now))) out.new }
{
    write_comma(is_first, out);
    write_placed(found.section, found.place, out);
    write_exact_own(&found.header, out);
    let bytes = bytes_from(packet, found.place.start);
    write_reserved(reserved_bits(found.section, bytes), out);
    out.append(b"}");
}

/// Writes the members of a header after its name and its place. A frame check sequence is none of them.
fn write_exact_own<W: Sink>(header: &FoundHeader<'_>, out: &mut OutputBuffer<'_, W>)
    ensures { Takes W.contents W.can_fail out.old (flat_map keyed_text (exact_keyed header.now)) out.new }
{
    match header {
        FoundHeader::Walked(unit) => write_exact_unit(unit, out),
        _ => write_own(header, out),
    }
}

/// .. of a header of the walk.
fn write_exact_unit<W: Sink>(unit: &PeelUnit<'_>, out: &mut OutputBuffer<'_, W>)
    ensures { Takes W.contents W.can_fail out.old (flat_map keyed_text (exact_unit_keyed unit.now)) out.new }
{
    match unit {
        PeelUnit::Ethernet2(slice) => write_ethernet2_without_fcs(slice, out),
        _ => write_unit(unit, out),
    }
}

/// Writes reserved bits as a member, unless they are 0.
fn write_reserved<W: Sink>(bits: u64, out: &mut OutputBuffer<'_, W>)
    ensures { Takes W.contents W.can_fail out.old (reserved_text bits) out.new }
{
    if bits != 0 {
        out.append(b",\"reserved\":");
        write_decimal(out, bits);
    }
}

/// The reserved bits of a header that these bytes begin with.
fn reserved_bits(section: Section, bytes: &[u8]) -> u64
    ensures { result ≡ reserved_bits section bytes.now }
{
    match section {
        Section::Macsec => byte_at(bytes, 1) / 64,
        Section::Sll2 => byte_at(bytes, 2) * 256 + byte_at(bytes, 3),
        _ => 0,
    }
}

/// The byte at an index, or 0 if there is none.
fn byte_at(bytes: &[u8], index: usize) -> u64
    ensures value { result ≡ slice_index_or bytes.now index 0 }
    ensures below { result < 256 }
{
    match bytes.get(index) {
        Some(byte) => u64::from(*byte),
        None => 0,
    }
}

/// The bytes from an offset on; none if there are not that many.
fn bytes_from(bytes: &[u8], start: usize) -> &[u8]
    ensures { result.now ≡ drop start bytes.now }
{
    &bytes[start.min(bytes.len())..]
}

/// Writes the end of the list of headers, and how the walk through them ends, with the bytes after them.
#[inline(never)]
fn write_exact_end<W: Sink>(packet: &[u8], end: &End, out: &mut OutputBuffer<'_, W>)
    ensures { Takes W.contents W.can_fail out.old (json_end_of end.now (exact_end_members packet.now end.now)) out.new }
{
    write_end_front(end, out);
    write_bytes(bytes_from(packet, end.headers_end()), out);
}

/// Writes the bytes after the headers as the last member.
fn write_bytes<W: Sink>(bytes: &[u8], out: &mut OutputBuffer<'_, W>)
    ensures { Takes W.contents W.can_fail out.old (bytes_text bytes.now) out.new }
{
    out.append(b",\"bytes\":\"");
    write_digits(bytes, out);
    out.append(b"\"}}\n");
}

/// Writes two digits for each byte.
fn write_digits<W: Sink>(bytes: &[u8], out: &mut OutputBuffer<'_, W>)
    ensures { Takes W.contents W.can_fail out.old (hex_text bytes.now) out.new }
{
    for byte in bytes {
        out.append_array(digit_pair(*byte));
    }
}
