//! Writes the parts of a line for the eye: the packet's number and time, its headers, and how the walk ends.
ghost use Rattle.std.specs.Prelude.{◌++◌, ◌-◌, ◌≡◌, ◌≤◌, codes, drop, nat_eq, take, true};
ghost use Rattle.etherparse.specs.Arp.{arp_of};
ghost use Rattle.etherparse.specs.Ethernet2.{ethernet2_of};
ghost use Rattle.etherparse.specs.LinuxSll.{linux_sll_of};
ghost use Rattle.etherparse.specs.Macsec.{sec_tag_of, tag_bytes};
ghost use Rattle.etherparse.specs.Vlan.{vlan_of};
ghost use Rattle.std.specs.Fmt.{decimal};
ghost use Rattle.etherparse.specs.Header as headers;
ghost use Rattle.ether_base.specs.Texts.NumberText.{hex_byte};
ghost use Rattle.ether_content.specs.ContentViews.{cooked_view};
ghost use Rattle.ether_pcap.specs.CaptureViews.{captured_packet_view};
ghost use Rattle.ether_sll2.specs.LinuxSll2.{linux_sll2_of};
ghost use Rattle.ether_output.specs.OutputBuffer.{Takes};
ghost use Rattle.ether_format.specs.Brief.{address_text, announced_text, are_both, arp_other, arp_reply, arp_request, brief_arp, brief_cause, brief_cooked_v2, brief_cut, brief_end, brief_ethernet2, brief_front, brief_header, brief_macsec, brief_moment, brief_rest, brief_vlan, cooked_text, counted_text, fault_text, fraction_text, layer_word, lengths_text, llc_text, macsec_bits, other_saps, packet_type_text, saps_text, sci_text, type_text, word_if};
ghost use Rattle.ether_output.specs.Decimals.{two_digits};
ghost use Rattle.ether_format.specs.Spelling.{colon_text};
ghost use Rattle.ether_peel.specs.Walker.UnitHeader.{unit_header};
ghost use Rattle.ether_format.specs.FoundHeaders.{found_brief};

use crate::Moment;
use crate::cause::Cause;
use crate::end::End;
use crate::end_values::kind_word;
use crate::found_header::FoundHeader;
use crate::spelling::{
    first_of, has_date, mac_text, nine_digits, write_colons, write_date, write_dotted,
};
use crate::values::{changed_bit, encrypted_bit, used};
use ether_content::{CookedHeader, is_cut};
use ether_fields::{Kind, name_of};
use ether_output::{OutputBuffer, Sink, hex_type, write_decimal, write_number};
use ether_pcap::{CapturedPacket, LinkType};
use ether_peel::{PeelUnit, RestKind};
use ether_sll2::LinuxSll2Slice;
use etherparse::err::Layer;
use etherparse::{
    ArpPacketSlice, EtherType, Ethernet2Slice, LinuxSllSlice, MacsecHeaderSlice, SingleVlanSlice,
};

/// Writes a header, after a space.
#[inline(always)]
pub(crate) fn write_brief_header<W: Sink>(header: &FoundHeader<'_>, out: &mut OutputBuffer<'_, W>)
    ensures { Takes W.contents W.can_fail out.old (found_brief header.now) out.new }
{
    match header {
        FoundHeader::Walked(unit) => write_unit(unit, out),
        FoundHeader::Cooked(header) => write_cooked(header, out),
        FoundHeader::CookedV2(packet) => write_linux_sll2(packet, out),
    }
}

/// Writes a header of the walk, after a space.
fn write_unit<W: Sink>(unit: &PeelUnit<'_>, out: &mut OutputBuffer<'_, W>)
    ensures { Takes W.contents W.can_fail out.old (brief_header (unit_header unit.now)) out.new }
{
    match unit {
        PeelUnit::Ethernet2(slice) => write_ethernet2(slice, out),
        PeelUnit::LinuxSll(slice) => write_linux_sll(slice, out),
        PeelUnit::Vlan(slice) => write_vlan(slice, out),
        PeelUnit::Macsec(slice) => write_macsec(&slice.header, out),
        PeelUnit::Arp(slice) => write_arp(slice, out),
    }
}

/// Writes ` SOURCE > DESTINATION`.
fn write_ethernet2<W: Sink>(slice: &Ethernet2Slice<'_>, out: &mut OutputBuffer<'_, W>)
    ensures { Takes W.contents W.can_fail out.old (brief_ethernet2 (ethernet2_of slice.now.bytes)) out.new }
{
    out.append(b" ");
    out.append_array(mac_text(slice.source()));
    out.append(b" > ");
    out.append_array(mac_text(slice.destination()));
}

/// Writes ` vlan VID pcp PCP`, and ` dei` if that bit is set.
fn write_vlan<W: Sink>(slice: &SingleVlanSlice<'_>, out: &mut OutputBuffer<'_, W>)
    ensures { Takes W.contents W.can_fail out.old (brief_vlan (vlan_of slice.now)) out.new }
{
    write_number(out, b" vlan ", u64::from(slice.vlan_identifier().value()));
    write_number(
        out,
        b" pcp ",
        u64::from(slice.priority_code_point().value()),
    );
    if slice.drop_eligible_indicator() {
        out.append(b" dei");
    }
}

/// Writes ` macsec an AN pn PN`: the association number and the packet number; then the SCI and the bits.
fn write_macsec<W: Sink>(tag: &MacsecHeaderSlice<'_>, out: &mut OutputBuffer<'_, W>)
    ensures { Takes W.contents W.can_fail out.old (brief_macsec (sec_tag_of (tag_bytes tag.now))) out.new }
{
    write_number(out, b" macsec an ", u64::from(tag.an().value()));
    write_number(out, b" pn ", tag.packet_nr() as u64);
    write_sci(tag.sci(), out);
    write_macsec_bits(tag, out);
}

/// Writes ` sci ADDRESS/PORT`, if there is an SCI.
fn write_sci<W: Sink>(sci: Option<u64>, out: &mut OutputBuffer<'_, W>)
    ensures { Takes W.contents W.can_fail out.old (sci_text sci) out.new }
{
    if let Some(sci) = sci {
        out.append(b" sci ");
        write_colons(first_of(&sci.to_be_bytes(), 6), out);
        write_number(out, b"/", sci % 65_536);
    }
}

/// Writes a word for each bit of a SecTag that is set.
fn write_macsec_bits<W: Sink>(tag: &MacsecHeaderSlice<'_>, out: &mut OutputBuffer<'_, W>)
    ensures { Takes W.contents W.can_fail out.old (macsec_bits (sec_tag_of (tag_bytes tag.now))) out.new }
{
    write_if(u64::from(tag.endstation_id()), b" es", out);
    write_if(u64::from(tag.tci_scb()), b" scb", out);
    write_if(encrypted_bit(tag.ptype()), b" encrypted", out);
    write_if(changed_bit(tag.ptype()), b" changed", out);
}

/// Writes a word if a bit is 1.
fn write_if<W: Sink>(bit: u64, word: &[u8], out: &mut OutputBuffer<'_, W>)
    ensures { Takes W.contents W.can_fail out.old (word_if (nat_eq bit 1) word.now) out.new }
{
    if bit == 1 {
        out.append(word);
    }
}

/// Writes an ARP packet: as a request, a reply, or another operation by its number.
fn write_arp<W: Sink>(packet: &ArpPacketSlice<'_>, out: &mut OutputBuffer<'_, W>)
    ensures { Takes W.contents W.can_fail out.old (brief_arp (arp_of packet.now)) out.new }
{
    let operation = packet.operation().0;
    if operation == 1 {
        write_arp_request(packet, out);
    } else if operation == 2 {
        write_arp_reply(packet, out);
    } else {
        write_arp_other(packet, out);
    }
}

/// Writes ` ARP who-has TARGET tell SENDER`, by their protocol addresses.
fn write_arp_request<W: Sink>(packet: &ArpPacketSlice<'_>, out: &mut OutputBuffer<'_, W>)
    ensures { Takes W.contents W.can_fail out.old (arp_request (arp_of packet.now)) out.new }
{
    let protocol = packet.proto_addr_type();
    out.append(b" ARP who-has ");
    write_address(protocol, packet.target_protocol_addr(), out);
    out.append(b" tell ");
    write_address(protocol, packet.sender_protocol_addr(), out);
}

/// Writes ` ARP reply SENDER is-at HARDWARE`.
fn write_arp_reply<W: Sink>(packet: &ArpPacketSlice<'_>, out: &mut OutputBuffer<'_, W>)
    ensures { Takes W.contents W.can_fail out.old (arp_reply (arp_of packet.now)) out.new }
{
    let protocol = packet.proto_addr_type();
    out.append(b" ARP reply ");
    write_address(protocol, packet.sender_protocol_addr(), out);
    out.append(b" is-at ");
    write_colons(packet.sender_hw_addr(), out);
}

/// Writes ` ARP op NUMBER from SENDER to TARGET`.
fn write_arp_other<W: Sink>(packet: &ArpPacketSlice<'_>, out: &mut OutputBuffer<'_, W>)
    ensures { Takes W.contents W.can_fail out.old (arp_other (arp_of packet.now)) out.new }
{
    let protocol = packet.proto_addr_type();
    write_number(out, b" ARP op ", u64::from(packet.operation().0));
    out.append(b" from ");
    write_address(protocol, packet.sender_protocol_addr(), out);
    out.append(b" to ");
    write_address(protocol, packet.target_protocol_addr(), out);
}

/// Writes a protocol address: of IPv4 with dots, any other in hexadecimal digits with colons.
fn write_address<W: Sink>(protocol: EtherType, bytes: &[u8], out: &mut OutputBuffer<'_, W>)
    ensures { Takes W.contents W.can_fail out.old (address_text protocol.0 bytes.now) out.new }
{
    if protocol == EtherType::IPV4 && bytes.len() == 4 {
        write_dotted(bytes, out);
    } else {
        write_colons(bytes, out);
    }
}

/// Writes a header of cooked capture v1.
#[inline(never)]
fn write_linux_sll<W: Sink>(slice: &LinuxSllSlice<'_>, out: &mut OutputBuffer<'_, W>)
    ensures { Takes W.contents W.can_fail out.old (brief_header (headers.LinuxSll (linux_sll_of slice.now))) out.new }
{
    let address = slice.sender_address_full();
    let len = usize::from(slice.sender_address_valid_length());
    write_sender(slice.packet_type_number(), first_of(&address, len), out);
}

/// Writes ` cooked TYPE from ADDRESS`: how the packet was sent, and the sender's address.
fn write_sender<W: Sink>(packet_type: u16, address: &[u8], out: &mut OutputBuffer<'_, W>)
    ensures { Takes W.contents W.can_fail out.old (cooked_text packet_type address.now) out.new }
{
    out.append(b" cooked ");
    write_packet_type(packet_type, out);
    out.append(b" from ");
    write_colons(address, out);
}

/// Writes a packet type by its name, or as a number if it has no name.
#[tactic(auto, unfolding(crate::specs::Brief::packet_type_text))]
fn write_packet_type<W: Sink>(packet_type: u16, out: &mut OutputBuffer<'_, W>)
    ensures { Takes W.contents W.can_fail out.old (packet_type_text packet_type) out.new }
{
    match name_of(Kind::PacketType, u64::from(packet_type)) {
        Some(name) => out.append(name.as_bytes()),
        None => write_number(out, b"type ", u64::from(packet_type)),
    }
}

/// Writes a header of cooked capture v1 that is not walked.
#[inline(never)]
fn write_cooked<W: Sink>(header: &CookedHeader, out: &mut OutputBuffer<'_, W>)
    ensures { Takes W.contents W.can_fail out.old (brief_header (headers.LinuxSll (cooked_view header.now))) out.new }
{
    let address = used(&header.address, usize::from(header.address_len));
    write_sender(header.packet_type, address, out);
}

/// Writes a header of cooked capture v2.
#[inline(never)]
fn write_linux_sll2<W: Sink>(packet: &LinuxSll2Slice<'_>, out: &mut OutputBuffer<'_, W>)
    ensures { Takes W.contents W.can_fail out.old (brief_cooked_v2 (linux_sll2_of packet.now)) out.new }
{
    let packet_type = u16::from(packet.packet_type_number());
    let address = packet.sender_address_full();
    let len = usize::from(packet.sender_address_valid_length());
    write_number(out, b" if ", packet.interface_index() as u64);
    write_sender(packet_type, first_of(&address, len), out);
}

/// Writes how the walk through a packet ends, after a space.
pub(crate) fn write_brief_end<W: Sink>(
    packet: &CapturedPacket<'_>,
    end: &End,
    out: &mut OutputBuffer<'_, W>,
)
    ensures { Takes W.contents W.can_fail out.old (brief_end (captured_packet_view packet.now) end.now) out.new }
{
    match end {
        End::Rest(start, end, kind) => write_rest(packet, *start, *end, kind, out),
        End::Skipped(len) => write_skipped(*len, out),
        End::Fault(start, _, cause) => write_fault(*start, cause, out),
    }
}

/// Writes what is left, and its length; nothing for the padding after an ARP packet.
fn write_rest<W: Sink>(
    packet: &CapturedPacket<'_>,
    start: usize,
    end: usize,
    kind: &RestKind,
    out: &mut OutputBuffer<'_, W>,
)
    ensures { Takes W.contents W.can_fail out.old (brief_rest (captured_packet_view packet.now) start end kind.now)
        out.new }
{
    let len = end.saturating_sub(start);
    match kind {
        RestKind::AfterArp => {}
        RestKind::EtherType(ether_type) => {
            out.append(b" ");
            write_announced(packet, *ether_type, start, len, out);
            write_len(len, out);
        }
        _ => {
            out.append(b" ");
            out.append(kind_word(kind).as_bytes());
            write_len(len, out);
        }
    }
}

/// Writes an ether type, or a length of IEEE 802.3 and what the bytes that it counts begin with.
fn write_announced<W: Sink>(
    packet: &CapturedPacket<'_>,
    ether_type: EtherType,
    start: usize,
    len: usize,
    out: &mut OutputBuffer<'_, W>,
)
    ensures { Takes W.contents W.can_fail out.old (announced_text (captured_packet_view packet.now) ether_type.0
        (take len (drop start packet.now.packet.now))) out.new }
{
    if ether_type.0 <= 1500 && packet.link_type == LinkType::ETHERNET {
        write_counted(
            ether_type.0,
            first_of(after(packet.packet, start), len),
            out,
        );
    } else {
        write_type(ether_type, out);
    }
}

/// The bytes from an offset on, or none if there are fewer.
fn after(bytes: &[u8], start: usize) -> &[u8]
    ensures { result.now ≡ drop start bytes.now }
{
    &bytes[start.min(bytes.len())..]
}

/// Writes `802.3 len LEN`, and what the first LEN bytes begin with.
#[inline(never)]
fn write_counted<W: Sink>(len: u16, rest: &[u8], out: &mut OutputBuffer<'_, W>)
    ensures { Takes W.contents W.can_fail out.old (counted_text len rest.now) out.new }
{
    write_number(out, b"802.3 len ", u64::from(len));
    write_llc(first_of(rest, usize::from(len)), out);
}

/// Writes the two addresses of LLC, if both are there.
fn write_llc<W: Sink>(bytes: &[u8], out: &mut OutputBuffer<'_, W>)
    ensures { Takes W.contents W.can_fail out.old (llc_text bytes.now) out.new }
{
    if bytes.len() >= 2 {
        write_saps(bytes[0], bytes[1], out);
    }
}

/// Writes ` STP`, ` SNAP` or ` LLC dsap DSAP ssap SSAP`.
fn write_saps<W: Sink>(dsap: u8, ssap: u8, out: &mut OutputBuffer<'_, W>)
    ensures { Takes W.contents W.can_fail out.old (saps_text dsap ssap) out.new }
{
    if are_both(dsap, ssap, 0x42) {
        out.append(b" STP");
    } else if are_both(dsap, ssap, 0xAA) {
        out.append(b" SNAP");
    } else {
        write_other_saps(dsap, ssap, out);
    }
}

/// Whether both addresses are this one.
fn are_both(dsap: u8, ssap: u8, sap: u8) -> bool
    ensures { result ≡ are_both dsap ssap sap }
{
    dsap == sap && ssap == sap
}

/// Writes ` LLC dsap DSAP ssap SSAP`.
fn write_other_saps<W: Sink>(dsap: u8, ssap: u8, out: &mut OutputBuffer<'_, W>)
    ensures { Takes W.contents W.can_fail out.old (other_saps dsap ssap) out.new }
{
    out.append(b" LLC dsap 0x");
    out.append_array(upper_pair(dsap));
    out.append(b" ssap 0x");
    out.append_array(upper_pair(ssap));
}

/// The two digits of a byte, in upper case.
fn upper_pair(byte: u8) -> [u8; 2]
    ensures { result ≡ hex_byte true byte }
{
    let digits = hex_type(EtherType(u16::from(byte)));
    [digits[4], digits[5]]
}

/// Writes ` LEN bytes`.
fn write_len<W: Sink>(len: usize, out: &mut OutputBuffer<'_, W>)
    ensures { Takes W.contents W.can_fail out.old (codes " " ++ (decimal len ++ codes " bytes")) out.new }
{
    write_number(out, b" ", len as u64);
    out.append(b" bytes");
}

/// Writes an ether type by its name, or as a hexadecimal number if it has no name here.
#[tactic(auto, unfolding(crate::specs::Brief::type_text))]
fn write_type<W: Sink>(ether_type: EtherType, out: &mut OutputBuffer<'_, W>)
    ensures { Takes W.contents W.can_fail out.old (type_text ether_type.0) out.new }
{
    match name_of(Kind::EtherType, u64::from(ether_type.0)) {
        Some(name) => out.append(name.as_bytes()),
        None => out.append(&hex_type(ether_type)),
    }
}

/// Writes ` skipped LEN bytes`.
fn write_skipped<W: Sink>(len: usize, out: &mut OutputBuffer<'_, W>)
    ensures { Takes W.contents W.can_fail out.old (codes " skipped " ++ (decimal len ++ codes " bytes")) out.new }
{
    write_number(out, b" skipped ", len as u64);
    out.append(b" bytes");
}

/// Writes ` fault at START: CAUSE`.
fn write_fault<W: Sink>(start: usize, cause: &Cause, out: &mut OutputBuffer<'_, W>)
    ensures { Takes W.contents W.can_fail out.old (fault_text start cause.now) out.new }
{
    write_number(out, b" fault at ", start as u64);
    out.append(b": ");
    write_cause(cause, out);
}

/// Writes what is wrong with a header.
fn write_cause<W: Sink>(cause: &Cause, out: &mut OutputBuffer<'_, W>)
    ensures { Takes W.contents W.can_fail out.old (brief_cause cause.now) out.new }
{
    match cause {
        Cause::Length(required, available, _, layer) => {
            write_lengths(*layer, *required, *available, out);
        }
        Cause::UnknownPacketType(number) => {
            write_number(out, b"packet type ", u64::from(*number));
        }
        Cause::UnknownHardwareType(number) => {
            write_number(out, b"hardware type ", u64::from(*number));
        }
        Cause::Version => out.append(b"version 1 of MACsec"),
        Cause::ShortLength => out.append(b"short length 1"),
    }
}

/// Writes `LAYER needs REQUIRED bytes, has AVAILABLE`.
fn write_lengths<W: Sink>(
    layer: Layer,
    required: usize,
    available: usize,
    out: &mut OutputBuffer<'_, W>,
)
    ensures { Takes W.contents W.can_fail out.old (lengths_text layer required available) out.new }
{
    out.append(layer_word(layer).as_bytes());
    write_number(out, b"needs ", required as u64);
    write_number(out, b" bytes, has ", available as u64);
}

/// The word for a layer that was cut, and a space.
fn layer_word(layer: Layer) -> &'static str
    ensures { result.now ≡ layer_word layer }
{
    match layer {
        Layer::Ethernet2Header => "Ethernet II ",
        Layer::LinuxSllHeader => "cooked header ",
        Layer::VlanHeader => "vlan ",
        Layer::MacsecHeader => "macsec ",
        Layer::MacsecPacket => "macsec packet ",
        Layer::Arp => "ARP ",
        _ => "",
    }
}

/// Writes the number and the time of a packet; a hyphen if it has no time.
pub(crate) fn write_brief_front<W: Sink>(
    number: usize,
    moment: Option<Moment>,
    out: &mut OutputBuffer<'_, W>,
)
    ensures { Takes W.contents W.can_fail out.old (brief_front number moment) out.new }
{
    write_decimal(out, number as u64);
    out.append(b" ");
    match moment {
        Some(moment) => write_brief_moment(&moment, out),
        None => out.append(b"-"),
    }
}

/// Writes a date and a time of day, or without a date the seconds since the beginning of 1970, with six or nine
/// decimals.
fn write_brief_moment<W: Sink>(moment: &Moment, out: &mut OutputBuffer<'_, W>)
    ensures { Takes W.contents W.can_fail out.old (brief_moment moment.now) out.new }
{
    if !has_date(moment) {
        write_decimal(out, moment.seconds);
        out.append(b".");
        write_fraction(moment.nanoseconds, out);
        return;
    }
    write_date(moment, out);
    out.append(b".");
    write_fraction(moment.nanoseconds, out);
    out.append(b"Z");
}

/// Writes six decimals, or nine if the last three are not 0.
fn write_fraction<W: Sink>(nanoseconds: u32, out: &mut OutputBuffer<'_, W>)
    ensures { Takes W.contents W.can_fail out.old (fraction_text nanoseconds) out.new }
{
    let digits = nine_digits(nanoseconds);
    if nanoseconds % 1_000 == 0 {
        out.append(&digits[..6]);
    } else {
        out.append(&digits);
    }
}

/// Writes how much of a packet was captured, if that is not all, and ends the line.
pub(crate) fn write_brief_tail<W: Sink>(packet: &CapturedPacket<'_>, out: &mut OutputBuffer<'_, W>)
    ensures { Takes W.contents W.can_fail out.old (brief_cut (captured_packet_view packet.now) ++ codes "\n") out.new }
{
    if is_cut(packet) {
        write_number(out, b" (", packet.packet.len() as u64);
        write_number(out, b" of ", packet.original_len as u64);
        out.append(b" bytes)");
    }
    out.append(b"\n");
}
