//! Writes the lines of a walk: one for each unit and one for the ending, or one for the two counts of feeding it.
//!
//! Each is appended to the output piece by piece, since the formatter would take twice as long.
ghost use Rattle.std.specs.Prelude.{◌≡◌, ◌++◌, ◌≤◌, codes, decimal, length};
ghost use Rattle.etherparse.specs.Ethernet2.{ethernet2_of, fcs_of};
ghost use Rattle.etherparse.specs.Vlan.{vlan_of};
ghost use Rattle.etherparse.specs.LinuxSll.{linux_sll_of};
ghost use Rattle.etherparse.specs.Macsec.{payload_type_view, sec_tag_of, tag_bytes};
ghost use Rattle.etherparse.specs.Arp.{arp_of};
ghost use Rattle.ether_text.specs.Lines.{arp_text, feed_text, linux_sll_text, macsec_text, mark_text, payload_type_text, protocol_text, sci_text, vlan_text};
ghost use Rattle.ether_output.specs.Words.{source_text};
ghost use Rattle.ether_output.specs.OutputBuffer.{Takes};
ghost use Rattle.ether_text.specs.ViewLines.{error_view_text, ethernet2_view_text, fault_view_text, fcs_text, fields_text, kind_view_text, len_view_text, linux_sll_view_text, macsec_view_text, rest_view_text, view_text};

use crate::write_hex::{hex_address, hex_fcs, hex_long};
use ether_output::{OutputBuffer, Sink, hex_type, source_of, write_decimal, write_number};
use ether_peel::{PeelError, PeelFault, PeelUnit, RestKind};
use etherparse::err::{self, LenError};
use etherparse::{
    ArpPacketSlice, EtherType, Ethernet2Slice, LinuxSllProtocolType, LinuxSllSlice,
    MacsecHeaderSlice, MacsecPType, SingleVlanSlice,
};

/// Writes the line of a unit that starts at offset `start`. The window after its header has `len` bytes, and is closed
/// or open.
pub fn write_unit<W: Sink>(
    out: &mut OutputBuffer<'_, W>,
    start: usize,
    len: usize,
    closed: bool,
    unit: &PeelUnit<'_>,
)
    ensures { Takes W.contents W.can_fail out.old (view_text start len closed unit.now ++ codes "\n") out.new }
{
    write_view(out, start, len, closed, unit);
    out.append(b"\n");
}

/// Writes the text of a unit.
#[inline(always)]
fn write_view<W: Sink>(
    out: &mut OutputBuffer<'_, W>,
    start: usize,
    len: usize,
    closed: bool,
    unit: &PeelUnit<'_>,
)
    ensures { Takes W.contents W.can_fail out.old (view_text start len closed unit.now) out.new }
{
    match unit {
        PeelUnit::Ethernet2(slice) => write_ethernet2(out, start, slice),
        PeelUnit::LinuxSll(slice) => write_linux_sll(out, start, slice),
        PeelUnit::Vlan(slice) => write_vlan(out, start, slice),
        PeelUnit::Macsec(slice) => write_macsec(out, start, &slice.header, len, closed),
        PeelUnit::Arp(slice) => write_arp(out, start, slice),
    }
}

/// Writes the text of an Ethernet II header.
#[inline(always)]
fn write_ethernet2<W: Sink>(out: &mut OutputBuffer<'_, W>, start: usize, slice: &Ethernet2Slice<'_>)
    ensures { Takes W.contents W.can_fail out.old
        (ethernet2_view_text start (ethernet2_of slice.now.bytes) (fcs_of slice.now)) out.new }
{
    out.append(b"ethernet2 ");
    write_decimal(out, start as u64);
    out.append_array(ethernet2_fields(slice));
    write_fcs(out, slice.fcs());
}

/// The digits of both addresses and of the ether type, each after a space.
#[inline(always)]
fn ethernet2_fields(slice: &Ethernet2Slice<'_>) -> [u8; 33]
    ensures { result ≡ fields_text (ethernet2_of slice.now.bytes) }
{
    let d = hex_address(slice.destination());
    let s = hex_address(slice.source());
    let t = hex_type(slice.ether_type());
    [
        b' ', d[0], d[1], d[2], d[3], d[4], d[5], d[6], d[7], d[8], d[9], d[10], d[11], b' ', s[0],
        s[1], s[2], s[3], s[4], s[5], s[6], s[7], s[8], s[9], s[10], s[11], b' ', t[0], t[1], t[2],
        t[3], t[4], t[5],
    ]
}

/// Writes what a frame check sequence adds to the text of an Ethernet II header.
#[inline(always)]
fn write_fcs<W: Sink>(out: &mut OutputBuffer<'_, W>, fcs: Option<[u8; 4]>)
    ensures { Takes W.contents W.can_fail out.old (fcs_text fcs) out.new }
{
    if let Some(fcs) = fcs {
        out.append(b" fcs ");
        out.append_array(hex_fcs(fcs));
    }
}

/// Writes the text of a header of Linux cooked capture.
fn write_linux_sll<W: Sink>(out: &mut OutputBuffer<'_, W>, start: usize, slice: &LinuxSllSlice<'_>)
    ensures { Takes W.contents W.can_fail out.old (linux_sll_text start (linux_sll_of slice.now)) out.new }
{
    write_number(out, b"linux_sll ", start as u64);
    write_number(out, b" packet ", u64::from(slice.packet_type_number()));
    write_number(out, b" hw ", u64::from(slice.arp_hardware_type().0));
    write_number(
        out,
        b" alen ",
        u64::from(slice.sender_address_valid_length()),
    );
    out.append(b" addr ");
    out.append(&hex_long(slice.sender_address_full()));
    out.append(b" ");
    out.append(&hex_type(EtherType(slice.protocol_number())));
}

/// Writes the text of a VLAN tag.
#[inline(always)]
fn write_vlan<W: Sink>(out: &mut OutputBuffer<'_, W>, start: usize, slice: &SingleVlanSlice<'_>)
    ensures { Takes W.contents W.can_fail out.old (vlan_text start (vlan_of slice.now)) out.new }
{
    out.append(b"vlan ");
    write_decimal(out, start as u64);
    out.append(b" pcp ");
    write_decimal(out, u64::from(slice.priority_code_point().value()));
    out.append(b" dei ");
    write_decimal(out, u64::from(slice.drop_eligible_indicator()));
    out.append(b" vid ");
    write_decimal(out, u64::from(slice.vlan_identifier().value()));
    out.append(b" ");
    out.append_array(hex_type(slice.ether_type()));
}

/// Writes the text of a MACsec SecTag, and of the window after it.
fn write_macsec<W: Sink>(
    out: &mut OutputBuffer<'_, W>,
    start: usize,
    tag: &MacsecHeaderSlice<'_>,
    len: usize,
    closed: bool,
)
    ensures { Takes W.contents W.can_fail out.old
        (macsec_text start (sec_tag_of (tag_bytes tag.now)) len closed) out.new }
{
    write_number(out, b"macsec ", start as u64);
    out.append(b" ");
    write_payload_type(out, tag.ptype());
    write_number(out, b" es ", u64::from(tag.endstation_id()));
    write_number(out, b" scb ", u64::from(tag.tci_scb()));
    write_number(out, b" an ", u64::from(tag.an().value()));
    write_number(out, b" sl ", u64::from(tag.short_len().value()));
    write_number(out, b" pn ", tag.packet_nr() as u64);
    out.append(b" sci ");
    write_sci(out, tag.sci());
    write_number(out, b" window ", len as u64);
    out.append(b" ");
    out.append(mark_of(closed).as_bytes());
}

/// Writes the text of the payload type of a SecTag.
fn write_payload_type<W: Sink>(out: &mut OutputBuffer<'_, W>, ptype: MacsecPType)
    ensures { Takes W.contents W.can_fail out.old (payload_type_text (payload_type_view ptype)) out.new }
{
    match ptype {
        MacsecPType::Unmodified(ether_type) => {
            out.append(b"unmodified ");
            out.append(&hex_type(ether_type));
        }
        MacsecPType::Modified => out.append(b"modified"),
        MacsecPType::Encrypted => out.append(b"encrypted"),
        MacsecPType::EncryptedUnmodified => out.append(b"encrypted_unmodified"),
    }
}

/// Writes the digits of a secure channel identifier, or a hyphen if there is none.
fn write_sci<W: Sink>(out: &mut OutputBuffer<'_, W>, sci: Option<u64>)
    ensures { Takes W.contents W.can_fail out.old (sci_text sci) out.new }
{
    match sci {
        Some(sci) => out.append(&hex_long(sci.to_be_bytes())),
        None => out.append(b"-"),
    }
}

/// Writes the text of an ARP packet.
fn write_arp<W: Sink>(out: &mut OutputBuffer<'_, W>, start: usize, slice: &ArpPacketSlice<'_>)
    ensures { Takes W.contents W.can_fail out.old (arp_text start (arp_of slice.now)) out.new }
{
    write_number(out, b"arp ", start as u64);
    write_number(out, b" hw ", u64::from(slice.hw_addr_type().0));
    out.append(b" proto ");
    out.append_array(hex_type(slice.proto_addr_type()));
    write_number(out, b" hlen ", u64::from(slice.hw_addr_size()));
    write_number(out, b" plen ", u64::from(slice.proto_addr_size()));
    write_number(out, b" op ", u64::from(slice.operation().0));
}

/// Writes the line of what is left of an accepted frame: the offsets of its start and its end, and what it is
/// announced as.
#[inline(always)]
pub fn write_rest<W: Sink>(out: &mut OutputBuffer<'_, W>, start: usize, end: usize, kind: RestKind)
    ensures { Takes W.contents W.can_fail out.old (rest_view_text start end kind ++ codes "\n") out.new }
{
    out.append(b"rest ");
    write_decimal(out, start as u64);
    out.append(b" ");
    write_decimal(out, end as u64);
    write_kind(out, kind);
    out.append(b"\n");
}

/// Writes a space, and what a window is announced as.
#[inline(always)]
fn write_kind<W: Sink>(out: &mut OutputBuffer<'_, W>, kind: RestKind)
    ensures { Takes W.contents W.can_fail out.old (codes " " ++ kind_view_text kind) out.new }
{
    match kind {
        RestKind::Start => out.append(b" "),
        RestKind::EtherType(ether_type) => {
            out.append(b" type ");
            out.append_array(hex_type(ether_type));
        }
        RestKind::Sll(protocol) => write_protocol(out, protocol),
        RestKind::Sealed => out.append(b" sealed"),
        RestKind::AfterArp => out.append(b" after_arp"),
    }
}

/// Writes a space, and the protocol of a cooked capture that has no ether type.
fn write_protocol<W: Sink>(out: &mut OutputBuffer<'_, W>, protocol: LinuxSllProtocolType)
    ensures { Takes W.contents W.can_fail out.old (codes " " ++ protocol_text protocol) out.new }
{
    match protocol {
        LinuxSllProtocolType::Ignored(number) => {
            out.append(b" sll ignored ");
            out.append(&hex_type(EtherType(number)));
        }
        LinuxSllProtocolType::NetlinkProtocolType(number) => {
            out.append(b" sll netlink ");
            out.append(&hex_type(EtherType(number)));
        }
        LinuxSllProtocolType::GenericRoutingEncapsulationProtocolType(number) => {
            out.append(b" sll gre ");
            out.append(&hex_type(EtherType(number)));
        }
        LinuxSllProtocolType::EtherType(_) | LinuxSllProtocolType::LinuxNonstandardEtherType(_) =>
            out.append(b" "),
    }
}

/// Writes the line of a walk that is fed: how often it asks for more bytes, and how many bytes it takes.
pub fn write_counts<W: Sink>(out: &mut OutputBuffer<'_, W>, refusals: usize, taken: usize)
    ensures { Takes W.contents W.can_fail out.old (feed_text refusals taken ++ codes "\n") out.new }
{
    write_number(out, b"feed refusals ", refusals as u64);
    write_number(out, b" taken ", taken as u64);
    out.append(b"\n");
}

/// Writes the line of a frame's fault.
pub fn write_fault<W: Sink>(out: &mut OutputBuffer<'_, W>, fault: &PeelFault)
    ensures { Takes W.contents W.can_fail out.old (fault_view_text fault.now ++ codes "\n") out.new }
{
    out.append(b"fault ");
    write_decimal(out, fault.offset as u64);
    out.append(b" ");
    out.append(mark_of(fault.closed).as_bytes());
    out.append(b" ");
    write_error(out, &fault.error);
    out.append(b"\n");
}

/// Writes the text of what is wrong with a unit.
fn write_error<W: Sink>(out: &mut OutputBuffer<'_, W>, error: &PeelError)
    ensures { Takes W.contents W.can_fail out.old (error_view_text error.now) out.new }
{
    match error {
        PeelError::Len(error) => write_len_error(out, error),
        PeelError::LinuxSll(error) => write_linux_sll_error(out, error),
        PeelError::Macsec(error) => write_macsec_error(out, error),
    }
}

/// Writes the text of a length error.
fn write_len_error<W: Sink>(out: &mut OutputBuffer<'_, W>, error: &LenError)
    ensures { Takes W.contents W.can_fail out.old (len_view_text error.now) out.new }
{
    out.append(b"length ");
    write_decimal(out, error.required_len as u64);
    out.append(b" ");
    write_decimal(out, error.len as u64);
    out.append(b" ");
    out.append(source_of(error.len_source).as_bytes());
}

/// Writes the text of what is wrong in a header of Linux cooked capture.
fn write_linux_sll_error<W: Sink>(
    out: &mut OutputBuffer<'_, W>,
    error: &err::linux_sll::HeaderError,
)
    ensures { Takes W.contents W.can_fail out.old (linux_sll_view_text error.now) out.new }
{
    match error {
        err::linux_sll::HeaderError::UnsupportedPacketTypeField { packet_type } => {
            write_number(out, b"content sll_packet_type ", u64::from(*packet_type));
        }
        err::linux_sll::HeaderError::UnsupportedArpHardwareId { arp_hardware_type } => {
            write_number(
                out,
                b"content sll_hardware_type ",
                u64::from(arp_hardware_type.0),
            );
        }
    }
}

/// Writes the text of what is wrong in a MACsec SecTag.
fn write_macsec_error<W: Sink>(out: &mut OutputBuffer<'_, W>, error: &err::macsec::HeaderError)
    ensures { Takes W.contents W.can_fail out.old (macsec_view_text error.now) out.new }
{
    match error {
        err::macsec::HeaderError::UnexpectedVersion => out.append(b"content macsec_version"),
        err::macsec::HeaderError::InvalidUnmodifiedShortLen => {
            out.append(b"content macsec_short_len");
        }
    }
}

/// The word for a window's mark: `open` or `closed`.
fn mark_of(closed: bool) -> &'static str
    ensures { result.now ≡ mark_text closed }
{
    if closed { "closed" } else { "open" }
}
