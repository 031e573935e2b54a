//! The headers that are certain in a packet that was cut short, and what follows them.
ghost use Rattle.std.specs.Prelude.{◌≡◌, ◌≤◌, ℕ, Some, None, false, IsTrue, length, take};
ghost use Rattle.std.specs.Option.{option_map};
ghost use Rattle.etherparse.specs.Header.{Header, kind_of, Means};
ghost use Rattle.ether_peel.specs.Grammar.Expectation.{announced_by, announced_next, has_fcs};
ghost use Rattle.ether_peel.specs.Walker.Start.{next_of, start_of};
ghost use Rattle.ether_filter.specs.declared.packet.Packet.{Packet};
ghost use Rattle.ether_filter.specs.Primitives.{ether_type_of};
ghost use Rattle.ether_filter.specs.Fields.{fields_of};
ghost use Rattle.ether_filter.specs.TagMarks.{has_bit};
ghost use Rattle.ether_filter.specs.Seen.{nothing};
ghost use Rattle.ether_filter.specs.Prospects.{kind_named};
ghost use Rattle.ether_filter.specs.Behind.{IsWhole};
ghost use Rattle.ether_filter.specs.CutWalks.{frame_total, kind_if, FitsEnd, IsCutWalk};

use crate::behind::{find_behind, is_whole};
use crate::fields::Fields;
use crate::prospect::OpenKind;
use crate::seen::{Seen, take};
use ether_peel::Start;
use etherparse::{EtherType, Ethernet2HeaderSlice, SingleVlanHeaderSlice};

/// A unit of a packet that was cut short.
#[derive(Clone, Copy)]
pub(crate) struct CutUnit<'a> {
    pub kind: OpenKind,
    /// Its bytes that are there.
    pub known: &'a [u8],
    /// How many bytes there are up to the end of its window.
    pub room: usize,
}

/// How the headers end that are certain.
#[derive(Clone, Copy)]
pub(crate) enum CutEnd<'a> {
    /// At a unit that is not all there, or an ARP packet.
    Open(CutUnit<'a>),
    /// At a unit that is refused, whatever the missing bytes are.
    Refused,
    /// Where nothing is announced.
    Accepted,
}

/// The kind of the unit that an ether type announces.
fn kind_of_type(ether_type: u16) -> Option<OpenKind>
    ensures { option_map kind_named result ≡ announced_by ether_type }
{
    match EtherType(ether_type) {
        EtherType::VLAN_TAGGED_FRAME
        | EtherType::PROVIDER_BRIDGING
        | EtherType::VLAN_DOUBLE_TAGGED_FRAME => Some(OpenKind::Vlan),
        EtherType::MACSEC => Some(OpenKind::Macsec),
        EtherType::ARP => Some(OpenKind::Arp),
        _ => None,
    }
}

/// .. if there is an ether type.
fn kind_announced(ether_type: Option<u16>) -> Option<OpenKind>
    ensures { option_map kind_named result ≡ kind_if ether_type }
{
    match ether_type {
        Some(number) => kind_of_type(number),
        None => None,
    }
}

/// The kind of the unit that a start announces, unless its frame has a check sequence.
fn kind_of_start(start: Start) -> Option<OpenKind>
    ensures { has_fcs (start_of start) ≡ false → option_map kind_named result ≡ announced_next (next_of start) }
{
    match start {
        Start::Ethernet2 => Some(OpenKind::Ethernet2),
        Start::Ethernet2Fcs => None,
        Start::LinuxSll => Some(OpenKind::LinuxSll),
        Start::EtherType(EtherType(number)) => kind_of_type(number),
    }
}

/// The ether type that announces the first unit, if one does.
fn type_of_start(start: Start) -> Option<u16>
    ensures { result ≡ ether_type_of (next_of start) }
{
    match start {
        Start::EtherType(EtherType(number)) => Some(number),
        _ => None,
    }
}

/// The fields of an Ethernet II header.
fn link_fields(known: &[u8]) -> Fields
    requires whole { IsWhole OpenKind.Ethernet2 known.now }
    ensures { (h : Header) → kind_of h ≡ kind_named OpenKind.Ethernet2 → Means known.now h → result ≡ fields_of h }
{
    match Ethernet2HeaderSlice::from_slice(known) {
        Ok(link) => Fields::Link {
            destination: link.destination(),
            source: link.source(),
        },
        Err(_) => Fields::Other, // not reached: its bytes are there
    }
}

/// The fields of a VLAN tag.
fn tag_fields(known: &[u8]) -> Fields
    requires whole { IsWhole OpenKind.Vlan known.now }
    ensures { (h : Header) → kind_of h ≡ kind_named OpenKind.Vlan → Means known.now h → result ≡ fields_of h }
{
    match SingleVlanHeaderSlice::from_slice(known) {
        Ok(tag) => Fields::Tag(tag.vlan_identifier().value()),
        Err(_) => Fields::Other, // not reached: its bytes are there
    }
}

/// The fields of a header that is all there.
fn fields_at(kind: OpenKind, known: &[u8]) -> Fields
    requires whole { IsWhole kind known.now }
    ensures { (h : Header) → kind_of h ≡ kind_named kind → Means known.now h → result ≡ fields_of h }
{
    match kind {
        OpenKind::Ethernet2 => link_fields(known),
        OpenKind::Vlan => tag_fields(known),
        OpenKind::Macsec => Fields::SecTag,
        _ => Fields::Other,
    }
}

/// The first bytes, as many as these or all.
pub(crate) fn first_bytes(bytes: &[u8], len: usize) -> &[u8]
    ensures { result.now ≡ take len bytes.now }
{
    &bytes[..len.min(bytes.len())]
}

/// Walks through a frame that had `total` bytes on the wire, as far as the headers are certain. Keeps what they show
/// as `look` does.
pub(crate) fn cut_walk<'a>(
    start: Start,
    frame: &'a [u8],
    total: usize,
    seen: &mut Seen,
    ids: &mut [u64],
) -> CutEnd<'a>
    requires inside { length frame.now ≤ total }
    ensures fits { FitsEnd result }
    ensures walk { has_fcs (start_of start) ≡ false → seen.old ≡ nothing → ((n : ℕ) → has_bit ids.old n ≡ false)
        → (IsTrue seen.new.has_more → 64 ≤ length ids.old) → (packet : Packet) → packet.start ≡ start
        → packet.frame.now ≡ frame.now → frame_total packet ≡ total → IsCutWalk packet seen.new ids.new result }
{
    let mut announced = type_of_start(start);
    let mut next = kind_of_start(start);
    let mut known = frame;
    let mut room = total;
    while let Some(kind) = next {
        if !is_whole(kind, known) {
            seen.last = announced;
            return CutEnd::Open(CutUnit { kind, known, room });
        }
        let Some(behind) = find_behind(kind, known, room) else {
            seen.last = announced;
            seen.is_refused = true;
            return CutEnd::Refused;
        };
        take(seen, ids, fields_at(kind, known), announced);
        announced = behind.ether_type;
        next = kind_announced(announced);
        known = first_bytes(&known[behind.header_len..], behind.room);
        room = behind.room;
    }
    seen.last = announced;
    CutEnd::Accepted
}
