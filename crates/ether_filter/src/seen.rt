//! `Seen`: what one walk through a packet shows, for all primitives together.
ghost use Rattle.std.specs.Prelude.{◌≡◌, ◌≤◌, ◌||◌, ℕ, IsTrue, length, false, Some, is_some};
ghost use Rattle.ether_peel.specs.Grammar.Stack.{Walk};
ghost use Rattle.ether_peel.specs.Walker.Start.{start_of, next_of};
ghost use Rattle.ether_filter.specs.Primitives.{Walked};
ghost use Rattle.ether_filter.specs.Jumps.{tags_of};
ghost use Rattle.ether_filter.specs.TagMarks.{is_some_number, has_bit};
ghost use Rattle.ether_filter.specs.Seen.{nothing, Shows, IsTaken, AreMarked, tag_id, seen_in_link, has_vlan_id, seen_truth, is_announced as is_announced_of};
ghost use Rattle.ether_filter.specs.FilterProgram.{primitive_numbered};
ghost use Rattle.ether_filter.specs.declared.primitive.Primitive.{Primitive};

use crate::fields::{BROADCAST, Fields, address, announced_type, is_group, read_fields};
use crate::instruction::Instruction;
use crate::tag_marks::{TagTypes, has_id, has_type, mark, set_type};
use ether_peel::{Peel, Start};
use etherparse::EtherType;

/// The two addresses of a link.
#[derive(Clone, Copy)]
pub(crate) struct Addresses {
    destination: [u8; 6],
    source: [u8; 6],
}

/// What the headers of a packet show, except for the identifiers of three VLAN tags or more.
#[derive(Clone, Copy)]
pub(crate) struct Seen {
    pub is_refused: bool,
    has_sec_tag: bool,
    has_arp: bool,
    /// Whether there are three VLAN tags or more.
    pub has_more: bool,
    /// The ether types that announce VLAN tags.
    types: TagTypes,
    link: Option<Addresses>,
    /// The ether type that is announced after the last header.
    pub last: Option<u16>,
    /// The identifier of the first VLAN tag.
    pub outer: Option<u16>,
    /// The identifier of the last VLAN tag, if there are two or more.
    inner: Option<u16>,
}

impl Seen {
    /// What is known before the walk.
    #[inline(always)]
    pub(crate) fn new() -> Seen
        ensures { result ≡ nothing }
    {
        Seen {
            is_refused: false,
            has_sec_tag: false,
            has_arp: false,
            has_more: false,
            types: TagTypes {
                customer: false,
                service: false,
                double: false,
            },
            link: None,
            last: None,
            outer: None,
            inner: None,
        }
    }
}

/// Walks through a packet, and keeps what its headers show, and in `ids` the identifiers of its VLAN tags. If `ids` is
/// empty, the walk ends at the third tag.
#[inline(always)]
pub(crate) fn look(start: Start, frame: &[u8], seen: &mut Seen, ids: &mut [u64])
    ensures { seen.old ≡ nothing → ((n : ℕ) → has_bit ids.old n ≡ false)
        → (IsTrue seen.new.has_more → 64 ≤ length ids.old) → (w : Walked) → w.start ≡ next_of start
        → Walk (start_of start) frame.now w.headers w.ending → Shows w seen.new ids.new }
{
    let mut peel = Peel::new(start, frame);
    loop {
        let announced = announced_type(peel.kind());
        match peel.next() {
            Some(Ok(unit)) => {
                take(seen, ids, read_fields(&unit), announced);
                if seen.has_more && ids.is_empty() {
                    return;
                }
            }
            Some(Err(_)) => {
                seen.last = announced;
                seen.is_refused = true;
                return;
            }
            None => {
                seen.last = announced;
                return;
            }
        }
    }
}

/// Adds what a further header shows, which this ether type announces.
#[inline(always)]
pub(crate) fn take(seen: &mut Seen, ids: &mut [u64], fields: Fields, announced: Option<u16>)
    ensures taken { IsTaken seen.old fields announced seen.new }
    ensures marked { AreMarked ids.old (tag_id fields) ids.new }
    ensures len { length ids.new ≡ length ids.old }
{
    match fields {
        Fields::Link {
            destination,
            source,
        } => {
            seen.link = Some(Addresses {
                destination,
                source,
            });
        }
        Fields::Tag(id) => {
            take_tag(seen, id, announced);
            mark(ids, id);
        }
        Fields::SecTag => seen.has_sec_tag = true,
        Fields::Arp => seen.has_arp = true,
        Fields::Other => {}
    }
}

/// Adds a further VLAN tag.
#[inline(always)]
fn take_tag(seen: &mut Seen, id: u16, announced: Option<u16>)
    ensures { IsTaken seen.old (Fields.Tag id) announced seen.new }
{
    set_type(&mut seen.types, announced);
    if seen.outer.is_none() {
        seen.outer = Some(id);
    } else {
        take_inner(seen, id);
    }
}

/// .. after the first one.
#[inline(never)]
fn take_inner(seen: &mut Seen, id: u16)
    ensures { seen.new ≡ record seen.old { has_more = seen.old.has_more || is_some seen.old.inner; inner = Some id } }
{
    seen.has_more |= seen.inner.is_some();
    seen.inner = Some(id);
}

/// Whether the primitive of an instruction matches a packet in which this was seen, if it asks about headers and tests
/// no field; else `None`.
#[inline(always)]
pub(crate) fn is_seen(instruction: &Instruction, seen: &Seen, ids: &[u64]) -> Option<bool>
    ensures { result ≡ seen_truth (primitive_numbered instruction.now.kind instruction.now.operand) seen.now ids.now }
{
    let operand = instruction.operand;
    let number = (operand % (1 << 16)) as u16;
    Some(match instruction.kind {
        0 => seen.outer.is_some(),
        1 => is_vlan_id(number, seen, ids),
        2 => is_number(seen.outer, number),
        3 => is_number(seen.inner, number),
        4 => seen.has_sec_tag,
        5 => is_announced(number, seen),
        6 => is_from(operand, &seen.link),
        7 => is_to(operand, &seen.link),
        8 => is_from(operand, &seen.link) || is_to(operand, &seen.link),
        9 => is_to(BROADCAST, &seen.link),
        10 => is_to_group(&seen.link),
        11 => seen.is_refused,
        _ => return None,
    })
}

/// Whether a link has this source.
#[inline(never)]
fn is_from(source: u64, link: &Option<Addresses>) -> bool
    ensures { result ≡ seen_in_link (Primitive.Source source) link.now }
{
    match link {
        Some(link) => source == address(link.source),
        None => false,
    }
}

/// Whether a link has this destination.
#[inline(never)]
fn is_to(destination: u64, link: &Option<Addresses>) -> bool
    ensures { result ≡ seen_in_link (Primitive.Destination destination) link.now }
{
    match link {
        Some(link) => destination == address(link.destination),
        None => false,
    }
}

/// Whether the destination of a link is a group address.
#[inline(never)]
fn is_to_group(link: &Option<Addresses>) -> bool
    ensures { result ≡ seen_in_link Primitive.Multicast link.now }
{
    match link {
        Some(link) => is_group(address(link.destination)),
        None => false,
    }
}

/// Whether a VLAN tag has this identifier.
#[inline(always)]
pub(crate) fn is_vlan_id(id: u16, seen: &Seen, ids: &[u64]) -> bool
    ensures { result ≡ has_vlan_id id seen.now.has_more seen.now.outer seen.now.inner ids.now }
{
    match seen.inner {
        None => is_number(seen.outer, id),
        Some(inner) => {
            if seen.has_more {
                has_id(ids, id)
            } else {
                is_number(seen.outer, id) || id == inner
            }
        }
    }
}

/// Whether there is a number, and it is this one.
#[inline(always)]
fn is_number(found: Option<u16>, number: u16) -> bool
    ensures { result ≡ is_some_number number found }
{
    match found {
        Some(found) => number == found,
        None => false,
    }
}

/// Whether an ether type is announced.
#[inline(always)]
fn is_announced(number: u16, seen: &Seen) -> bool
    ensures { result ≡ is_announced_of number seen.now }
{
    is_number(seen.last, number)
        || match EtherType(number) {
            EtherType::VLAN_TAGGED_FRAME
            | EtherType::PROVIDER_BRIDGING
            | EtherType::VLAN_DOUBLE_TAGGED_FRAME => has_type(seen.types, number),
            EtherType::MACSEC => seen.has_sec_tag,
            EtherType::ARP => seen.has_arp,
            _ => false,
        }
}

/// What is known of the VLAN tags of a packet.
#[derive(Clone, Copy)]
pub(crate) enum Tags {
    /// There is none.
    Untagged,
    /// There is one, with this identifier.
    One(u16),
    /// There are several.
    Many,
}

/// What is known of the VLAN tags of a packet, by what was seen in it.
#[inline(always)]
pub(crate) fn tags_seen(seen: &Seen) -> Tags
    ensures { result ≡ tags_of seen.now.outer seen.now.inner }
{
    match (seen.outer, seen.inner) {
        (None, _) => Tags::Untagged,
        (Some(id), None) => Tags::One(id),
        _ => Tags::Many,
    }
}
