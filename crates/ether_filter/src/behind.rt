//! What comes after a unit whose header is all there, in a packet that was cut short.
ghost use Rattle.std.specs.Prelude.{◌≡◌, ◌+◌, ◌-◌, ◌<◌, ◌≤◌, ℕ, Some, None, false, IsTrue, length, slice_range};
ghost use Rattle.etherparse.specs.Bytes.{IsBytes, number};
ghost use Rattle.etherparse.specs.Kind as kinds;
ghost use Rattle.ether_filter.specs.declared.prospect.OpenKind.TheVariants as open_kinds;
ghost use Rattle.etherparse.specs.Macsec.{sec_tag_len};
ghost use Rattle.ether_filter.specs.Prospects.{BeginsWith, IsCut, front_of, kind_named};
ghost use Rattle.ether_filter.specs.Behind.{IsWhole, IsTypeBehind, IsBehind};

use crate::prospect::{OpenKind, is_modified, is_supported, room_after, tag_len};
use ether_base::big_endian::u16_in;

/// The payload of a unit.
#[derive(Clone, Copy)]
pub(crate) struct Behind {
    /// The length of the header before it.
    pub header_len: usize,
    /// Its own length. Not all of its bytes need be there.
    pub room: usize,
    /// The ether type that announces it, if one does.
    pub ether_type: Option<u16>,
}

/// The two bytes at a place.
fn number_at(known: &[u8], at: usize) -> u16
    requires inside { at + 2 ≤ length known.now }
    ensures { result ≡ number (slice_range known.now at (at + 2)) }
{
    u16_in(&known[at..at + 2])
}

/// The payload of a unit of this many bytes, which end in an ether type.
fn behind_fixed(known: &[u8], room: usize, len: usize) -> Behind
    requires least { 2 ≤ len }
    requires whole { len ≤ length known.now }
    requires inside { length known.now ≤ room }
    ensures header { result.header_len ≡ len }
    ensures room { result.room ≡ room - len }
    ensures ether_type { result.ether_type ≡ Some (number (slice_range known.now (len - 2) len)) }
{
    Behind {
        header_len: len,
        room: room - len,
        ether_type: Some(number_at(known, len - 2)),
    }
}

/// The payload of a header of a cooked capture, if it is accepted.
fn behind_sll(known: &[u8], room: usize) -> Option<Behind>
    requires whole { 16 ≤ length known.now }
    requires inside { length known.now ≤ room }
    ensures { IsBehind kinds.LinuxSll known.now room result }
{
    if number_at(known, 0) > 7 {
        return None;
    }
    let hardware = usize::from(number_at(known, 2));
    if !is_supported(hardware) {
        return None;
    }
    if hardware == 1 {
        return Some(behind_fixed(known, room, 16));
    }
    Some(Behind {
        header_len: 16,
        room: room - 16,
        ether_type: None,
    })
}

/// The ether type after a SecTag with this first byte, if it can be read.
fn type_behind_tag(known: &[u8], first: u8) -> Option<u16>
    requires whole { (second : ℕ) → second < 256 → sec_tag_len (front_of first second) ≤ length known.now }
    ensures { (second : ℕ) → second < 256 → IsTypeBehind (front_of first second) known.now result }
{
    if is_modified(first) {
        None
    } else {
        Some(number_at(known, tag_len(first) - 2))
    }
}

/// The payload of a SecTag that begins with these two bytes, if it is accepted.
fn behind_front(known: &[u8], first: u8, second: u8, room: usize) -> Option<Behind>
    requires begins { BeginsWith first second known.now }
    requires whole { sec_tag_len (front_of first second) ≤ length known.now }
    requires inside { length known.now ≤ room }
    ensures { IsBehind kinds.Macsec known.now room result }
{
    match room_after(first, second, room) {
        Some(payload) => Some(Behind {
            header_len: tag_len(first),
            room: payload,
            ether_type: type_behind_tag(known, first),
        }),
        None => None,
    }
}

/// The payload of a SecTag whose header is all there, if it is accepted.
fn behind_sec_tag(known: &[u8], room: usize) -> Option<Behind>
    requires whole { IsWhole open_kinds.Macsec known.now }
    requires inside { length known.now ≤ room }
    ensures { IsBehind kinds.Macsec known.now room result }
{
    match known {
        [first, second, ..] => behind_front(known, *first, *second, room),
        _ => None,
    }
}

/// The payload of a unit whose header is all there, if it is accepted.
pub(crate) fn find_behind(kind: OpenKind, known: &[u8], room: usize) -> Option<Behind>
    requires whole { IsWhole kind known.now }
    requires inside { length known.now ≤ room }
    ensures { IsBehind (kind_named kind) known.now room result }
{
    match kind {
        OpenKind::Ethernet2 => Some(behind_fixed(known, room, 14)),
        OpenKind::LinuxSll => behind_sll(known, room),
        OpenKind::Vlan => Some(behind_fixed(known, room, 4)),
        OpenKind::Macsec => behind_sec_tag(known, room),
        OpenKind::Arp => None, // not reached: nothing follows it
    }
}

/// Whether the first two bytes and the length that they name are there.
fn is_whole_tag(known: &[u8]) -> bool
    ensures whole { IsTrue result → IsWhole open_kinds.Macsec known.now }
    ensures cut { result ≡ false → IsCut open_kinds.Macsec known.now }
{
    match known {
        [first, _, ..] => known.len() >= tag_len(*first),
        _ => false,
    }
}

/// Whether the header of a unit is all there, and something may follow it.
pub(crate) fn is_whole(kind: OpenKind, known: &[u8]) -> bool
    ensures whole { IsTrue result → IsWhole kind known.now }
    ensures cut { result ≡ false → IsCut kind known.now }
{
    match kind {
        OpenKind::Ethernet2 => known.len() >= 14,
        OpenKind::LinuxSll => known.len() >= 16,
        OpenKind::Vlan => known.len() >= 4,
        OpenKind::Macsec => is_whole_tag(known),
        OpenKind::Arp => false,
    }
}
