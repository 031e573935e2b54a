//! The fewest bytes of a unit with which a primitive can be decided.
ghost use Rattle.std.specs.Prelude.{◌≡◌, ◌↔◌, ◌+◌, ◌-◌, ◌*◌, get_or, ◌<◌, ◌≤◌, ◌++◌, [], ℕ, List, length, true, false, IsTrue, ◌⊎◌};
ghost use Rattle.etherparse.specs.Bytes.{IsBytes};
ghost use Rattle.etherparse.specs.Kind.{Kind};
ghost use Rattle.etherparse.specs.Macsec.{sec_tag_len};
ghost use Rattle.ether_filter.specs.declared.possible.Told.{Told as ToldValue};
ghost use Rattle.ether_filter.specs.declared.can.Can.{Can as CanValue};
ghost use Rattle.ether_filter.specs.declared.prospect.OpenKind.TheVariants as open_kinds;
ghost use Rattle.ether_filter.specs.Prospects.{BeginsWith, IsCut, IsFixed, IsProspect, IsShortTag, IsTypeAt, front_of};
ghost use Rattle.ether_filter.specs.OwnFields.{FitsLink, FitsTag};
ghost use Rattle.ether_filter.specs.Deciding.{is_of_field, is_of_link as is_of_link_of};
ghost use Rattle.ether_filter.specs.Needed.{IsDecided, IsUndecided};
ghost use Rattle.ether_filter.specs.LeastBytes.{AllOpen, IsLeastAt};

use crate::can::Can;
use crate::deciding::is_of_link;
use crate::own_fields::{can_be_address, own_of};
use crate::possible::{Told, possible_after};
use crate::primitive::Primitive;
use crate::prospect::{
    OpenKind, Prospect, arp_prospect, is_modified, room_after, sll_prospect, tag_len, tag_prospect,
    type_at,
};

/// The prospect of a unit of this many bytes, which end in an ether type. It stays the same until the type begins.
fn of_typed(known: &[u8], room: usize, len: usize) -> Prospect
    requires least { 2 ≤ len }
    requires few { length known.now < len }
    requires long { len ≤ room }
    ensures prospect { (kind : Kind) → IsFixed kind len → (more : List ℕ) → IsBytes (known.now ++ more)
        → length (known.now ++ more) < len → (length (known.now ++ more) ≤ len - 2) ⊎ (more ≡ [])
        → IsProspect kind (known.now ++ more) room result }
    ensures bytes { IsBytes known.now }
    ensures value { result
        ≡ record { can_be_accepted = true; can_be_refused = false; next = result.next; room = room - len } }
    ensures next { IsTypeAt known.now (len - 2) result.next }
{
    Prospect {
        can_be_accepted: true,
        can_be_refused: false,
        next: type_at(known, len - 2),
        room: room - len,
    }
}

/// The number of bytes up to the first one of the ether type, or up to the second one if the first is there.
fn with_type(have: usize, len: usize) -> usize
    requires few { have < len }
    ensures high { have + 1 < len → result ≡ len - 1 }
    ensures low { len ≤ have + 1 → result ≡ len }
{
    if have + 1 < len { len - 1 } else { len }
}

/// Whether a primitive stays undecided, if this is known of the fields of the unit.
fn stays_open(primitive: Primitive, told: Told, kind: OpenKind, own: Can, after: Prospect) -> bool
    ensures undecided { is_of_field primitive ≡ false → IsTrue result
        → AllOpen (λ p. IsUndecided p primitive) primitive told kind own after }
    ensures decided { is_of_field primitive ≡ false → (IsTrue result → ⊥)
        → AllOpen (λ p. IsDecided p primitive) primitive told kind own after }
{
    possible_after(primitive, told, kind, own, after).is_open()
}

/// The fewest bytes of an Ethernet II header, for a primitive that does not ask about its addresses.
fn of_ethernet2_type(primitive: Primitive, told: Told, known: &[u8], room: usize) -> usize
    requires few { length known.now < 14 }
    requires long { 14 ≤ room }
    ensures { is_of_link_of primitive ≡ false → IsLeastAt primitive told open_kinds.Ethernet2 known.now room result }
{
    let own = Can::decided(false); // not asked for
    let after = of_typed(known, room, 14);
    if stays_open(primitive, told, OpenKind::Ethernet2, own, after) {
        with_type(known.len(), 14)
    } else {
        known.len()
    }
}

/// The fewest bytes of a VLAN tag, if further bytes change nothing of what its identifier makes of a primitive.
fn of_vlan_settled(primitive: Primitive, told: Told, own: Can, known: &[u8], room: usize) -> usize
    requires few { length known.now < 4 }
    requires long { 4 ≤ room }
    requires settled { (own.matches ≡ false) ⊎ (2 ≤ length known.now) }
    requires own { FitsTag primitive known.now own }
    ensures { IsLeastAt primitive told open_kinds.Vlan known.now room result }
{
    let after = of_typed(known, room, 4);
    if stays_open(primitive, told, OpenKind::Vlan, own, after) {
        with_type(known.len(), 4)
    } else {
        known.len()
    }
}

/// The fewest bytes of a VLAN tag whose identifier can still be a wanted one, since it is not all there.
fn of_vlan_open(primitive: Primitive, told: Told, known: &[u8], room: usize) -> usize
    requires few { length known.now < 2 }
    requires long { 4 ≤ room }
    requires possible { (own : CanValue) × FitsTag primitive known.now own × (own.matches ≡ true) }
    ensures { IsLeastAt primitive told open_kinds.Vlan known.now room result }
{
    let after = of_typed(known, room, 4);
    let kind = OpenKind::Vlan;
    if !stays_open(primitive, told, kind, Can::EITHER, after) {
        return known.len();
    }
    if !stays_open(primitive, told, kind, Can::MISSED, after) {
        return known.len() + 1;
    }
    if stays_open(primitive, told, kind, Can::MET, after) {
        with_type(known.len(), 4)
    } else {
        2
    }
}

/// The fewest bytes of a VLAN tag.
fn of_vlan(primitive: Primitive, told: Told, known: &[u8], room: usize) -> usize
    requires few { length known.now < 4 }
    ensures { IsLeastAt primitive told open_kinds.Vlan known.now room result }
{
    if room < 4 {
        return known.len();
    }
    let own = own_of(primitive, OpenKind::Vlan, known);
    if own.matches && known.len() < 2 {
        of_vlan_open(primitive, told, known, room)
    } else {
        of_vlan_settled(primitive, told, own, known, room)
    }
}

/// The fewest bytes of an Ethernet II header, for a primitive about its addresses that the known bytes do not decide.
fn of_addresses(primitive: Primitive, known: &[u8]) -> usize
    requires few { length known.now < 14 }
    requires open { (own : CanValue) × FitsLink primitive known.now own × IsTrue own.matches × IsTrue own.fails }
    ensures { is_of_link_of primitive ≡ true → (told : ToldValue) (room : ℕ) → 14 ≤ room
        → IsLeastAt primitive told open_kinds.Ethernet2 known.now room result }
{
    if known.len() >= 6 {
        return known.len() + 1;
    }
    match primitive {
        Primitive::Source(_) => 7,
        Primitive::Host(address) => {
            if can_be_address(known, 0, address).matches {
                6
            } else {
                7
            }
        }
        _ => known.len() + 1,
    }
}

/// The fewest bytes of an Ethernet II header.
fn of_ethernet2(primitive: Primitive, told: Told, known: &[u8], room: usize) -> usize
    requires few { length known.now < 14 }
    ensures { IsLeastAt primitive told open_kinds.Ethernet2 known.now room result }
{
    if room < 14 {
        return known.len();
    }
    if !is_of_link(primitive) {
        return of_ethernet2_type(primitive, told, known, room);
    }
    let own = own_of(primitive, OpenKind::Ethernet2, known);
    if own.is_open() {
        of_addresses(primitive, known)
    } else {
        known.len()
    }
}

/// The fewest bytes of an ARP packet. Its two sizes are the fifth and the sixth byte.
fn of_arp(primitive: Primitive, told: Told, known: &[u8], room: usize) -> usize
    requires inside { length known.now ≤ room }
    ensures { IsLeastAt primitive told open_kinds.Arp known.now room result }
{
    if known.len() >= 6 {
        return known.len();
    }
    let after = arp_prospect(known, room);
    if stays_open(primitive, told, OpenKind::Arp, Can::EITHER, after) {
        with_type(known.len(), 6)
    } else {
        known.len()
    }
}

/// The fewest bytes of the header of a cooked capture with less than four bytes: each of these can have a value that is
/// refused.
fn of_sll_begun(primitive: Primitive, told: Told, known: &[u8], room: usize) -> usize
    requires few { length known.now < 4 }
    requires inside { length known.now ≤ room }
    ensures { IsLeastAt primitive told open_kinds.LinuxSll known.now room result }
{
    let after = sll_prospect(known, room);
    if stays_open(primitive, told, OpenKind::LinuxSll, Can::EITHER, after) {
        known.len() + 1
    } else {
        known.len()
    }
}

/// Whether the first four bytes of a cooked capture are accepted, and say that an ether type follows.
fn has_type(known: &[u8]) -> bool
    requires four { 4 ≤ length known.now }
    ensures { IsTrue result ↔ ((256 * get_or known.now 0 0 + get_or known.now 1 0 ≤ 7)
        × (256 * get_or known.now 2 0 + get_or known.now 3 0 ≡ 1)) }
{
    known[0] == 0 && known[1] <= 7 && known[2] == 0 && known[3] == 1
}

/// The fewest bytes of the header of a cooked capture whose first four bytes are there.
fn of_sll_typed(primitive: Primitive, told: Told, known: &[u8], room: usize) -> usize
    requires four { 4 ≤ length known.now }
    requires few { length known.now < 16 }
    requires inside { length known.now ≤ room }
    ensures { IsLeastAt primitive told open_kinds.LinuxSll known.now room result }
{
    if room < 16 {
        return known.len();
    }
    if !has_type(known) {
        return known.len();
    }
    let after = of_typed(known, room, 16);
    if stays_open(primitive, told, OpenKind::LinuxSll, Can::EITHER, after) {
        with_type(known.len(), 16)
    } else {
        known.len()
    }
}

/// The fewest bytes of the header of a cooked capture.
fn of_sll(primitive: Primitive, told: Told, known: &[u8], room: usize) -> usize
    requires few { length known.now < 16 }
    requires inside { length known.now ≤ room }
    ensures { IsLeastAt primitive told open_kinds.LinuxSll known.now room result }
{
    if known.len() < 4 {
        of_sll_begun(primitive, told, known, room)
    } else {
        of_sll_typed(primitive, told, known, room)
    }
}

/// The fewest bytes of a SecTag with less than two bytes: the next one can be such that the tag is refused.
fn of_tag_begun(primitive: Primitive, told: Told, known: &[u8], room: usize) -> usize
    requires begun { length known.now < 2 }
    requires few { IsShortTag known.now }
    requires inside { length known.now ≤ room }
    ensures { IsLeastAt primitive told open_kinds.Macsec known.now room result }
{
    let after = tag_prospect(known, room);
    if stays_open(primitive, told, OpenKind::Macsec, Can::EITHER, after) {
        known.len() + 1
    } else {
        known.len()
    }
}

/// The fewest bytes of a SecTag that begins with these two bytes.
fn of_tag_front(
    primitive: Primitive,
    told: Told,
    known: &[u8],
    first: u8,
    second: u8,
    room: usize,
) -> usize
    requires begins { BeginsWith first second known.now }
    requires few { length known.now < sec_tag_len (front_of first second) }
    requires inside { length known.now ≤ room }
    ensures { IsLeastAt primitive told open_kinds.Macsec known.now room result }
{
    let Some(payload) = room_after(first, second, room) else {
        return known.len();
    };
    if is_modified(first) {
        return known.len();
    }
    let len = tag_len(first);
    let after = Prospect {
        can_be_accepted: true,
        can_be_refused: false,
        next: type_at(known, len - 2),
        room: payload,
    };
    if stays_open(primitive, told, OpenKind::Macsec, Can::EITHER, after) {
        with_type(known.len(), len)
    } else {
        known.len()
    }
}

/// The fewest bytes of a SecTag.
fn of_tag(primitive: Primitive, told: Told, known: &[u8], room: usize) -> usize
    requires few { IsShortTag known.now }
    requires inside { length known.now ≤ room }
    ensures { IsLeastAt primitive told open_kinds.Macsec known.now room result }
{
    match known {
        [first, second, ..] => of_tag_front(primitive, told, known, *first, *second, room),
        _ => of_tag_begun(primitive, told, known, room),
    }
}

/// The fewest bytes of an open unit with which a primitive that tests no field can be decided. It counts the bytes that
/// are there; the missing ones come right after them.
pub(crate) fn least(
    primitive: Primitive,
    told: Told,
    kind: OpenKind,
    known: &[u8],
    room: usize,
) -> usize
    requires few { IsCut kind known.now }
    requires inside { length known.now ≤ room }
    ensures { IsLeastAt primitive told kind known.now room result }
{
    match kind {
        OpenKind::Ethernet2 => of_ethernet2(primitive, told, known, room),
        OpenKind::LinuxSll => of_sll(primitive, told, known, room),
        OpenKind::Vlan => of_vlan(primitive, told, known, room),
        OpenKind::Macsec => of_tag(primitive, told, known, room),
        OpenKind::Arp => of_arp(primitive, told, known, room),
    }
}
