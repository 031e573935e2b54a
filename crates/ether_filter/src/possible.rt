//! What the missing bytes of a packet can make of a primitive.
ghost use Rattle.std.specs.Prelude.{◌≡◌, ◌↔◌, ◌<◌, ◌≤◌, ℕ, List, IsTrue, true, false, length};
ghost use Rattle.etherparse.specs.Bytes.{IsBytes};
ghost use Rattle.etherparse.specs.Header.{Header};
ghost use Rattle.ether_filter.specs.declared.packet.Packet.{Packet};
ghost use Rattle.ether_filter.specs.declared.primitive.Primitive.{Primitive as PrimitiveValue};
ghost use Rattle.ether_filter.specs.declared.primitive.Primitive.TheVariants as primitives;
ghost use Rattle.ether_filter.specs.Deciding.{is_of_lengths as is_of_lengths_of, is_of_field, is_of_link};
ghost use Rattle.ether_filter.specs.Prospects.{IsCut, IsOpen, kind_named};
ghost use Rattle.ether_filter.specs.Later.{IsOpenAs};
ghost use Rattle.ether_filter.specs.OwnFields.{FitsOwn};
ghost use Rattle.ether_filter.specs.Possible.{AreTold, IsPossible, is_vlan as is_vlan_of, is_macsec as is_macsec_of, is_ethernet2 as is_ethernet2_of};

use crate::can::Can;
use crate::own_fields::own_of;
use crate::primitive::Primitive;
use crate::prospect::{OpenKind, Prospect, prospect_of};

/// What the headers before an open unit say of a primitive.
#[derive(Clone, Copy)]
pub(crate) struct Told {
    /// They match it.
    pub is_match: bool,
    /// One of them is a VLAN tag.
    pub has_tag: bool,
}

/// Whether the unit is a VLAN tag that is accepted.
fn is_vlan(kind: OpenKind, after: Prospect) -> bool
    ensures { IsTrue result ↔ ((is_vlan_of kind ≡ true) × IsTrue after.can_be_accepted) }
{
    match kind {
        OpenKind::Vlan => after.can_be_accepted,
        _ => false,
    }
}

/// Whether it is a SecTag.
fn is_macsec(kind: OpenKind) -> bool
    ensures { result ≡ is_macsec_of kind }
{
    matches!(kind, OpenKind::Macsec)
}

/// Whether it is an Ethernet II header that is accepted.
fn is_ethernet2(kind: OpenKind, after: Prospect) -> bool
    ensures { IsTrue result ↔ ((is_ethernet2_of kind ≡ true) × IsTrue after.can_be_accepted) }
{
    match kind {
        OpenKind::Ethernet2 => after.can_be_accepted,
        _ => false,
    }
}

/// Whether a further tag can have this identifier, which has 12 bits, if one can follow.
fn can_have_id(id: u16, follows: bool) -> bool
    ensures { IsTrue result ↔ ((id < 4096) × IsTrue follows) }
{
    id < 4096 && follows
}

/// `vlan`
fn of_vlan(told: Told, kind: OpenKind, after: Prospect) -> Can
    ensures { (packet : Packet) (hs : List Header) (known : List ℕ) (room : ℕ)
        → IsOpenAs packet hs kind known room after → AreTold packet hs primitives.Vlan told
        → IsPossible packet primitives.Vlan result }
{
    if told.is_match {
        return Can::decided(true);
    }
    if is_vlan(kind, after) {
        return Can::decided(true);
    }
    Can {
        matches: after.tag_can_follow(),
        fails: true,
    }
}

/// `vlan N`
fn of_vlan_id(id: u16, told: Told, kind: OpenKind, own: Can, after: Prospect) -> Can
    ensures { (packet : Packet) (hs : List Header) (known : List ℕ) (room : ℕ)
        → IsOpenAs packet hs kind known room after → FitsOwn (primitives.VlanId id) kind known own
        → AreTold packet hs (primitives.VlanId id) told → IsPossible packet (primitives.VlanId id) result }
{
    if told.is_match {
        return Can::decided(true);
    }
    let later = can_have_id(id, after.tag_can_follow());
    if is_vlan(kind, after) {
        return own.or(Can {
            matches: later,
            fails: false,
        });
    }
    Can {
        matches: later,
        fails: true,
    }
}

/// `outer vlan N`
fn of_outer_vlan(id: u16, told: Told, kind: OpenKind, own: Can, after: Prospect) -> Can
    ensures { (packet : Packet) (hs : List Header) (known : List ℕ) (room : ℕ)
        → IsOpenAs packet hs kind known room after → FitsOwn (primitives.OuterVlan id) kind known own
        → AreTold packet hs (primitives.OuterVlan id) told → IsPossible packet (primitives.OuterVlan id) result }
{
    if told.has_tag {
        return Can::decided(told.is_match);
    }
    if is_vlan(kind, after) {
        return own;
    }
    Can {
        matches: can_have_id(id, after.tag_can_follow()),
        fails: true,
    }
}

/// `inner vlan N`
fn of_inner_vlan(id: u16, told: Told, kind: OpenKind, own: Can, after: Prospect) -> Can
    ensures { (packet : Packet) (hs : List Header) (known : List ℕ) (room : ℕ)
        → IsOpenAs packet hs kind known room after → FitsOwn (primitives.InnerVlan id) kind known own
        → AreTold packet hs (primitives.InnerVlan id) told → IsPossible packet (primitives.InnerVlan id) result }
{
    let follows = after.tag_can_follow();
    let later = Can {
        matches: can_have_id(id, follows),
        fails: follows,
    };
    if is_vlan(kind, after) {
        if told.has_tag {
            return own.or(later);
        }
        return Can {
            matches: later.matches,
            fails: true,
        };
    }
    if told.has_tag {
        return Can::decided(told.is_match).or(later);
    }
    Can::decided(told.is_match).or(Can {
        matches: can_have_id(id, after.two_tags_can_follow()),
        fails: follows,
    })
}

/// `macsec`
fn of_macsec(told: Told, kind: OpenKind, after: Prospect) -> Can
    ensures { (packet : Packet) (hs : List Header) (known : List ℕ) (room : ℕ)
        → IsOpenAs packet hs kind known room after → AreTold packet hs primitives.Macsec told
        → IsPossible packet primitives.Macsec result }
{
    if told.is_match {
        return Can::decided(true);
    }
    if is_macsec(kind) {
        return Can {
            matches: after.can_be_accepted,
            fails: after.can_be_refused,
        };
    }
    Can {
        matches: after.sec_tag_can_follow(),
        fails: true,
    }
}

/// `ether proto N`
fn of_ether_type(number: u16, told: Told, after: Prospect) -> Can
    ensures { (packet : Packet) (hs : List Header) (kind : OpenKind) (known : List ℕ) (room : ℕ)
        → IsOpenAs packet hs kind known room after → AreTold packet hs (primitives.EtherType number) told
        → IsPossible packet (primitives.EtherType number) result }
{
    if told.is_match {
        return Can::decided(true);
    }
    Can {
        matches: after.type_can_follow(number),
        fails: true,
    }
}

/// `refused`
fn of_refused(after: Prospect) -> Can
    ensures { (packet : Packet) (hs : List Header) (kind : OpenKind) (known : List ℕ) (room : ℕ)
        → IsOpenAs packet hs kind known room after → IsPossible packet primitives.Refused result }
{
    let later = after.refusal_can_follow();
    Can {
        matches: after.can_be_refused || later,
        fails: after.can_be_accepted,
    }
}

/// A primitive about an Ethernet II header.
fn of_addresses(told: Told, kind: OpenKind, own: Can, after: Prospect) -> Can
    ensures { (primitive : PrimitiveValue) → is_of_link primitive ≡ true → is_of_field primitive ≡ false
        → (packet : Packet) (hs : List Header) (known : List ℕ) (room : ℕ)
        → IsOpenAs packet hs kind known room after → FitsOwn primitive kind known own
        → AreTold packet hs primitive told → IsPossible packet primitive result }
{
    if is_ethernet2(kind, after) {
        own
    } else {
        Can::decided(told.is_match)
    }
}

/// What is possible for a primitive that tests no field, by what the fields of the open unit can make of it, and what
/// can follow.
pub(crate) fn possible_after(
    primitive: Primitive,
    told: Told,
    kind: OpenKind,
    own: Can,
    after: Prospect,
) -> Can
    ensures { is_of_field primitive ≡ false → (packet : Packet) (hs : List Header) (known : List ℕ) (room : ℕ)
        → IsOpenAs packet hs kind known room after → FitsOwn primitive kind known own
        → AreTold packet hs primitive told → IsPossible packet primitive result }
{
    match primitive {
        Primitive::Vlan => of_vlan(told, kind, after),
        Primitive::VlanId(id) => of_vlan_id(id, told, kind, own, after),
        Primitive::OuterVlan(id) => of_outer_vlan(id, told, kind, own, after),
        Primitive::InnerVlan(id) => of_inner_vlan(id, told, kind, own, after),
        Primitive::Macsec => of_macsec(told, kind, after),
        Primitive::EtherType(number) => of_ether_type(number, told, after),
        Primitive::Refused => of_refused(after),
        Primitive::Cut
        | Primitive::Less(_)
        | Primitive::Greater(_)
        | Primitive::Frame(_)
        | Primitive::Field(_) => Can::decided(told.is_match),
        _ => of_addresses(told, kind, own, after),
    }
}

/// Whether a primitive that tests no field can match a packet whose first unit that is not whole is this one, and
/// whether it can fail, if the packet has any bytes in place of those that are missing.
pub(crate) fn possible(
    primitive: Primitive,
    told: Told,
    kind: OpenKind,
    known: &[u8],
    room: usize,
) -> Can
    requires few { IsCut kind known.now }
    requires inside { length known.now ≤ room }
    ensures { is_of_field primitive ≡ false → (packet : Packet) (hs : List Header) → IsBytes packet.frame.now
        → IsOpen packet hs (kind_named kind) known.now room → AreTold packet hs primitive told
        → IsPossible packet primitive result }
{
    let own = own_of(primitive, kind, known);
    possible_after(primitive, told, kind, own, prospect_of(kind, known, room))
}
