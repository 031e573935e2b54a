//! Which values the fields of an open unit can have.
ghost use Rattle.std.specs.Prelude.{◌≡◌, ◌+◌, ◌%◌, ◌<◌, ◌≤◌, ℕ, List, true, false, IsTrue, get_or, length, slice_range};
ghost use Rattle.etherparse.specs.Bytes.{IsBytes, number};
ghost use Rattle.etherparse.specs.Ethernet2.{ethernet2_of};
ghost use Rattle.etherparse.specs.Header as headers;
ghost use Rattle.etherparse.specs.Vlan.{vlan_of};
ghost use Rattle.ether_filter.specs.declared.primitive.Primitive.TheVariants as primitives;
ghost use Rattle.ether_filter.specs.Primitives.{is_group};
ghost use Rattle.ether_filter.specs.Deciding.{is_of_link, is_of_field};
ghost use Rattle.ether_filter.specs.OwnFields.{IsAmong, IsNearest, LacksAddress, link_test, FitsTag, FitsOwn};
ghost use Rattle.ether_filter.specs.Prospects.{IsCut};

use crate::can::Can;
use crate::primitive::Primitive;
use crate::prospect::OpenKind;

/// A byte of a unit, or the last one of a wanted number if it is not there.
fn digit(known: &[u8], at: usize, wanted: u64) -> u64
    ensures value { result ≡ get_or known.now at (wanted % 256) }
    ensures byte { result < 256 }
    ensures bytes { IsBytes known.now }
{
    match known.get(at) {
        Some(byte) => u64::from(*byte),
        None => wanted % 256,
    }
}

/// Whether a VLAN tag can have this identifier.
fn can_be_id(known: &[u8], id: u16) -> Can
    requires few { length known.now < 4 }
    ensures { (room : ℕ) → 4 ≤ room → IsAmong known.now room (λ bytes. (vlan_of bytes).vid ≡ id) result }
{
    let wanted = u64::from(id);
    let nearest = digit(known, 0, wanted / 256) % 16 * 256 + digit(known, 1, wanted);
    let matches = nearest == wanted;
    let is_short = known.len() < 2;
    Can {
        matches,
        fails: is_short || !matches,
    }
}

/// The address at a place, with the bytes of the wanted one where they are not there.
fn nearest_address(known: &[u8], place: usize, address: u64) -> u64
    requires inside { place ≤ 6 }
    ensures { IsNearest known.now place address result }
{
    digit(known, place, address / 0x100_0000_0000) * 0x100_0000_0000
        + digit(known, place + 1, address / 0x1_0000_0000) * 0x1_0000_0000
        + digit(known, place + 2, address / 0x100_0000) * 0x100_0000
        + digit(known, place + 3, address / 0x1_0000) * 0x1_0000
        + digit(known, place + 4, address / 0x100) * 0x100
        + digit(known, place + 5, address)
}

/// Whether an Ethernet II header can have this address at this place.
pub(crate) fn can_be_address(known: &[u8], place: usize, address: u64) -> Can
    requires few { length known.now < 14 }
    requires inside { place ≤ 6 }
    ensures among { (room : ℕ) → 14 ≤ room
        → IsAmong known.now room (λ bytes. number (slice_range bytes place (place + 6)) ≡ address) result }
    ensures lacks { IsTrue result.fails → LacksAddress known.now place address }
{
    let matches = nearest_address(known, place, address) == address;
    let is_short = known.len() < place + 6;
    Can {
        matches,
        fails: is_short || !matches,
    }
}

/// Whether one of the two addresses can be this one.
fn can_be_host(known: &[u8], address: u64) -> Can
    requires few { length known.now < 14 }
    ensures { (room : ℕ) → 14 ≤ room → IsAmong known.now room
        (λ bytes. IsTrue (link_test (primitives.Host address) (headers.Ethernet2 (ethernet2_of bytes)))) result }
{
    can_be_address(known, 0, address).any(can_be_address(known, 6, address))
}

/// Whether the destination can be a group address.
fn can_be_group(known: &[u8]) -> Can
    requires few { length known.now < 14 }
    ensures { (room : ℕ) → 14 ≤ room → IsAmong known.now room
        (λ bytes. IsTrue (is_group (number (slice_range bytes 0 6)))) result }
{
    Can {
        matches: digit(known, 0, 1) % 2 == 1,
        fails: digit(known, 0, 0) % 2 == 0,
    }
}

/// Whether an Ethernet II header can match a primitive.
fn of_link(primitive: Primitive, known: &[u8]) -> Can
    requires few { length known.now < 14 }
    ensures { is_of_link primitive ≡ true → is_of_field primitive ≡ false → (room : ℕ) → 14 ≤ room
        → IsAmong known.now room (λ bytes. IsTrue (link_test primitive (headers.Ethernet2 (ethernet2_of bytes)))) result }
{
    match primitive {
        Primitive::Source(address) => can_be_address(known, 6, address),
        Primitive::Destination(address) => can_be_address(known, 0, address),
        Primitive::Host(address) => can_be_host(known, address),
        Primitive::Broadcast => can_be_address(known, 0, 0xFFFF_FFFF_FFFF),
        _ => can_be_group(known),
    }
}

/// What the identifier of a VLAN tag can make of a primitive about it.
fn of_tag(primitive: Primitive, known: &[u8]) -> Can
    requires few { length known.now < 4 }
    ensures { FitsTag primitive known.now result }
{
    match primitive {
        Primitive::VlanId(id) | Primitive::OuterVlan(id) | Primitive::InnerVlan(id) => {
            can_be_id(known, id)
        }
        _ => Can::decided(false),
    }
}

/// What the fields of a unit can make of a primitive about them.
pub(crate) fn own_of(primitive: Primitive, kind: OpenKind, known: &[u8]) -> Can
    requires few { IsCut kind known.now }
    ensures { FitsOwn primitive kind known.now result }
{
    match kind {
        OpenKind::Ethernet2 => of_link(primitive, known),
        OpenKind::Vlan => of_tag(primitive, known),
        OpenKind::LinuxSll | OpenKind::Macsec | OpenKind::Arp => Can::decided(false),
    }
}
