//! The fields of a header that primitives ask about.
ghost use Rattle.std.specs.Prelude.{◌≡◌, ◌/◌, ◌%◌, ◌^◌};
ghost use Rattle.etherparse.specs.Bytes.{number};
ghost use Rattle.ether_peel.specs.Grammar.Expectation.{Expectation};
ghost use Rattle.ether_peel.specs.Walker.Start.{kind_shown};
ghost use Rattle.ether_peel.specs.Walker.UnitHeader.{unit_header};
ghost use Rattle.ether_filter.specs.Primitives.{ether_type_of, is_group as is_group_of};
ghost use Rattle.ether_filter.specs.Fields.{fields_of};

use ether_base::big_endian::u64_of;
use ether_peel::{PeelUnit, RestKind};
use etherparse::EtherType;

/// The broadcast address.
pub(crate) const BROADCAST: u64 = 0xFFFF_FFFF_FFFF;

/// The fields of a header that primitives ask about.
#[derive(Clone, Copy)]
pub(crate) enum Fields {
    /// The two addresses of an Ethernet II header.
    Link {
        destination: [u8; 6],
        source: [u8; 6],
    },
    /// The identifier of a VLAN tag.
    Tag(u16),
    SecTag,
    Arp,
    Other,
}

/// The fields of a unit's header.
pub(crate) fn read_fields(unit: &PeelUnit<'_>) -> Fields
    ensures { result ≡ fields_of (unit_header unit.now) }
{
    match unit {
        PeelUnit::Ethernet2(link) => Fields::Link {
            destination: link.destination(),
            source: link.source(),
        },
        PeelUnit::Vlan(tag) => Fields::Tag(tag.vlan_identifier().value()),
        PeelUnit::Macsec(_) => Fields::SecTag,
        PeelUnit::Arp(_) => Fields::Arp,
        _ => Fields::Other,
    }
}

/// An address as one number, its first byte the most significant one.
pub(crate) fn address(bytes: [u8; 6]) -> u64
    ensures { result ≡ number bytes }
{
    let [a, b, c, d, e, f] = bytes;
    u64_of([0, 0, a, b, c, d, e, f])
}

/// The ether type that announces the rest, if one does.
pub(crate) fn announced_type(kind: RestKind) -> Option<u16>
    ensures { (x : Expectation) → kind ≡ kind_shown x → result ≡ ether_type_of x.next }
{
    match kind {
        RestKind::EtherType(EtherType(number)) => Some(number),
        _ => None,
    }
}

/// Whether an address is a group address.
pub(crate) fn is_group(address: u64) -> bool
    ensures { result ≡ is_group_of address }
{
    address / (1 << 40) % 2 == 1
}
