//! The numbers that stand for enumerations in C.
ghost use Rattle.std.specs.Prelude.{◌≡◌};
ghost use Rattle.ether_c.specs.Numbers.{start_numbered, rest_kind_number, rest_protocol_of, layer_number, len_source_number, field_kind_number, field_kind_numbered};

use ether_fields::Kind;
use ether_peel::{RestKind, Start};
use etherparse::err::Layer;
use etherparse::{EtherType, LenSource, LinuxSllProtocolType};

/// The start with this number; `None` if there is none. Only number 4 uses the ether type.
#[inline(always)]
pub(crate) fn start_of(number: u32, ether_type: u16) -> Option<Start>
    ensures { result ≡ start_numbered number ether_type }
{
    match number {
        1 => Some(Start::Ethernet2),
        2 => Some(Start::Ethernet2Fcs),
        3 => Some(Start::LinuxSll),
        4 => Some(Start::EtherType(EtherType(ether_type))),
        _ => None,
    }
}

/// The number of what the remaining window is announced as.
#[inline(always)]
pub(crate) fn rest_kind(kind: RestKind) -> u32
    ensures { result ≡ rest_kind_number kind }
{
    match kind {
        RestKind::Start => 0,
        RestKind::EtherType(_)
        | RestKind::Sll(LinuxSllProtocolType::EtherType(_))
        | RestKind::Sll(LinuxSllProtocolType::LinuxNonstandardEtherType(_)) => 1,
        RestKind::Sll(LinuxSllProtocolType::NetlinkProtocolType(_)) => 2,
        RestKind::Sll(LinuxSllProtocolType::GenericRoutingEncapsulationProtocolType(_)) => 3,
        RestKind::Sll(LinuxSllProtocolType::Ignored(_)) => 4,
        RestKind::Sealed => 5,
        RestKind::AfterArp => 6,
    }
}

/// The ether type or protocol number of the remaining window, 0 if it has none.
#[inline(always)]
pub(crate) fn rest_protocol(kind: RestKind) -> u16
    ensures { result ≡ rest_protocol_of kind }
{
    match kind {
        RestKind::EtherType(ether_type) => ether_type.0,
        RestKind::Sll(protocol) => u16::from(protocol),
        RestKind::Start | RestKind::Sealed | RestKind::AfterArp => 0,
    }
}

/// The number of a layer that a walk can name, 0 for any other.
#[inline(always)]
pub(crate) fn layer(layer: Layer) -> u32
    ensures { result ≡ layer_number layer }
{
    match layer {
        Layer::Ethernet2Header => 1,
        Layer::LinuxSllHeader => 2,
        Layer::VlanHeader => 3,
        Layer::MacsecHeader => 4,
        Layer::MacsecPacket => 5,
        Layer::Arp => 6,
        _ => 0,
    }
}

/// The number of a source of a length that a walk can name, 0 for any other.
#[inline(always)]
pub(crate) fn len_source(source: LenSource) -> u32
    ensures { result ≡ len_source_number source }
{
    match source {
        LenSource::Slice => 1,
        LenSource::MacsecShortLength => 2,
        LenSource::ArpAddrLengths => 3,
        _ => 0,
    }
}

/// The number of what the value of a field is.
pub(crate) fn field_kind(kind: Kind) -> u32
    ensures { result ≡ field_kind_number kind }
{
    match kind {
        Kind::Number => 1,
        Kind::Flag => 2,
        Kind::Truth => 3,
        Kind::EtherType => 4,
        Kind::HardwareType => 5,
        Kind::PacketType => 6,
        Kind::Operation => 7,
        Kind::LinkType => 8,
        Kind::Bytes => 9,
        Kind::ProtocolAddress => 10,
        Kind::Word => 11,
        Kind::Time => 12,
    }
}

/// What the value of a field is, by its number; `None` if there is none.
pub(crate) fn field_kind_of(number: u32) -> Option<Kind>
    ensures { result ≡ field_kind_numbered number }
{
    match number {
        1 => Some(Kind::Number),
        2 => Some(Kind::Flag),
        3 => Some(Kind::Truth),
        4 => Some(Kind::EtherType),
        5 => Some(Kind::HardwareType),
        6 => Some(Kind::PacketType),
        7 => Some(Kind::Operation),
        8 => Some(Kind::LinkType),
        9 => Some(Kind::Bytes),
        10 => Some(Kind::ProtocolAddress),
        11 => Some(Kind::Word),
        12 => Some(Kind::Time),
        _ => None,
    }
}
