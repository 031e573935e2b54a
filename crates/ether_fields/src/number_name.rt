//! What numbers are called.
ghost use Rattle.std.specs.Prelude.{◌≡◌};
ghost use Rattle.std.specs.Option.{option_map};
ghost use Rattle.ether_base.specs.Texts.NumberText.{description_in};
ghost use Rattle.ether_fields.specs.Names.{names_of};

use crate::kind::Kind;
use crate::names::{
    ether_type_name, hardware_type_name, link_type_name, operation_name, packet_type_name,
};

/// The name of a number of this kind. Returns `None` if it has none here.
///
/// ```
/// assert_eq!(rt; name_of(Kind::EtherType, 0x0800), Some("IPv4"));
/// assert_eq!(rt; name_of(Kind::EtherType, 0xFFFF), None);
/// ```
#[inline(always)]
pub fn name_of(kind: Kind, number: u64) -> Option<&'static str>
    ensures { option_map (λ s. s.now) result ≡ description_in (names_of kind) number }
{
    match kind {
        Kind::EtherType => ether_type_name(number),
        Kind::HardwareType => hardware_type_name(number),
        Kind::PacketType => packet_type_name(number),
        Kind::Operation => operation_name(number),
        Kind::LinkType => link_type_name(number),
        _ => None,
    }
}
