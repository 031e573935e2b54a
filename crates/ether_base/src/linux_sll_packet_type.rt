//! How a packet of a cooked capture was sent.
ghost use Rattle.std.specs.Prelude.{◌≡◌, ◌≤◌, ◌<◌};
ghost use Rattle.std.specs.Option.{option_copied};
ghost use Rattle.ether_base.specs.Enumerations.LinuxSllPacketType.{packet_type_descriptions};
ghost use Rattle.ether_base.specs.Texts.NumberText.{description_in};

use crate::err::linux_sll::HeaderError;
use std::fmt;
use std::marker::Model;

/// The packet type of Linux cooked capture v1, 0 to 7: who sent the packet, and to whom.
///
/// `Debug` shows the number, and its meaning in parentheses.
///
/// ```
/// let read = LinuxSllPacketType::try_from(4);
/// assert_eq!(rt; read, Ok(LinuxSllPacketType::OUTGOING));
/// assert!(rt; LinuxSllPacketType::try_from(8).is_err());
/// ```
#[derive(Clone, Copy, PartialEq, Eq, Default)]
pub struct LinuxSllPacketType(u16);

impl Model for LinuxSllPacketType {
    ghost use Rattle.std.specs.Prelude.{ℕ, ◌≤◌};

    ghost Value = { ℕ };

    ghost view = { λ packet_type. packet_type.0 };

    ghost invariant = { λ packet_type. packet_type.0 ≤ 7 };

    ghost inverse = { λ number. record { 0 = number } };
}

impl LinuxSllPacketType {
    /// Sent to us.
    pub const HOST: LinuxSllPacketType = LinuxSllPacketType(0);

    /// Sent to all.
    pub const BROADCAST: LinuxSllPacketType = LinuxSllPacketType(1);

    /// Sent to a group.
    pub const MULTICAST: LinuxSllPacketType = LinuxSllPacketType(2);

    /// Sent to someone else.
    pub const OTHERHOST: LinuxSllPacketType = LinuxSllPacketType(3);

    /// Sent by us.
    pub const OUTGOING: LinuxSllPacketType = LinuxSllPacketType(4);

    /// A multicast or broadcast frame, looped back.
    pub const LOOPBACK: LinuxSllPacketType = LinuxSllPacketType(5);

    /// Sent to user space.
    pub const USER: LinuxSllPacketType = LinuxSllPacketType(6);

    /// Sent to kernel space.
    pub const KERNEL: LinuxSllPacketType = LinuxSllPacketType(7);

    /// The greatest packet type, 7.
    pub const MAX_VAL: u16 = 7;

    /// Returns what the number means. This is `Some` for each packet type.
    fn description(self) -> Option<&'static str>
        ensures { option_copied result ≡ description_in packet_type_descriptions self }
    {
        match self {
            LinuxSllPacketType::HOST => Some("Sent to us"),
            LinuxSllPacketType::BROADCAST => Some("Sent to all"),
            LinuxSllPacketType::MULTICAST => Some("Sent to group"),
            LinuxSllPacketType::OTHERHOST => Some("Sent to someone else"),
            LinuxSllPacketType::OUTGOING => Some("Sent by us"),
            LinuxSllPacketType::LOOPBACK => Some("MC/BRD frame looped back"),
            LinuxSllPacketType::USER => Some("Sent to user space"),
            LinuxSllPacketType::KERNEL => Some("Sent to kernel space"),
            _ => None,
        }
    }
}

impl TryFrom<u16> for LinuxSllPacketType {
    type Error = HeaderError;

    ghost use Rattle.std.specs.Prelude.{MatchResult};
    ghost use Rattle.ether_base.specs.declared.err.linux_sll.header_error.HeaderError.TheVariants.{UnsupportedPacketTypeField};

    ghost try_from_gives = { λ number r. MatchResult r (λ packet_type. (number ≤ 7) × (packet_type ≡ number))
        (λ e. (7 < number) × (e ≡ UnsupportedPacketTypeField number)) };

    #[inline(always)]
    fn try_from(number: u16) -> Result<LinuxSllPacketType, HeaderError> {
        if number <= LinuxSllPacketType::MAX_VAL {
            Ok(LinuxSllPacketType(number))
        } else {
            Err(HeaderError::UnsupportedPacketTypeField {
                packet_type: number,
            })
        }
    }
}

impl From<LinuxSllPacketType> for u16 {
    ghost from_gives = { λ packet_type number. (number ≡ packet_type) × (number ≤ 7) };

    fn from(packet_type: LinuxSllPacketType) -> u16 {
        packet_type.0
    }
}

impl fmt::Debug for LinuxSllPacketType {
    fn fmt<W: fmt::Write>(&self, f: &mut fmt::Formatter<W>) -> fmt::Result {
        let number = self.0;
        match self.description() {
            Some(description) => write!(f, "{number} ({description})"),
            None => write!(f, "{number}"),
        }
    }
}
