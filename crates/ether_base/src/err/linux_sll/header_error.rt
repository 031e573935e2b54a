//! Field values of Linux cooked capture v1 that are not supported.
ghost use Rattle.std.specs.Prelude.{Some};
ghost use Rattle.ether_base.specs.Texts.LinuxSllErrors.{header_error_text};

use crate::ArpHardwareId;
use crate::number_text::ShownArpHardwareId;
use std::error::Error;
use std::fmt;

/// A field of a header of Linux cooked capture v1 has a value that is not supported.
///
/// ```
/// let refused = HeaderError::UnsupportedPacketTypeField { packet_type: 8 };
/// assert_eq!(rt; LinuxSllPacketType::try_from(8), Err(refused));
/// ```
#[derive(Clone, Copy, PartialEq, Eq, Hash, Debug)]
pub enum HeaderError {
    /// The packet type is above 7.
    UnsupportedPacketTypeField {
        /// The packet type of the header.
        packet_type: u16,
    },
    /// The hardware type is not one of `LinuxSllProtocolType::SUPPORTED_ARPHWD`, so the meaning of the protocol
    /// number is not known.
    UnsupportedArpHardwareId {
        /// The hardware type of the header.
        arp_hardware_type: ArpHardwareId,
    },
}

impl fmt::Display for HeaderError {
    ghost output = { λ error. Some (header_error_text error) };

    fn fmt<W: fmt::Write>(&self, f: &mut fmt::Formatter<W>) -> fmt::Result {
        match self {
            HeaderError::UnsupportedPacketTypeField { packet_type } => write!(
                f,
                "Linux cooked capture v1 (SLL) Header Error: Encountered '{packet_type}' as the packet type, but its not supported."
            ),
            HeaderError::UnsupportedArpHardwareId { arp_hardware_type } => {
                let shown = ShownArpHardwareId(*arp_hardware_type);
                write!(
                    f,
                    "Linux cooked capture v1 (SLL)  Header Error:  Encountered '{shown}' as the ARP harware type, but its not supported."
                )
            }
        }
    }
}

impl Error for HeaderError {}
