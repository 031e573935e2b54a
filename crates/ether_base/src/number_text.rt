//! Numbers as text, with their descriptions.
ghost use Rattle.std.specs.Prelude.{Some};

use crate::{ArpHardwareId, EtherType};
use std::fmt;

/// A number, shown as `0x` and four upper-case hexadecimal digits.
///
/// ```
/// let number = HexNumber(0x01AB);
/// assert_eq!(rt; format!(in rt.alloc(); "{number}")?.as_str(), "0x01AB");
/// ```
#[derive(Clone, Copy)]
pub struct HexNumber(pub u16);

impl fmt::Display for HexNumber {
    ghost use Rattle.ether_base.specs.Texts.NumberText.{hex_number};

    ghost output = { λ hex. Some (hex_number hex.0) };

    fn fmt<W: fmt::Write>(&self, f: &mut fmt::Formatter<W>) -> fmt::Result {
        let number = self.0;
        write!(f, "0x{number:04X}")
    }
}

/// An ether type, shown with its description if it has one.
#[derive(Clone, Copy)]
pub(crate) struct ShownEtherType(pub EtherType);

impl fmt::Display for ShownEtherType {
    ghost use Rattle.ether_base.specs.Enumerations.EtherType.{shown_ether_type};

    ghost output = { λ shown. Some (shown_ether_type shown.0.0) };

    fn fmt<W: fmt::Write>(&self, f: &mut fmt::Formatter<W>) -> fmt::Result {
        let number = self.0.0;
        match self.0.name() {
            Some(description) => write!(f, "0x{number:04X} ({description})"),
            None => write!(f, "0x{number:04X}"),
        }
    }
}

/// A hardware type, shown with its description if it has one.
#[derive(Clone, Copy)]
pub(crate) struct ShownArpHardwareId(pub ArpHardwareId);

impl fmt::Display for ShownArpHardwareId {
    ghost use Rattle.ether_base.specs.Enumerations.ArpHardwareId.{shown_arp_hardware_id};

    ghost output = { λ shown. Some (shown_arp_hardware_id shown.0.0) };

    fn fmt<W: fmt::Write>(&self, f: &mut fmt::Formatter<W>) -> fmt::Result {
        let number = self.0.0;
        let digits = HexNumber(number);
        match self.0.name() {
            Some(description) if number < 0xFFFE => write!(f, "{number} ({description})"),
            Some(description) => write!(f, "{digits} ({description})"),
            None => write!(f, "{digits}"),
        }
    }
}
