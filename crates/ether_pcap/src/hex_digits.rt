//! Numbers as hexadecimal digits.
ghost use Rattle.std.specs.Prelude.{Some, true};

use std::fmt;

/// A number as eight upper-case hexadecimal digits.
#[derive(Clone, Copy)]
pub(crate) struct EightDigits(pub u32);

impl fmt::Display for EightDigits {
    ghost use Rattle.ether_pcap.specs.Texts.{eight_digits};

    ghost output = { λ number. Some (eight_digits number.0) };

    fn fmt<W: fmt::Write>(&self, f: &mut fmt::Formatter<W>) -> fmt::Result {
        let number = self.0;
        let a = TwoDigits((number / 0x100_0000) as u8);
        let b = TwoDigits((number / 0x1_0000 % 0x100) as u8);
        let c = TwoDigits((number / 0x100 % 0x100) as u8);
        let d = TwoDigits((number % 0x100) as u8);
        write!(f, "{a}{b}{c}{d}")
    }
}

/// A byte as two upper-case hexadecimal digits.
#[derive(Clone, Copy)]
struct TwoDigits(u8);

impl fmt::Display for TwoDigits {
    ghost use Rattle.ether_base.specs.Texts.NumberText.{hex_byte};

    ghost output = { λ byte. Some (hex_byte true byte.0) };

    fn fmt<W: fmt::Write>(&self, f: &mut fmt::Formatter<W>) -> fmt::Result {
        let byte = self.0;
        write!(f, "{byte:02X}")
    }
}
