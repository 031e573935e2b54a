//! The association number of a MACsec SecTag.
ghost use Rattle.std.specs.Prelude.{◌≡◌, ◌≤◌, ◌↔◌, IfOk, IfErr, IsOk};
ghost use Rattle.ether_base.specs.Enumerations.BoundedField.{too_big};

use crate::err::{ValueTooBigError, ValueType};
use std::fmt;
use std::marker::Model;

/// The association number (AN) of a MACsec SecTag (IEEE 802.1AE, 9.6): 2 bits, 0 to 3.
///
/// ```
/// let number = MacsecAn::try_new(2)?;
/// assert_eq!(rt; number.value(), 2);
/// assert!(rt; MacsecAn::try_new(4).is_err());
/// ```
#[derive(Clone, Copy, PartialEq, Eq, PartialOrd, Ord, Hash, Debug, Default)]
pub struct MacsecAn(u8);

impl Model for MacsecAn {
    ghost use Rattle.std.specs.Prelude.{ℕ, ◌≤◌};

    ghost Value = { ℕ };

    ghost view = { λ an. an.0 };

    ghost invariant = { λ an. an.0 ≤ 3 };

    ghost inverse = { λ number. record { 0 = number } };
}

impl MacsecAn {
    /// The association number 0.
    pub const ZERO: MacsecAn = MacsecAn(0);

    /// The greatest association number, 3.
    pub const MAX_U8: u8 = 0b0000_0011;

    /// The association number `value`, refused above [`MacsecAn::MAX_U8`].
    pub const fn try_new(value: u8) -> Result<MacsecAn, ValueTooBigError<u8>>
        ensures variant { IsOk result ↔ (value ≤ 3) }
        ensures ok { IfOk result (λ an. an ≡ value) }
        ensures err { IfErr result (λ e. e ≡ too_big value 3 ValueType.MacsecAn) }
    {
        if value <= MacsecAn::MAX_U8 {
            Ok(MacsecAn(value))
        } else {
            Err(ValueTooBigError {
                actual: value,
                max_allowed: MacsecAn::MAX_U8,
                value_type: ValueType::MacsecAn,
            })
        }
    }

    /// The association number, 0 to 3.
    pub const fn value(self) -> u8
        ensures value { result ≡ self }
        ensures bound { result ≤ 3 }
    {
        self.0
    }
}

impl From<MacsecAn> for u8 {
    ghost from_gives = { λ an number. (number ≡ an) × (number ≤ 3) };

    fn from(an: MacsecAn) -> u8 {
        an.value()
    }
}

impl TryFrom<u8> for MacsecAn {
    type Error = ValueTooBigError<u8>;

    ghost use Rattle.ether_base.specs.Enumerations.BoundedField.{TakesUpTo};
    ghost use Rattle.ether_base.specs.declared.err.value_type.ValueType.TheVariants as value_type;

    ghost try_from_gives = { TakesUpTo 3 value_type.MacsecAn };

    fn try_from(value: u8) -> Result<MacsecAn, ValueTooBigError<u8>> {
        MacsecAn::try_new(value)
    }
}

impl fmt::Display for MacsecAn {
    ghost use Rattle.std.specs.Prelude.{Some};
    ghost use Rattle.std.specs.Fmt.{decimal};

    ghost output = { λ an. Some (decimal an) };

    fn fmt<W: fmt::Write>(&self, f: &mut fmt::Formatter<W>) -> fmt::Result {
        self.0.fmt(f)
    }
}
