//! The priority of a VLAN tag.
ghost use Rattle.std.specs.Prelude.{◌≡◌, ◌≤◌, ◌↔◌, IfOk, IfErr, IsOk};
ghost use Rattle.ether_base.specs.Enumerations.BoundedField.{too_big};

use crate::err::{ValueTooBigError, ValueType};
use std::fmt;
use std::marker::Model;

/// The priority code point (PCP) of a VLAN tag (IEEE 802.1Q, 9.6): 3 bits, 0 to 7.
///
/// ```
/// let priority = VlanPcp::try_new(5)?;
/// assert_eq!(rt; priority.value(), 5);
/// assert!(rt; VlanPcp::try_new(8).is_err());
/// ```
#[derive(Clone, Copy, PartialEq, Eq, PartialOrd, Ord, Hash, Debug, Default)]
pub struct VlanPcp(u8);

impl Model for VlanPcp {
    ghost use Rattle.std.specs.Prelude.{ℕ, ◌≤◌};

    ghost Value = { ℕ };

    ghost view = { λ pcp. pcp.0 };

    ghost invariant = { λ pcp. pcp.0 ≤ 7 };

    ghost inverse = { λ number. record { 0 = number } };
}

impl VlanPcp {
    /// The priority code point 0.
    pub const ZERO: VlanPcp = VlanPcp(0);

    /// The greatest priority code point, 7.
    pub const MAX_U8: u8 = 0b0000_0111;

    /// The priority code point `value`, refused above [`VlanPcp::MAX_U8`].
    pub const fn try_new(value: u8) -> Result<VlanPcp, ValueTooBigError<u8>>
        ensures variant { IsOk result ↔ (value ≤ 7) }
        ensures ok { IfOk result (λ pcp. pcp ≡ value) }
        ensures err { IfErr result (λ e. e ≡ too_big value 7 ValueType.VlanPcp) }
    {
        if value <= VlanPcp::MAX_U8 {
            Ok(VlanPcp(value))
        } else {
            Err(ValueTooBigError {
                actual: value,
                max_allowed: VlanPcp::MAX_U8,
                value_type: ValueType::VlanPcp,
            })
        }
    }

    /// The priority code point, 0 to 7.
    pub const fn value(self) -> u8
        ensures value { result ≡ self }
        ensures bound { result ≤ 7 }
    {
        self.0
    }
}

impl From<VlanPcp> for u8 {
    ghost from_gives = { λ pcp number. (number ≡ pcp) × (number ≤ 7) };

    fn from(pcp: VlanPcp) -> u8 {
        pcp.value()
    }
}

impl TryFrom<u8> for VlanPcp {
    type Error = ValueTooBigError<u8>;

    ghost use Rattle.ether_base.specs.Enumerations.BoundedField.{TakesUpTo};
    ghost use Rattle.ether_base.specs.declared.err.value_type.ValueType.TheVariants as value_type;

    ghost try_from_gives = { TakesUpTo 7 value_type.VlanPcp };

    fn try_from(value: u8) -> Result<VlanPcp, ValueTooBigError<u8>> {
        VlanPcp::try_new(value)
    }
}

impl fmt::Display for VlanPcp {
    ghost use Rattle.std.specs.Prelude.{Some};
    ghost use Rattle.std.specs.Fmt.{decimal};

    ghost output = { λ pcp. Some (decimal pcp) };

    fn fmt<W: fmt::Write>(&self, f: &mut fmt::Formatter<W>) -> fmt::Result {
        self.0.fmt(f)
    }
}
