//! The identifier of a VLAN.
ghost use Rattle.std.specs.Prelude.{◌≡◌, ◌≤◌, ◌↔◌, IfOk, IfErr, IsOk};
ghost use Rattle.ether_base.specs.Enumerations.BoundedField.{too_big};

use crate::err::{ValueTooBigError, ValueType};
use std::fmt;
use std::marker::Model;

/// The VLAN identifier (VID) of a VLAN tag (IEEE 802.1Q, 9.6): 12 bits, 0 to 4095.
///
/// ```
/// let vlan = VlanId::try_new(100)?;
/// assert_eq!(rt; vlan.value(), 100);
/// assert!(rt; VlanId::try_new(4096).is_err());
/// ```
#[derive(Clone, Copy, PartialEq, Eq, PartialOrd, Ord, Hash, Debug, Default)]
pub struct VlanId(u16);

impl Model for VlanId {
    ghost use Rattle.std.specs.Prelude.{ℕ, ◌≤◌};

    ghost Value = { ℕ };

    ghost view = { λ id. id.0 };

    ghost invariant = { λ id. id.0 ≤ 4095 };

    ghost inverse = { λ number. record { 0 = number } };
}

impl VlanId {
    /// The null identifier, 0: the tag carries a priority alone.
    pub const ZERO: VlanId = VlanId(0);

    /// The greatest VLAN identifier, 4095, which IEEE 802.1Q reserves (table 9-2). It is accepted.
    pub const MAX_U16: u16 = 0b0000_1111_1111_1111;

    /// The VLAN identifier `value`, refused above [`VlanId::MAX_U16`].
    pub const fn try_new(value: u16) -> Result<VlanId, ValueTooBigError<u16>>
        ensures variant { IsOk result ↔ (value ≤ 4095) }
        ensures ok { IfOk result (λ id. id ≡ value) }
        ensures err { IfErr result (λ e. e ≡ too_big value 4095 ValueType.VlanId) }
    {
        if value <= VlanId::MAX_U16 {
            Ok(VlanId(value))
        } else {
            Err(ValueTooBigError {
                actual: value,
                max_allowed: VlanId::MAX_U16,
                value_type: ValueType::VlanId,
            })
        }
    }

    /// The VLAN identifier, 0 to 4095.
    pub const fn value(self) -> u16
        ensures value { result ≡ self }
        ensures bound { result ≤ 4095 }
    {
        self.0
    }
}

impl From<VlanId> for u16 {
    ghost from_gives = { λ id number. (number ≡ id) × (number ≤ 4095) };

    fn from(id: VlanId) -> u16 {
        id.value()
    }
}

impl TryFrom<u16> for VlanId {
    type Error = ValueTooBigError<u16>;

    ghost use Rattle.ether_base.specs.Enumerations.BoundedField.{TakesUpTo};
    ghost use Rattle.ether_base.specs.declared.err.value_type.ValueType.TheVariants as value_type;

    ghost try_from_gives = { TakesUpTo 4095 value_type.VlanId };

    fn try_from(value: u16) -> Result<VlanId, ValueTooBigError<u16>> {
        VlanId::try_new(value)
    }
}

impl fmt::Display for VlanId {
    ghost use Rattle.std.specs.Prelude.{Some};
    ghost use Rattle.std.specs.Fmt.{decimal};

    ghost output = { λ id. Some (decimal id) };

    fn fmt<W: fmt::Write>(&self, f: &mut fmt::Formatter<W>) -> fmt::Result {
        self.0.fmt(f)
    }
}
