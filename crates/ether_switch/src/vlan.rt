//! VLANs, by their identifiers.
ghost use Rattle.std.specs.Prelude.{◌≡◌, ◌≤◌, ◌↔◌, IsOk, IfOk, IfErr};

use etherparse::VlanId;
use std::error::Error;
use std::fmt;
use std::marker::Model;

/// A VLAN, by its identifier: 1 to 4094.
///
/// In a tag, the identifier 0 means that the tag has only a priority, and 4095 is reserved (IEEE 802.1Q, table 9-2).
///
/// ```
/// let vlan = Vlan::try_new(4094)?;
/// assert_eq!(rt; vlan.id().value(), 4094);
/// assert_eq!(rt; Vlan::try_new(0), Err(VlanError(0)));
/// assert_eq!(rt; Vlan::try_new(4095), Err(VlanError(4095)));
/// ```
#[derive(Clone, Copy, PartialEq, Eq, PartialOrd, Ord, Hash, Debug)]
pub struct Vlan(VlanId);

/// This number is not the identifier of a VLAN, which is from 1 to 4094.
#[derive(Clone, Copy, PartialEq, Eq, Debug)]
pub struct VlanError(pub u16);

impl Model for Vlan {
    ghost use Rattle.std.specs.Prelude.{ℕ, ◌≤◌};

    ghost Value = { ℕ };

    ghost view = { λ vlan. vlan.0 };

    ghost invariant = { λ vlan. (1 ≤ vlan.0) × (vlan.0 ≤ 4094) };

    ghost inverse = { λ number. record { 0 = number } };
}

impl Vlan {
    /// The VLAN with this identifier.
    ///
    /// # Errors
    ///
    /// [`VlanError`] with the number, if it is not from 1 to 4094.
    pub fn try_new(id: u16) -> Result<Vlan, VlanError>
        ensures variant { IsOk result ↔ ((1 ≤ id) × (id ≤ 4094)) }
        ensures ok { IfOk result (λ vlan. vlan ≡ id) }
        ensures err { IfErr result (λ error. error.0 ≡ id) }
    {
        if id == 0 || id > 4094 {
            return Err(VlanError(id));
        }
        match VlanId::try_new(id) {
            Ok(id) => Ok(Vlan(id)),
            Err(_) => Err(VlanError(id)),
        }
    }

    /// The identifier.
    pub fn id(self) -> VlanId
        ensures value { result ≡ self }
        ensures least { 1 ≤ result }
        ensures greatest { result ≤ 4094 }
    {
        self.0
    }
}

impl fmt::Display for VlanError {
    ghost use Rattle.std.specs.Prelude.{Some};
    ghost use Rattle.ether_switch.specs.Texts.{vlan_error_text};

    ghost output = { λ error. Some (vlan_error_text error) };

    fn fmt<W: fmt::Write>(&self, f: &mut fmt::Formatter<W>) -> fmt::Result {
        let number = self.0;
        write!(
            f,
            "The identifier of a VLAN is from 1 to 4094, and not {number}."
        )
    }
}

impl Error for VlanError {}
