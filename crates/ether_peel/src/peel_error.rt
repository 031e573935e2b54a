//! Why a unit is refused.
ghost use Rattle.std.specs.Prelude.{Some};
ghost use Rattle.ether_peel.specs.Walker.Texts.{peel_error_text};

use etherparse::err::{self, LenError};
use std::error::Error;
use std::fmt::{self, Display};

/// Why a unit is refused. `Display` gives the text of the error within.
#[derive(Clone, Copy, PartialEq, Eq, Debug)]
pub enum PeelError {
    /// The unit needs more bytes than there are.
    Len(LenError),
    /// A field of a header of Linux cooked capture v1 has a value that is not supported.
    LinuxSll(err::linux_sll::HeaderError),
    /// A field of a MACsec SecTag has a value that is not allowed.
    Macsec(err::macsec::HeaderError),
}

impl Display for PeelError {
    ghost output = { λ error. Some (peel_error_text error) };

    fn fmt<W: fmt::Write>(&self, f: &mut fmt::Formatter<W>) -> fmt::Result {
        match self {
            PeelError::Len(error) => error.fmt(f),
            PeelError::LinuxSll(error) => error.fmt(f),
            PeelError::Macsec(error) => error.fmt(f),
        }
    }
}

impl Error for PeelError {}
