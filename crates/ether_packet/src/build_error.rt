//! Why a packet is not written.
ghost use Rattle.std.specs.Prelude.{Some};
ghost use Rattle.ether_packet.specs.Texts.{build_error_text};

use etherparse::ArpHardwareId;
use etherparse::err::SliceWriteSpaceError;
use std::error::Error;
use std::fmt;

/// Why a packet is not written. The target is then unchanged.
///
/// ```
/// assert_eq!(rt;
///     format!(in rt.alloc(); "{}", BuildError::Sealed(1))?.as_str(),
///     "A header follows the SecTag at index 1, whose payload is encrypted or changed."
/// );
/// ```
#[derive(Clone, Copy, PartialEq, Eq, Debug)]
pub enum BuildError {
    /// The link is a cooked capture with this hardware type. It is not that of Ethernet, so the protocol type can't
    /// announce what follows.
    HardwareType(ArpHardwareId),
    /// A header follows the SecTag at this index of `link_exts`, but the payload of that SecTag is encrypted or
    /// changed.
    Sealed(usize),
    /// The target is too short for the packet.
    Space(SliceWriteSpaceError),
}

impl fmt::Display for BuildError {
    ghost output = { λ error. Some (build_error_text error) };

    fn fmt<W: fmt::Write>(&self, f: &mut fmt::Formatter<W>) -> fmt::Result {
        match self {
            BuildError::HardwareType(hardware_type) => {
                let number = hardware_type.0;
                write!(
                    f,
                    "No ether type can follow a header of cooked capture of hardware type {number}."
                )
            }
            BuildError::Sealed(index) => write!(
                f,
                "A header follows the SecTag at index {index}, whose payload is encrypted or changed."
            ),
            BuildError::Space(error) => error.fmt(f),
        }
    }
}

impl Error for BuildError {}
