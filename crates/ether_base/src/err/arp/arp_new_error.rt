//! Addresses from which no ARP packet can be made.
ghost use Rattle.std.specs.Prelude.{Some};
ghost use Rattle.ether_base.specs.Texts.ArpErrors.{arp_new_error_text};

use crate::err::arp::{ArpHwAddrError, ArpProtoAddrError};
use std::error::Error;
use std::fmt;

/// Why no ARP packet can be made of the given addresses.
///
/// `Display` gives the text of the error within.
///
/// ```
/// let error = ArpNewError::HwAddr(ArpHwAddrError::LenTooBig(256));
/// assert_eq!(rt;
///     format!(in rt.alloc(); "{error}")?.as_str(),
///     "ARP Hardware Address Error: Given hardware address has a length of 256 which is greater then the maximum of 255."
/// );
/// ```
#[derive(Clone, Copy, PartialEq, Eq, Hash, Debug)]
pub enum ArpNewError {
    /// The hardware addresses do not fit.
    HwAddr(ArpHwAddrError),
    /// The protocol addresses do not fit.
    ProtoAddr(ArpProtoAddrError),
}

impl fmt::Display for ArpNewError {
    ghost output = { λ error. Some (arp_new_error_text error) };

    fn fmt<W: fmt::Write>(&self, f: &mut fmt::Formatter<W>) -> fmt::Result {
        match self {
            ArpNewError::HwAddr(error) => error.fmt(f),
            ArpNewError::ProtoAddr(error) => error.fmt(f),
        }
    }
}

impl Error for ArpNewError {}
