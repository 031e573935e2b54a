//! Hardware addresses that do not fit into an ARP packet.
ghost use Rattle.std.specs.Prelude.{Some};
ghost use Rattle.ether_base.specs.Texts.ArpErrors.{arp_hw_addr_error_text};

use std::error::Error;
use std::fmt;

/// Why two hardware addresses do not fit into one ARP packet, which has one length byte for both (RFC 826).
///
/// ```
/// let error = ArpHwAddrError::LenTooBig(256);
/// assert_eq!(rt;
///     format!(in rt.alloc(); "{error}")?.as_str(),
///     "ARP Hardware Address Error: Given hardware address has a length of 256 which is greater then the maximum of 255."
/// );
/// ```
#[derive(Clone, Copy, PartialEq, Eq, Hash, Debug)]
pub enum ArpHwAddrError {
    /// The addresses are longer than 255 bytes; this is their length.
    LenTooBig(usize),
    /// The addresses differ in length: the length of the sender's, and of the target's.
    LenNonMatching(usize, usize),
}

impl fmt::Display for ArpHwAddrError {
    ghost output = { λ error. Some (arp_hw_addr_error_text error) };

    fn fmt<W: fmt::Write>(&self, f: &mut fmt::Formatter<W>) -> fmt::Result {
        match self {
            ArpHwAddrError::LenTooBig(len) => write!(
                f,
                "ARP Hardware Address Error: Given hardware address has a length of {len} which is greater then the maximum of 255."
            ),
            ArpHwAddrError::LenNonMatching(sender, target) => write!(
                f,
                "ARP Hardware Address Error: Given sender & target hardware addresses have differing lengths of {sender} & {target} (must be matching)."
            ),
        }
    }
}

impl Error for ArpHwAddrError {}
