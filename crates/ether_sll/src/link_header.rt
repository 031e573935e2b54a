//! The header of a link of either kind, as a value.
ghost use Rattle.std.specs.Prelude.{◌≡◌};
ghost use Rattle.std.specs.Borrow.{sem};
ghost use Rattle.std.specs.Option.{option_copied_mut};
ghost use Rattle.ether_sll.specs.Link.{ethernet2_header, linux_sll_header, link_header_len, LendsEthernet2, LendsLinuxSll};

use crate::LinuxSllHeader;
use ether_tags::Ethernet2Header;

/// A link header: of Linux cooked capture v1, or of an Ethernet II frame.
///
/// ```
/// let mut link = LinkHeader::Ethernet2(Ethernet2Header::default());
/// if let Some(header) = link.mut_ethernet2() {
///     header.ether_type = EtherType::IPV4;
/// }
/// assert_eq!(rt; link.header_len(), 14);
/// assert_eq!(rt; link.linux_sll(), None);
/// ```
#[derive(Clone, Copy, PartialEq, Eq, Debug)]
pub enum LinkHeader {
    /// A header of Linux cooked capture v1.
    LinuxSll(LinuxSllHeader),
    /// An Ethernet II header.
    Ethernet2(Ethernet2Header),
}

impl LinkHeader {
    /// The Ethernet II header; `None` if the header is of cooked capture.
    pub fn ethernet2(self) -> Option<Ethernet2Header>
        ensures { result ≡ ethernet2_header self }
    {
        match self {
            LinkHeader::Ethernet2(frame) => Some(frame),
            LinkHeader::LinuxSll(_) => None,
        }
    }

    /// The Ethernet II header, lent for writing; `None` if the header is of cooked capture.
    pub fn mut_ethernet2(&mut self) -> Option<&mut Ethernet2Header>
        ensures* writes_back { sem 𝓛 (LendsEthernet2 self.entry result) }
        ensures value { option_copied_mut result ≡ ethernet2_header self.old }
    {
        if let LinkHeader::Ethernet2(header) = self {
            Some(header)
        } else {
            None
        }
    }

    /// The header of cooked capture; `None` if the header is of Ethernet II.
    pub fn linux_sll(self) -> Option<LinuxSllHeader>
        ensures { result ≡ linux_sll_header self }
    {
        match self {
            LinkHeader::LinuxSll(capture) => Some(capture),
            LinkHeader::Ethernet2(_) => None,
        }
    }

    /// The header of cooked capture, lent for writing; `None` if the header is of Ethernet II.
    pub fn mut_linux_sll(&mut self) -> Option<&mut LinuxSllHeader>
        ensures* writes_back { sem 𝓛 (LendsLinuxSll self.entry result) }
        ensures value { option_copied_mut result ≡ linux_sll_header self.old }
    {
        if let LinkHeader::LinuxSll(header) = self {
            Some(header)
        } else {
            None
        }
    }

    /// The length of the header in bytes: 14 for Ethernet II, 16 for cooked capture.
    pub fn header_len(&self) -> usize
        ensures { result ≡ link_header_len self.now }
    {
        match self {
            LinkHeader::LinuxSll(_) => LinuxSllHeader::LEN,
            LinkHeader::Ethernet2(_) => Ethernet2Header::LEN,
        }
    }
}
