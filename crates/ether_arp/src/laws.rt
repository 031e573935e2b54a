//! The laws of ARP packets. Each is the contract of a function that does nothing: its clause holds for every list of
//! bytes and for every packet.
ghost use Rattle.ether_arp.specs.ArpLaws.{ArpPacketsAreMeant, ArpRowsAreApart};

/// In each table of refusals at most one row holds, and it is decided whether one does. The tables are those of
/// hardware addresses, of protocol addresses, of all four addresses, and of packets that are not of Ethernet and IPv4.
pub fn rows_are_apart()
    ensures { ArpRowsAreApart }
{}

/// Accepted bytes mean the packet whose fields are at their places, a packet that bytes mean fits in its fields, and a
/// packet that fits is written as bytes.
pub fn packets_are_meant()
    ensures { ArpPacketsAreMeant }
{}
