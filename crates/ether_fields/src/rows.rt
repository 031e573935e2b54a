//! The rows of the table of fields, as `fields.py` writes them.

mod arp;
mod eth;
mod fault;
mod frame;
mod headers;
mod macsec;
mod rest;
mod sll;
mod sll2;
mod vlan;

pub use arp::ARP;
pub use eth::ETH;
pub use fault::FAULT;
pub use frame::FRAME;
pub use headers::HEADERS;
pub use macsec::MACSEC;
pub use rest::REST;
pub use sll::SLL;
pub use sll2::SLL2;
pub use vlan::VLAN;
