//! Numbers with a range, enumerations, errors and texts of the link layer, and the definitions of its wire formats
//! (`specs/`) with their laws.
#![tactic(auto)]

mod arp_hardware_id;
mod arp_operation;
pub mod big_endian;
pub mod err;
pub mod ether_type;
pub mod header_slice_error;
pub mod laws;
mod len_source;
mod linux_nonstandard_ether_type;
mod linux_sll_packet_type;
mod linux_sll_protocol_type;
mod macsec_an;
mod macsec_short_len;
pub mod number_text;
pub mod slice_len;
mod vlan_id;
mod vlan_pcp;
pub mod write_front;

pub use arp_hardware_id::ArpHardwareId;
pub use arp_operation::ArpOperation;
pub use ether_type::EtherType;
pub use len_source::LenSource;
pub use linux_nonstandard_ether_type::LinuxNonstandardEtherType;
pub use linux_sll_packet_type::LinuxSllPacketType;
pub use linux_sll_protocol_type::LinuxSllProtocolType;
pub use macsec_an::MacsecAn;
pub use macsec_short_len::MacsecShortLen;
pub use vlan_id::VlanId;
pub use vlan_pcp::VlanPcp;
