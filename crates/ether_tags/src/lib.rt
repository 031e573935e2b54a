//! Ethernet II frames, VLAN tags and MACsec SecTags: headers as values, and views that borrow the bytes of a packet.
#![tactic(auto)]

mod double_vlan_header;
mod double_vlan_slice;
mod ether_payload_slice;
mod ethernet2_fields;
mod ethernet2_header;
mod ethernet2_header_slice;
mod ethernet2_slice;
mod link_ext_header;
mod link_ext_slice;
mod linux_sll_payload_slice;
mod macsec_fields;
mod macsec_header;
mod macsec_header_slice;
mod macsec_p_type;
mod macsec_payload_slice;
mod macsec_slice;
mod single_vlan_header;
mod single_vlan_header_slice;
mod single_vlan_slice;
mod vlan_fields;
mod vlan_header;
mod vlan_slice;

pub use double_vlan_header::DoubleVlanHeader;
pub use double_vlan_slice::DoubleVlanSlice;
pub use ether_payload_slice::EtherPayloadSlice;
pub use ethernet2_header::Ethernet2Header;
pub use ethernet2_header_slice::Ethernet2HeaderSlice;
pub use ethernet2_slice::Ethernet2Slice;
pub use link_ext_header::LinkExtHeader;
pub use link_ext_slice::LinkExtSlice;
pub use linux_sll_payload_slice::LinuxSllPayloadSlice;
pub use macsec_header::MacsecHeader;
pub use macsec_header_slice::MacsecHeaderSlice;
pub use macsec_p_type::MacsecPType;
pub use macsec_payload_slice::MacsecPayloadSlice;
pub use macsec_slice::MacsecSlice;
pub use single_vlan_header::SingleVlanHeader;
pub use single_vlan_header_slice::SingleVlanHeaderSlice;
pub use single_vlan_slice::SingleVlanSlice;
pub use vlan_header::VlanHeader;
pub use vlan_slice::VlanSlice;
