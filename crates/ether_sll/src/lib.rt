//! Linux cooked capture v1 (LINKTYPE_LINUX_SLL), and link headers and packets of either kind: Ethernet II or cooked
//! capture.
#![tactic(auto)]

mod link_header;
mod link_slice;
pub mod linux_sll_fields;
mod linux_sll_header;
mod linux_sll_header_slice;
mod linux_sll_slice;

pub use link_header::LinkHeader;
pub use link_slice::LinkSlice;
pub use linux_sll_header::LinuxSllHeader;
pub use linux_sll_header_slice::LinuxSllHeaderSlice;
pub use linux_sll_slice::LinuxSllSlice;
