//! Linux cooked capture v2 (LINKTYPE_LINUX_SLL2, link type 276), which `tcpdump -i any` writes: its header as a value,
//! and views that borrow the bytes of a packet. [`LinuxSll2Slice::start`] says how `ether_peel` walks the payload. No
//! call allocates memory.
#![tactic(auto)]

pub mod laws;
mod linux_sll2_error;
mod linux_sll2_fields;
mod linux_sll2_header;
mod linux_sll2_header_slice;
mod linux_sll2_slice;

pub use linux_sll2_error::LinuxSll2Error;
pub use linux_sll2_header::LinuxSll2Header;
pub use linux_sll2_header_slice::LinuxSll2HeaderSlice;
pub use linux_sll2_slice::LinuxSll2Slice;
