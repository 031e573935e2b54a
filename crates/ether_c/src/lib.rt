//! The walk through the link-layer headers of a frame, their fields, packets, capture files, filters and a switch, for
//! callers in C. `c/etherpeel.h` declares and documents the calls, and `docs/C.md` says how to build a program with
//! them.
//!
//! Each export calls the crates below, and its contract says what the contracts of those calls say. Each struct that is
//! passed has a file of its own, and `specs/` defines each of its fields. Enumerations are passed as numbers
//! (`specs/Numbers.antt`), and a number that is not a start is refused. No call allocates memory or keeps a pointer.
#![tactic(auto)]

pub mod building;
pub mod capture_fault_text;
pub mod capture_writing;
pub mod captured_frame;
pub mod capturing;
pub mod completing;
pub mod cooked_v2;
pub mod copying;
pub mod deciding_frames;
mod ether_bridge;
mod ether_captured;
mod ether_fault;
mod ether_fed;
mod ether_field;
mod ether_filter_error;
mod ether_found;
mod ether_frame;
mod ether_headers;
mod ether_interface;
mod ether_linux_sll2;
mod ether_option;
mod ether_port;
mod ether_read_unit;
mod ether_reader;
mod ether_received;
mod ether_replace_error;
mod ether_row;
mod ether_unit;
pub mod fault_text;
pub mod feeding;
mod field_putting;
pub mod field_texts;
mod field_value;
pub mod fields;
mod filter;
pub mod filter_error_text;
pub mod filtering;
pub mod formatting;
pub mod frame_writing;
pub mod library;
pub mod link_types;
pub mod missing_bytes;
mod no_writer;
mod numbers;
mod packet_facts;
mod passed;
pub mod popping;
pub mod pushing;
mod putting;
pub mod reader_fault_text;
pub mod reading_captures;
pub mod reading_packet;
pub mod replacing;
pub mod rows;
pub mod selecting;
pub mod setting;
pub mod statuses;
mod summarizing;
pub mod switching;
pub mod unit_options;
pub mod walking;
pub mod writing_back;

pub use capturing::EtherCaptureEnd;
pub use ether_bridge::EtherBridge;
pub use ether_captured::EtherCaptured;
pub use ether_fault::EtherFault;
pub use ether_fed::EtherFed;
pub use ether_field::EtherField;
pub use ether_filter_error::EtherFilterError;
pub use ether_found::EtherFound;
pub use ether_frame::EtherFrame;
pub use ether_headers::EtherHeaders;
pub use ether_interface::EtherInterface;
pub use ether_linux_sll2::EtherLinuxSll2;
pub use ether_option::EtherOption;
pub use ether_port::EtherPort;
pub use ether_read_unit::EtherReadUnit;
pub use ether_reader::EtherReader;
pub use ether_received::EtherReceived;
pub use ether_replace_error::EtherReplaceError;
pub use ether_row::EtherRow;
pub use ether_unit::{EtherArp, EtherEthernet2, EtherLinuxSll, EtherMacsec, EtherUnit, EtherVlan};
pub use filter::EtherFilter;
