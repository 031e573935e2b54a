//! The walk through the headers of a frame as lines of text: one for each header, and one for the ending. No call
//! allocates memory.
//!
//! [`write_walk`] writes the lines of the walk of `ether_peel`, and [`write_feed`] those of feeding it. Both write to
//! an `OutputBuffer` of `ether_output`, which gathers the text for a writer and remembers whether the writer has
//! failed. An [`InputReader`] does the same for a reader. [`tool`] reads lines of frames, and answers each.
#![tactic(auto)]

mod feed_lines;
mod input_fault;
mod input_reader;
mod noted;
mod source;
pub mod tool;
mod verdict;
mod walk_lines;
mod write_hex;
mod write_lines;

pub use feed_lines::write_feed;
pub use input_fault::InputFault;
pub use input_reader::InputReader;
pub use noted::{Noted, tell_failure};
pub use source::{SliceSource, Source};
pub use verdict::Verdict;
pub use walk_lines::{write_walk, write_walk_after};
pub use write_hex::hex_long;
pub use write_lines::write_rest;
