//! Text on its way to a writer: gathered in a buffer of fixed size, with numbers, digits and words. No call allocates
//! memory.
#![tactic(auto)]

mod decimals;
mod hex_digits;
mod output_buffer;
mod output_fault;
mod sink;
mod words;
mod writers;

pub use decimals::{eight_digits, write_decimal, write_number};
pub use hex_digits::{digit_pair, hex_type};
pub use output_buffer::OutputBuffer;
pub use output_fault::OutputFault;
pub use sink::Sink;
pub use words::source_of;
