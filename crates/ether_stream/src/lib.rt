//! What is made of a capture: from a reader of it to a writer of the lines of its packets, or of a copy. No call
//! allocates memory.
//!
//! [`run::run`] reads a capture of the classic pcap format or of pcapng, and does what a [`Task`] says. Its [`Buffers`]
//! are the caller's: bytes in memory that may [`Grow`], and a [`SectionTable`]. A [`Reason`] says why a run stopped.
#![tactic(auto)]

mod about;
mod buffers;
mod copying;
mod counts;
mod edit_buffer;
mod frame_lines;
mod input_buffer;
pub mod laws;
mod line_sink;
mod linux_sll2_lines;
mod linux_sll_lines;
mod memory;
mod messages;
mod no_memory;
mod option_values;
mod outcome;
mod progress;
pub mod run;
mod section_table;
mod selection;
mod task;
mod usage;
mod vlan_options;

pub use about::{HELP, VERSION};
pub use buffers::Buffers;
pub use counts::PacketCounts;
pub use edit_buffer::EditBuffer;
pub use frame_lines::{write_lines, write_totals};
pub use input_buffer::InputBuffer;
pub use line_sink::LineSink;
pub use memory::Grow;
pub use no_memory::NoMemory;
pub use option_values::{
    FormatName, count_of, edit_of_words, fields_of, filter_of, format_of, limit_of,
    status_on_fault_of, undecided_of,
};
pub use outcome::{
    FileEnd, LastLine, Outcome, Reason, RunFault, is_message, last_line, line_of_file,
    line_of_input, program_status, status_of, status_of_file,
};
pub use section_table::{MAX_INTERFACES, SectionTable};
pub use selection::{Selection, Undecided};
pub use task::{Form, LineOptions, Task};
pub use usage::{DependentOption, Usage, ValueOption};
