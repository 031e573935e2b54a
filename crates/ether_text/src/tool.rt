//! The tool as functions: lines of hexadecimal digits, each a frame, are read and answered.
//!
//! [`program::run_program`] is the whole program `ether_tool`, over any arguments. [`run::run`] is a run over any reader
//! and writer, and [`run::run_slice`] is a run over lines in memory.

pub mod about;
pub mod command;
mod digit_table;
pub mod laws;
mod line_buffer;
mod line_loop;
pub mod mode;
pub mod outcome;
pub mod parse_frame;
pub mod program;
pub mod run;
mod write_answer;
