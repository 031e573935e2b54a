//! Reads a capture of the classic pcap format or of pcapng, a file or standard input, and prints the lines of the walk
//! of each packet, or copies the capture without some of its packets, to standard output or a file.
//!
//! `main` calls [`program::run_program`] on the arguments, the files and the standard streams. Lines and copies go to
//! standard output, and messages why something was not read or written go to standard error.
#![tactic(auto)]

pub mod capture_files;
pub mod captures;
pub mod copy_run;
pub mod count;
pub mod count_line;
pub mod count_table;
pub mod grouping;
pub mod heading;
pub mod heap_memory;
pub mod heap_text;
pub mod interface_buffer;
pub mod journal;
pub mod key_members;
pub mod laws;
pub mod merge_run;
pub mod merger;
pub mod option_table;
pub mod options;
pub mod program;
pub mod progress_line;
pub mod request;
pub mod row_counts;
pub mod row_slot;
pub mod row_slots;
pub mod rows;
pub mod run_input;
pub mod several_files;
pub mod statistics;
pub mod statistics_format;
pub mod wrong_words;

use capture_files::CaptureFiles;
use ether_files::{CopyFiles, Form, OwnOutput, hold};
use ether_text::{Noted, tell_failure};
use progress_line::{Gauge, Meter};
use std::process::ExitCode;
use std::{env, io};

/// The program on the standard streams.
fn main(rt: HostRuntime) -> ExitCode {
    let _input = hold(&rt.stdin(), &rt, true);
    let _output = hold(&rt.stdout(), &rt, false);
    let _messages = hold(&rt.stderr(), &rt, false);
    let args = env::args(&rt);
    let unread = args.as_ref().err().copied();
    let gauge = Gauge::new(&rt, rt.stderr());
    let own = OwnOutput::new(&rt);
    let mut input = Noted::new(Meter::new(own.guard(&rt, rt.reader()), None, &gauge));
    let mut output = Noted::new(io::writer(&rt));
    let status = program::run_program::<io::Sink, _, _, _, _, _>(
        args,
        rt.alloc(),
        &CaptureFiles::new(&rt, &gauge, own),
        &mut CopyFiles::new(&rt, rt.alloc(), Form::Capture),
        &mut input,
        &mut output,
        &mut rt.stderr(),
    );
    let (unreadable, unwritable) = (input.error(), output.error());
    let is_stream = unread.is_some() || unreadable.is_some() || unwritable.is_some();
    if status == 4 && is_stream {
        tell_failure(
            "ether_capture",
            unread,
            unreadable,
            unwritable,
            &mut rt.stderr(),
        );
    }
    ExitCode::from(status)
}
