//! Makes frames from objects of JSON, one in each line of files or of standard input, and writes them as a capture or as
//! lines of hexadecimal digits, to standard output or a file.
//!
//! `main` reads the arguments by [`options::request_of_words`], and calls [`input_files::run_files`] on the files and the
//! standard streams. A message why not all frames are made goes to standard error.
#![tactic(auto)]

pub mod about;
pub mod bits;
pub mod capture;
pub mod check_sequence;
mod check_tables;
pub mod field_bits;
pub mod frame;
pub mod header;
pub mod hex_lines;
pub mod input_files;
pub mod laws;
pub mod lines;
pub mod named_files;
pub mod objects;
pub mod option_table;
pub mod options;
pub mod output;
pub mod pace;
pub mod program;
pub mod progress;
pub mod range;
pub mod refusal;
mod repeated;
pub mod request;
pub mod series;
pub mod settings;
pub mod shown;
pub mod sizes;
pub mod slot;
pub mod template;
pub mod texts;
pub mod time_text;
pub mod wrong_words;

use about::{HELP, VERSION};
use ether_files::{Copies, CopyFiles, OwnOutput, WriteFault, hold};
use input_files::{FileFault, run_files};
use named_files::NamedFiles;
use options::request_of_words;
use program::RunFault;
use request::{Job, Request, RequestError};
use settings::Form;
use std::io::{BufRead, BufReader, BufWriter, ErrorKind, Write};
use std::process::ExitCode;
use std::{env, io};

/// What messages call the standard streams.
const STANDARD_INPUT: &str = "standard input";

const STANDARD_OUTPUT: &str = "standard output";

/// The name of standard input among those of files.
const INPUT_WORD: &str = "-";

/// The program on the standard streams.
fn main(rt: HostRuntime) -> ExitCode {
    let _input = hold(&rt.stdin(), &rt, true);
    let _output = hold(&rt.stdout(), &rt, false);
    let _messages = hold(&rt.stderr(), &rt, false);
    let args = match env::args(&rt) {
        Ok(args) => args,
        Err(error) => {
            let _ = match error.kind() {
                ErrorKind::InvalidData => eprintln!(rt; "ether_make: an argument is not UTF-8"),
                _ => eprintln!(rt; "ether_make: the arguments: {error}"),
            };
            return ExitCode::from(4);
        }
    };
    let Ok(words) = args.collect::<Vec<String>>(rt.alloc()) else {
        return ExitCode::from(no_memory(rt));
    };
    ExitCode::from(match request_of_words(words.as_slice(), rt.alloc()) {
        Ok(Request::Make(job)) => make(rt, &job),
        Ok(Request::Help) => status_of_text(rt, print!(rt; "{HELP}")),
        Ok(Request::Version) => status_of_text(rt, println!(rt; "{VERSION}")),
        Err(RequestError::Usage(usage)) => {
            let _ = eprintln!(rt; "ether_make: {usage}");
            2
        }
        Err(RequestError::Memory) => no_memory(rt),
    })
}

/// The exit status after a text.
fn status_of_text(rt: HostRuntime, written: io::Result<()>) -> u8 {
    match written {
        Ok(()) => 0,
        Err(error) => unwritten(rt, STANDARD_OUTPUT, &error),
    }
}

/// Says why the output was not written, unless nobody reads it any more, and returns the exit status.
fn unwritten(rt: HostRuntime, output: &str, error: &io::Error) -> u8 {
    if error.kind() != ErrorKind::BrokenPipe {
        let _ = eprintln!(rt; "ether_make: {output}: {error}");
    }
    4
}

/// Says that there is no memory, and returns the exit status.
fn no_memory(rt: HostRuntime) -> u8 {
    let _ = eprintln!(rt; "ether_make: out of memory");
    5
}

/// Makes the frames that are asked for, and returns the exit status.
fn make(rt: HostRuntime, job: &Job<'_>) -> u8 {
    match job.output {
        None | Some(INPUT_WORD) => match make_to(rt, job, rt.stdout()) {
            Made::All => 0,
            Made::NoMemory => no_memory(rt),
            Made::OwnOutput(input) => refused(rt, input),
            Made::Fault(fault) => tell(rt, &fault),
        },
        Some(name) => make_file(rt, job, name),
    }
}

/// Makes frames for the file of a name, and returns the exit status. The file gets all of them, or after a fault those
/// before it, if they were made of standard input that can't be read again.
fn make_file(rt: HostRuntime, job: &Job<'_>, name: &str) -> u8 {
    let form = match job.settings.form {
        Form::Capture => ether_files::Form::Capture,
        Form::Hex => ether_files::Form::Lines,
    };
    let mut files = CopyFiles::new(&rt, rt.alloc(), form);
    let inputs = named_or_input(job);
    let mut part = match files.begin(name, inputs) {
        Ok(part) => part,
        Err(fault) => return not_written(rt, name, fault),
    };
    let made = make_to(rt, job, &mut part);
    let is_kept = files.keeps_input() && names_input(inputs) && part.has_frames();
    match made {
        Made::All => match files.finish(name, part) {
            Ok(()) => 0,
            Err(fault) => not_written(rt, name, fault),
        },
        Made::NoMemory => {
            let _ = files.give_up(name, part, is_kept);
            no_memory(rt)
        }
        Made::OwnOutput(input) => {
            let _ = files.give_up(name, part, false);
            refused(rt, input)
        }
        Made::Fault(fault) => match &fault.fault {
            RunFault::Output(_) => not_written(rt, name, files.give_up(name, part, is_kept)),
            _ => match files.break_off(name, part, is_kept) {
                Ok(()) => tell(rt, &fault),
                Err(fault) => not_written(rt, name, fault),
            },
        },
    }
}

/// The names of the inputs.
fn named_or_input<'a>(job: &'a Job<'a>) -> &'a [&'a str] {
    if job.files.is_empty() {
        return &[INPUT_WORD];
    }
    job.files.as_slice()
}

/// Tests that standard input is among the inputs.
fn names_input(inputs: &[&str]) -> bool {
    for input in inputs {
        if *input == INPUT_WORD {
            return true;
        }
    }
    false
}

/// Says why the file of a name can't be written, and returns the exit status.
fn not_written(rt: HostRuntime, name: &str, fault: WriteFault) -> u8 {
    let _ = eprintln!(rt; "ether_make: {name}: {fault}");
    4
}

/// How frames were made.
#[derive(Drop)]
enum Made<'a> {
    /// All of them were.
    All,
    /// There was no memory to begin with.
    NoMemory,
    /// This input is the output, too, so what is written would be read.
    OwnOutput(&'a str),
    /// A fault ended the run.
    Fault(FileFault<'a>),
}

/// The first input that is standard output, too, and has something to read, if there is one.
fn own_output<'a, R: BufRead>(
    rt: HostRuntime,
    inputs: &'a [&'a str],
    reader: &mut R,
) -> Option<&'a str> {
    let own = OwnOutput::new(&rt);
    for input in inputs {
        if *input != INPUT_WORD {
            if own.is_named(&rt, input) {
                return Some(input);
            }
        } else if own.is_input(&rt) && has_bytes(reader) {
            return Some(STANDARD_INPUT);
        }
    }
    None
}

/// Tests that a reader has something to read.
fn has_bytes<R: BufRead>(reader: &mut R) -> bool {
    match reader.fill_buf() {
        Ok(bytes) => !bytes.is_empty(),
        Err(_) => false,
    }
}

/// Says that an input is the output, too, and returns the exit status.
fn refused(rt: HostRuntime, input: &str) -> u8 {
    let _ = eprintln!(rt; "ether_make: {input}: it is the output, too");
    4
}

/// Makes the frames that are asked for, and writes them to an output.
fn make_to<'a, W: Write + Drop>(rt: HostRuntime, job: &'a Job<'a>, output: W) -> Made<'a> {
    let Ok(mut writer) = BufWriter::new(rt.alloc(), output) else {
        return Made::NoMemory;
    };
    let Ok(mut reader) = BufReader::new(rt.alloc(), rt.reader()) else {
        return Made::NoMemory;
    };
    if let Some(name) = own_output(rt, named_or_input(job), &mut reader) {
        return Made::OwnOutput(name);
    }
    let files = NamedFiles::new(&rt);
    let names = job.files.as_slice();
    match run_files(
        &files,
        rt.alloc(),
        &job.settings,
        names,
        &mut reader,
        &mut writer,
    ) {
        Ok(()) => Made::All,
        Err(fault) => Made::Fault(fault),
    }
}

/// Says why not all frames were made, and returns the exit status.
fn tell(rt: HostRuntime, fault: &FileFault<'_>) -> u8 {
    match (&fault.fault, fault.file) {
        (RunFault::Input(error), file) => {
            let file = file.unwrap_or(STANDARD_INPUT);
            let _ = eprintln!(rt; "ether_make: {file}: {error}");
            4
        }
        (RunFault::Output(error), _) => unwritten(rt, STANDARD_OUTPUT, error),
        (RunFault::Line(stop), Some(file)) => {
            let _ = eprintln!(rt; "ether_make: {file}: {stop}");
            program::status_of(stop)
        }
        (RunFault::Line(stop), None) => {
            let _ = eprintln!(rt; "ether_make: {stop}");
            program::status_of(stop)
        }
    }
}
