//! Reads frames, each a line of hexadecimal digits, and prints the lines of the walk of each frame.
//!
//! `main` calls [`program::run_program`] on the arguments and the standard streams, and prints to standard output; the
//! words `--help` and `--version` are answered by [`about`](about::about). If a
//! stream failed or the arguments can't be read, the status is 4, and `main` also prints one line to standard error,
//! unless nobody reads the output any more.
#![tactic(auto)]

use ether_output::{OutputBuffer, Sink};
pub use ether_text::tool::{about, command, laws, mode, outcome, parse_frame, program, run};
use ether_text::{Noted, tell_failure};
use std::process::ExitCode;
use std::{env, io};

/// Runs the program on the standard streams, and exits with its status.
fn main(rt: HostRuntime) -> ExitCode {
    let args = env::args(&rt);
    let unread = args.as_ref().err().copied();
    let mut input = Noted::new(rt.reader());
    let mut output = Noted::new(io::writer(&rt));
    let status = match about_of(env::args(&rt)) {
        Some(text) => tell(text, &mut output),
        None => program::run_program(args, &mut input, &mut output),
    };
    if status == 4 {
        tell_failure(
            "ether_tool",
            unread,
            input.error(),
            output.error(),
            &mut rt.stderr(),
        );
    }
    ExitCode::from(status)
}

/// What the program says of itself, if the arguments ask for that.
fn about_of(args: io::Result<env::Args>) -> Option<&'static str> {
    let Ok(mut args) = args else {
        return None;
    };
    let _program = args.next();
    let word = args.next()?;
    if args.next().is_some() {
        return None;
    }
    about::about(&[word.as_str()])
}

/// Writes a text and an LF, and returns the exit status.
fn tell<W: Sink>(text: &str, writer: &mut W) -> u8 {
    let mut out = OutputBuffer::new(writer);
    out.append(text.as_bytes());
    out.append(b"\n");
    if out.flush().is_ok() { 0 } else { 4 }
}
