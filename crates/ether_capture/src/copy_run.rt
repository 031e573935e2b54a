//! A run whose copy goes to the file of its name.
ghost use Rattle.ether_stream.specs.Task.{task_view};
ghost use Rattle.ether_capture.specs.Copies.{IsCopied};
ghost use Rattle.ether_capture.specs.World.{keeps, names};
ghost use Rattle.ether_capture.specs.Program.{HasCopiedFile, HasCopiedInput};

use crate::captures::Captures;
use crate::run_input::run_input;
use ether_files::{Copies, WriteFault};
use ether_stream::{Outcome, RunFault, Task};
use ether_text::{Source, Verdict};
use std::alloc::Global;

/// The name of standard input among those of files.
const STANDARD_INPUT: &str = "-";

/// Copies standard input to the file of a name.
pub fn copy_input<'a, K: Copies, R: Source>(
    task: &Task<'_>,
    output: &'a str,
    alloc: Global,
    copies: &mut K,
    reader: &mut R,
) -> Outcome<'a>
    ensures { HasCopiedInput R.can_fail (keeps K.can_refuse K.Part.Sink.can_fail (K.keeps_input copies.old))
        (task_view task.now)
        output.entry.now (R.remaining reader.old) (R.remaining reader.new) (K.file copies.old output.entry.now)
        (K.file copies.new output.entry.now) result }
{
    let is_kept = copies.keeps_input();
    match copy_to(task, STANDARD_INPUT, is_kept, output, alloc, copies, reader) {
        Ok(end) => Outcome::Run(end),
        Err(fault) => Outcome::NotWritten {
            name: output,
            fault,
        },
    }
}

/// Copies the capture of a name to the file of another name, or of the same one.
pub fn copy_file<'a, C: Captures, K: Copies>(
    task: &Task<'_>,
    name: &'a str,
    output: &'a str,
    alloc: Global,
    captures: &C,
    copies: &mut K,
) -> Outcome<'a>
    ensures { HasCopiedFile (names (C.has captures.now) C.can_refuse C.Input.Source.can_fail)
        (keeps K.can_refuse K.Part.Sink.can_fail (K.keeps_input copies.old)) (task_view task.now) name.entry.now
        output.entry.now
        (K.file copies.old output.entry.now) (K.file copies.new output.entry.now) result }
{
    let mut input = match captures.open_named(name) {
        Ok(input) => input,
        Err(fault) => return Outcome::NotOpened { name, fault },
    };
    match copy_to(task, name, false, output, alloc, copies, &mut input) {
        Ok(end) => Outcome::File { name, end },
        Err(fault) => Outcome::NotWritten {
            name: output,
            fault,
        },
    }
}

/// Copies what a reader reads, the capture of the name `input` or standard input, to the file of a name. That gets the
/// copy when it is whole, and after a fault what was copied before if `is_kept`.
fn copy_to<K: Copies, R: Source>(
    task: &Task<'_>,
    input: &str,
    is_kept: bool,
    output: &str,
    alloc: Global,
    copies: &mut K,
    reader: &mut R,
) -> Result<Result<Verdict, RunFault>, WriteFault>
    ensures { IsCopied R.can_fail (keeps K.can_refuse K.Part.Sink.can_fail (K.keeps_input copies.old)) is_kept
        (task_view task.now) (R.remaining reader.old) (R.remaining reader.new) (K.file copies.old output.now)
        (K.file copies.new output.now) result }
{
    let mut part = copies.begin(output, &[input])?;
    let end = run_input(task, None, alloc, reader, &mut part).0;
    match end {
        Ok(verdict) => {
            copies.finish(output, part)?;
            Ok(Ok(verdict))
        }
        Err(RunFault::Output) => Err(copies.give_up(output, part, is_kept)),
        Err(fault) => {
            copies.break_off(output, part, is_kept)?;
            Ok(Err(fault))
        }
    }
}
