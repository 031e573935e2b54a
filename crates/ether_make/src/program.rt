//! What a run of the program makes of its input.
ghost use Rattle.std.specs.Io.KnownBytes.{IsAtEnd, Keeps};
ghost use Rattle.std.specs.Prelude.{◌≡◌, ◌||◌, IfOk, IfErr, None, OnErr, OnOk, is_some, nat_lt};
ghost use Rattle.ether_make.specs.Lines.{beginning, is_blank as is_blank_in};
ghost use Rattle.ether_make.specs.Messages.{fault_status};
ghost use Rattle.ether_make.specs.Program.{AfterFault, AfterReading, AfterTaking, BreaksLine, Continues, HasMade, IsOutputFault, IsWhole, ReadsLine, TakesLine};
ghost use Rattle.ether_make.specs.Serial.{SeriesOf, progress_view};

use crate::lines::{LineFault, Stop, line_template, owned_refusal};
use crate::output::write_end;
use crate::progress::{Progress, is_timely};
use crate::refusal::Reason;
use crate::series::{Series, series_of, write_series};
use crate::settings::Settings;
use crate::shown::Shown;
use std::alloc::Global;
use std::io::{BufRead, Write};
use std::{fmt, io};

/// Why a run did not make all frames.
#[derive(Drop)]
pub enum RunFault {
    /// The reader failed.
    Input(io::Error),
    /// A line means no frame.
    Line(Stop),
    /// The writer failed.
    Output(io::Error),
}

/// Makes the frames of the lines of a reader, and writes them. The frames of all lines that are there are written
/// before the program waits for input. A line that means no frame ends the run; the output has the frames of the
/// lines before it.
pub fn run<R: BufRead, W: Write>(
    alloc: Global,
    settings: &Settings,
    reader: &mut R,
    writer: &mut W,
) -> Result<(), RunFault>
    ensures made { OnOk result (HasMade settings.now (beginning settings.now.seed) (IsWhole settings.now)
        (R.remaining reader.old) (R.remaining reader.new) (W.contents writer.old) (W.contents writer.new)) }
    ensures fault { IfErr result (AfterFault settings.now (beginning settings.now.seed) (IsWhole settings.now)
        (R.remaining reader.old) (R.remaining reader.new) (W.contents writer.old) (W.contents writer.new)) }
{
    let mut progress = Progress::new(settings.seed);
    match make_lines(alloc, settings, reader, writer, &mut progress) {
        Ok(()) => match write_end(settings, writer, progress.link) {
            Ok(()) => Ok(()),
            Err(error) => Err(RunFault::Output(error)),
        },
        Err(RunFault::Output(error)) => Err(RunFault::Output(error)),
        Err(fault) => match write_end(settings, writer, progress.link) {
            Ok(()) => Err(fault),
            Err(error) => Err(RunFault::Output(error)),
        },
    }
}

/// Makes the frames of all lines, and writes them after those of other lines, if there are any.
pub(crate) fn make_lines<R: BufRead, W: Write>(
    alloc: Global,
    settings: &Settings,
    reader: &mut R,
    writer: &mut W,
    progress: &mut Progress,
) -> Result<(), RunFault>
    ensures made { OnOk result (HasMade settings.now (progress_view progress.old)
        (Continues settings.now (progress_view progress.old) (progress_view progress.new)) (R.remaining reader.old)
        (R.remaining reader.new) (W.contents writer.old) (W.contents writer.new)) }
    ensures fault { IfErr result (AfterFault settings.now (progress_view progress.old)
        (Continues settings.now (progress_view progress.old) (progress_view progress.new)) (R.remaining reader.old)
        (R.remaining reader.new) (W.contents writer.old) (W.contents writer.new)) }
{
    let mut line = Vec::new(alloc);
    let mut buffered = 0;
    for number in 1..usize::MAX {
        let is_ended = match next_line(reader, writer, &mut buffered, &mut line) {
            Ok(is_ended) => is_ended,
            Err(fault) => return Err(fault),
        };
        if let Err(fault) = take_line(alloc, settings, number, &line, writer, progress) {
            return Err(fault);
        }
        if !is_ended {
            return Ok(());
        }
    }
    Err(RunFault::Line(Stop::MEMORY))
}

/// Reads a line, and returns whether a line feed was at its end. The writer is flushed before the program waits for
/// input. `buffered` is how many bytes are known to be in the reader's buffer.
fn next_line<R: BufRead, W: Write>(
    reader: &mut R,
    writer: &mut W,
    buffered: &mut usize,
    line: &mut Vec<u8>,
) -> Result<bool, RunFault>
    ensures line { IfOk result (ReadsLine (R.remaining reader.old) (R.remaining reader.new) line.new.items) }
    ensures broken { IfErr result
        (AfterReading (R.remaining reader.old) (R.remaining reader.new) line.new.items) }
    ensures written { Keeps (W.contents writer.old) (W.contents writer.new) }
{
    if *buffered == 0 {
        flush(writer)?;
    }
    let Some(len) = buffered_line(reader) else {
        line.clear();
        return Ok(false);
    };
    if len == 0 {
        flush(writer)?;
    }
    match read_line(reader, line) {
        Ok(is_ended) => {
            *buffered = len.saturating_sub(line.len()).saturating_sub(1);
            Ok(is_ended)
        }
        Err(error) => Err(RunFault::Input(error)),
    }
}

/// Flushes a writer.
fn flush<W: Write>(writer: &mut W) -> Result<(), RunFault>
    ensures kept { Keeps (W.contents writer.old) (W.contents writer.new) }
    ensures fault { IfErr result IsOutputFault }
{
    match writer.flush() {
        Ok(()) => Ok(()),
        Err(error) => Err(RunFault::Output(error)),
    }
}

/// How many bytes are in the buffer of a reader if a whole line is among them, or 0; [`None`] at the end of the
/// input. It waits for input if the buffer is empty. A fault is left to the next read.
fn buffered_line<R: BufRead>(reader: &mut R) -> Option<usize>
    ensures kept { Keeps (R.remaining reader.old) (R.remaining reader.new) }
    ensures end { result ≡ None → IsAtEnd (R.remaining reader.old) }
{
    match reader.fill_buf() {
        Ok([]) => None,
        Ok(buffer) if buffer.contains(&b'\n') => Some(buffer.len()),
        _ => Some(0),
    }
}

/// Reads a line, and returns whether a line feed was at its end.
fn read_line<R: BufRead>(reader: &mut R, line: &mut Vec<u8>) -> io::Result<bool>
    ensures line { IfOk result (ReadsLine (R.remaining reader.old) (R.remaining reader.new) line.new.items) }
    ensures broken { OnErr result (BreaksLine (R.remaining reader.old) (R.remaining reader.new) line.new.items) }
{
    line.clear();
    if let Err(error) = reader.read_until(b'\n', line) {
        return Err(error);
    }
    let len = line.len();
    if len > 0 && line[len - 1] == b'\n' {
        line.truncate(len - 1);
        return Ok(true);
    }
    Ok(false)
}

/// Makes the frames of a line, and writes them. A blank line means nothing.
fn take_line<W: Write>(
    alloc: Global,
    settings: &Settings,
    number: usize,
    text: &[u8],
    writer: &mut W,
    progress: &mut Progress,
) -> Result<(), RunFault>
    ensures taken { OnOk result (TakesLine settings.now text.now (W.contents writer.old) (W.contents writer.new)
        (progress_view progress.old) (progress_view progress.new)) }
    ensures fault { IfErr result (AfterTaking settings.now number text.now (W.contents writer.old)
        (W.contents writer.new) (progress_view progress.old) (progress_view progress.new)) }
{
    if is_blank(text) {
        return Ok(());
    }
    let (series, count) = match line_series(alloc, settings, text, progress) {
        Ok(made) => made,
        Err(fault) => {
            return Err(RunFault::Line(Stop {
                line: number,
                fault,
            }));
        }
    };
    match write_series(settings, series, count, writer, progress) {
        Ok(()) => Ok(()),
        Err(error) => Err(RunFault::Output(error)),
    }
}

/// Whether a line has nothing but whitespace.
fn is_blank(text: &[u8]) -> bool
    ensures { result ≡ is_blank_in text.now }
{
    text.iter().all(|byte| matches!(byte, b' ' | b'\t' | b'\r'))
}

/// The frames of a line, and how many they are.
fn line_series(
    alloc: Global,
    settings: &Settings,
    text: &[u8],
    progress: &Progress,
) -> Result<(Series, u64), LineFault>
    ensures { SeriesOf settings.now (progress_view progress.now) text.now result }
{
    let template = match line_template(alloc, text, progress.link) {
        Ok(template) => template,
        Err(fault) => return Err(fault),
    };
    let count = settings.count.unwrap_or(template.found.combinations);
    if !is_counted(settings.count, template.found.combinations) {
        return Err(owned_refusal(alloc, "headers", Reason::TooMany));
    }
    if !is_timely(settings.rate, progress.pace, template.frame.time, count) {
        return Err(owned_refusal(alloc, "time", Reason::OtherTime));
    }
    match series_of(settings, template) {
        Ok(series) => Ok((series, count)),
        Err(_) => Err(LineFault::Memory),
    }
}

/// Whether it is known how many frames a line has: combinations that 64 bits do not count are 0.
fn is_counted(count: Option<u64>, combinations: u64) -> bool
    ensures { result ≡ (is_some count || nat_lt 0 combinations) }
{
    count.is_some() || combinations > 0
}

/// The exit status after a line that means no frame: 3, or 5 if there is no memory.
pub fn status_of(stop: &Stop) -> u8
    ensures { result ≡ fault_status stop.now.fault }
{
    match stop.fault {
        LineFault::Memory => 5,
        _ => 3,
    }
}

impl fmt::Display for Stop {
    fn fmt<W: fmt::Write>(&self, f: &mut fmt::Formatter<W>) -> fmt::Result {
        let line = self.line;
        match &self.fault {
            LineFault::NotJson => write!(f, "line {line}: this is no JSON text"),
            LineFault::NotObject => write!(f, "line {line}: this is no object"),
            LineFault::Repeated => {
                write!(f, "line {line}: an object has two members of one name")
            }
            LineFault::TooLong => write!(f, "line {line}: the frame has more than 262144 bytes"),
            LineFault::Memory => write!(f, "out of memory"),
            LineFault::Refused {
                header: Some(header),
                member,
                reason,
            } => write!(
                f,
                "line {line}: header {header}: {} {}",
                Shown(member.as_str()),
                reason.text()
            ),
            LineFault::Refused {
                header: None,
                member,
                reason,
            } => write!(
                f,
                "line {line}: {} {}",
                Shown(member.as_str()),
                reason.text()
            ),
        }
    }
}
