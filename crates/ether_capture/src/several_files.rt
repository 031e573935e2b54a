//! Reads several captures, one after the other.
ghost use Rattle.std.specs.Prelude.{◌≡◌, ◌≢◌, ◌⊎◌, ◌+◌, ◌↔◌, max, IsTrue, false, Some, Err, IfOk, IfSome, OnOk, OnErr, ℕ, List, Option};
ghost use Rattle.std.specs.Int.NonZero.{non_zero_usize_get};
ghost use Rattle.std.specs.Io.KnownBytes.{Appends};
ghost use Rattle.std.specs.Option.{option_map};
ghost use Rattle.ether_pcap.specs.Capture.{PacketValue};
ghost use Rattle.ether_stream.specs.Counting.{AreCounted, IfFileRead};
ghost use Rattle.ether_capture.specs.SeveralFiles.{HasEnded, HasListed, IsAfter, ReadsFile, ReadsFiles, Settles, Tells, next_task, nothing_read, text_of_capture};
ghost use Rattle.ether_stream.specs.FrameLines.{totals_line_if};
ghost use Rattle.ether_capture.specs.World.{names, reads, streams};
ghost use Rattle.ether_capture.specs.Options.{ListingValue, listing_view, named, names_input};
ghost use Rattle.ether_stream.specs.Outcome.{last_line_text, status_of_file};
ghost use Rattle.ether_stream.specs.Packets.{counted};
ghost use Rattle.ether_stream.specs.Task.{task_view};
ghost use Rattle.ether_capture.specs.declared.several_files.Tally.{Tally as TallyValue};
ghost use Rattle.ether_stream.specs.declared.outcome.FileEnd.TheVariants as ends;
ghost use Rattle.ether_stream.specs.declared.outcome.RunFault.TheVariants.{Output};

use crate::captures::Captures;
use crate::request::{Listing, name_bytes, named};
use crate::run_input::run_input;
use ether_output::{OutputBuffer, OutputFault, Sink};
use ether_stream::{
    FileEnd, Form, LastLine, LineSink, PacketCounts, RunFault, Task, line_of_file, line_of_input,
    status_of_file, write_totals,
};
use ether_text::Source;
use std::alloc::Global;
use std::num::NonZeroUsize;

/// What the captures so far had.
#[derive(Clone, Copy, Debug)]
pub struct Tally {
    /// How many packets.
    pub packets: usize,
    /// How many of these were skipped.
    pub skipped: usize,
    /// How many of these are undecided: their captured bytes don't decide whether they are selected.
    pub undecided: usize,
    /// How many further packets are asked for, if their number is limited.
    pub left: Option<usize>,
    /// The greatest exit status of a capture.
    pub status: u8,
}

impl Tally {
    /// The tally before the first capture.
    fn new(asked_for: Option<usize>) -> Tally
        ensures { result ≡ nothing_read asked_for }
    {
        Tally {
            packets: 0,
            skipped: 0,
            undecided: 0,
            left: asked_for,
            status: 0,
        }
    }

    /// The tally after another capture.
    fn with(&self, counts: PacketCounts, end: &FileEnd) -> Tally
        ensures packets { result.packets ≡ counts.number }
        ensures skipped { result.skipped ≡ counted (self.now.skipped + counts.skipped) }
        ensures undecided { result.undecided ≡ counted (self.now.undecided + counts.undecided) }
        ensures left { result.left ≡ counts.left }
        ensures status { result.status ≡ max self.now.status (status_of_file end.now) }
    {
        Tally {
            packets: counts.number,
            skipped: self.skipped.saturating_add(counts.skipped),
            undecided: self.undecided.saturating_add(counts.undecided),
            left: counts.left,
            status: self.status.max(status_of_file(end)),
        }
    }

    /// Tests that the requested number of packets was reached.
    fn is_done(&self) -> bool
        ensures { IsTrue result ↔ (self.now.left ≡ Some 0) }
    {
        matches!(self.left, Some(0))
    }

    /// How many further packets are asked for, if their number is limited and not 0.
    fn count(&self) -> Option<NonZeroUsize>
        ensures { self.now.left ≢ Some 0 → option_map non_zero_usize_get result ≡ self.now.left }
    {
        match self.left {
            Some(left) => NonZeroUsize::new(left),
            None => None,
        }
    }
}

/// Writes the lines of several captures, one after the other, and then the line of the totals of all. If a capture is
/// not read to its end, writes the reason to `messages`. Returns the greatest exit status of a capture. A name of `-`
/// is that of standard input, `reader`.
pub fn run_files<C: Captures, R: Source, W: Sink, M: LineSink>(
    listing: Listing<'_>,
    alloc: Global,
    captures: &C,
    reader: &mut R,
    writer: &mut W,
    messages: &mut M,
) -> Result<u8, OutputFault>
    ensures listed { (files : List ℕ → Option (List ℕ)) → HasListed (reads
        (names (C.has captures.now) C.can_refuse C.Input.Source.can_fail) R.can_fail W.can_fail) M.Sink.can_fail
        (listing_view listing.entry) (streams (R.remaining reader.old) (W.contents writer.old)
        (M.Sink.contents messages.old) files) (streams (R.remaining reader.new) (W.contents writer.new)
        (M.Sink.contents messages.new) files) result }
    ensures flushed { OnOk result (W.is_flushed writer.new) }
    ensures told { Settles M.Sink.is_flushed messages.old messages.new ⊎ M.Sink.can_fail }
{
    if listing.is_shown {
        captures.show();
    }
    let is_plain = listing.options.is_plain;
    let selects = listing.selection.is_some();
    let tally = read_files(listing, alloc, captures, reader, writer, messages)?;
    let undecided = if selects { Some(tally.undecided) } else { None };
    write_last(is_plain, &tally, undecided, writer)?;
    Ok(tally.status)
}

/// Writes what is made of each capture, until the requested number of packets is reached.
fn read_files<C: Captures, R: Source, W: Sink, M: LineSink>(
    listing: Listing<'_>,
    alloc: Global,
    captures: &C,
    reader: &mut R,
    writer: &mut W,
    messages: &mut M,
) -> Result<Tally, OutputFault>
    ensures ok { IfOk result
        (λ last. (files : List ℕ → Option (List ℕ)) → ReadsFiles (reads
        (names (C.has captures.now) C.can_refuse C.Input.Source.can_fail) R.can_fail W.can_fail) M.Sink.can_fail
        (listing_view listing.entry) (listing_view listing.entry).files
        (nothing_read (listing_view listing.entry).count) (streams (R.remaining reader.old) (W.contents writer.old)
        (M.Sink.contents messages.old) files) last (streams (R.remaining reader.new) (W.contents writer.new)
        (M.Sink.contents messages.new) files)) }
    ensures failed { OnErr result W.can_fail }
    ensures kept { names_input (listing_view listing.entry).files ≡ false → R.remaining reader.new
        ≡ R.remaining reader.old }
    ensures told { Settles M.Sink.is_flushed messages.old messages.new ⊎ M.Sink.can_fail }
{
    let options = listing.options;
    let jobs = listing.jobs;
    let mut files = listing.files.into_iter();
    let mut task = Task {
        selection: listing.selection,
        count: listing.count,
        form: Form::Lines(options),
    };
    let mut tally = Tally::new(task.asked_for());
    while let Some(name) = files.next() {
        if tally.is_done() {
            return Ok(tally);
        }
        task.count = tally.count();
        task.form = Form::Lines(options.after(name_bytes(named(name)), tally.packets));
        let (end, counts) = read_file(
            &task, jobs, name, alloc, captures, reader, writer, messages,
        )?;
        tally = tally.with(counts, &end);
    }
    Ok(tally)
}

/// Writes what is made of one capture, and to `messages` why it was not read to its end, if it was not. Returns how it
/// ended, and how many packets were read.
fn read_file<C: Captures, R: Source, W: Sink, M: LineSink>(
    task: &Task<'_>,
    jobs: Option<NonZeroUsize>,
    name: &str,
    alloc: Global,
    captures: &C,
    reader: &mut R,
    writer: &mut W,
    messages: &mut M,
) -> Result<(FileEnd, PacketCounts), OutputFault>
    ensures ok { (l : ListingValue) (at next : TallyValue) → task_view task.now ≡ next_task l at name.now
        → IfOk result (λ it. IsAfter at it.1 it.0 next → (files : List ℕ → Option (List ℕ)) → ReadsFile (reads
        (names (C.has captures.now) C.can_refuse C.Input.Source.can_fail) R.can_fail W.can_fail) M.Sink.can_fail l
        name.now at (streams (R.remaining reader.old) (W.contents writer.old) (M.Sink.contents messages.old) files)
        next (streams (R.remaining reader.new) (W.contents writer.new) (M.Sink.contents messages.new) files)) }
    ensures failed { OnErr result W.can_fail }
    ensures kept { IfSome (named name.now) (λ _. R.remaining reader.new ≡ R.remaining reader.old) }
    ensures told { Settles M.Sink.is_flushed messages.old messages.new ⊎ M.Sink.can_fail }
{
    let (end, counts) = end_of_file(task, jobs, name, alloc, captures, reader, writer);
    if is_output_fault(&end) {
        return Err(OutputFault);
    }
    captures.end_line();
    tell_reason(name, &end, messages);
    Ok((end, counts))
}

/// Tests that the writer failed.
fn is_output_fault(end: &FileEnd) -> bool
    ensures { IsTrue result ↔ (end.now ≡ ends.Read (Err Output)) }
{
    matches!(end, FileEnd::Read(Err(RunFault::Output)))
}

/// Writes to `messages` why a capture was not read to its end, if it was not.
fn tell_reason<M: LineSink>(name: &str, end: &FileEnd, messages: &mut M)
    ensures told { Tells M.Sink.can_fail (text_of_capture (named name.now) end.now) (M.Sink.contents messages.old)
        (M.Sink.contents messages.new) }
    ensures flushed { Settles M.Sink.is_flushed messages.old messages.new ⊎ M.Sink.can_fail }
{
    if let Some(line) = line_of_capture(name, end) {
        let _ = messages.put_line(&line);
    }
}

/// The line that says why a capture was not read to its end, if it was not.
fn line_of_capture<'a>(name: &'a str, end: &'a FileEnd) -> Option<LastLine<'a>>
    ensures { option_map last_line_text result ≡ text_of_capture (named name.now) end.now }
{
    match (named(name), end) {
        (Some(name), _) => line_of_file(name, end),
        (None, FileEnd::Read(end)) => line_of_input(end),
        (None, FileEnd::NotOpened(_)) => None,
    }
}

/// Writes what is made of one capture, and returns how it ended, and how many packets were read.
fn end_of_file<C: Captures, R: Source, W: Sink>(
    task: &Task<'_>,
    jobs: Option<NonZeroUsize>,
    name: &str,
    alloc: Global,
    captures: &C,
    reader: &mut R,
    writer: &mut W,
) -> (FileEnd, PacketCounts)
    ensures { (packets : List PacketValue) × ((told : Option (List ℕ)) (files : List ℕ → Option (List ℕ)) → HasEnded
        (reads (names (C.has captures.now) C.can_refuse C.Input.Source.can_fail) R.can_fail W.can_fail)
        (task_view task.now) (named name.now) packets
        (streams (R.remaining reader.old) (W.contents writer.old) told files)
        (streams (R.remaining reader.new) (W.contents writer.new) told files) result.0) × IfFileRead result.0
        (AreCounted (task_view task.now) packets result.1) }
{
    let Some(name) = named(name) else {
        let (end, counts) = run_input(task, jobs, alloc, reader, writer);
        return (FileEnd::Read(end), counts);
    };
    match captures.open_named(name) {
        Ok(mut input) => {
            let (end, counts) = run_input(task, jobs, alloc, &mut input, writer);
            (FileEnd::Read(end), counts)
        }
        Err(fault) => (FileEnd::NotOpened(fault), PacketCounts::none(task)),
    }
}

/// Writes the line of the totals, unless only those of walks are asked for.
fn write_last<W: Sink>(
    is_plain: bool,
    tally: &Tally,
    undecided: Option<usize>,
    writer: &mut W,
) -> Result<(), OutputFault>
    ensures written { OnOk result (Appends (W.contents writer.old) (W.contents writer.new)
        (totals_line_if is_plain tally.now.packets tally.now.skipped undecided)) }
    ensures flushed { OnOk result (W.is_flushed writer.new) }
    ensures failed { OnErr result W.can_fail }
{
    let mut out = OutputBuffer::new(writer);
    write_totals(is_plain, tally.packets, tally.skipped, undecided, &mut out);
    out.flush()
}
