//! A run: from a reader of a capture to a writer of the lines of its packets, or of a copy.
ghost use Rattle.std.specs.Prelude.{◌≡◌, ◌⊎◌, ◌↔◌, [], true, IfErr, IsTrue};
ghost use Rattle.ether_pcap.specs.Capture.{IsEnd};
ghost use Rattle.ether_text.specs.InputReader.{StopsReading};
ghost use Rattle.ether_output.specs.OutputBuffer.{contents_of, Marks};
ghost use Rattle.ether_text.specs.Run.{IsEndless};
ghost use Rattle.ether_stream.specs.Counting.{HasCounted};
ghost use Rattle.ether_stream.specs.InputBuffer.{items};
ghost use Rattle.ether_stream.specs.Progress.{counts_at, IsStart};
ghost use Rattle.ether_stream.specs.Run.{AnswersSlice, HasRun, IfSettled, OnInput, OnStreamFault};
ghost use Rattle.ether_stream.specs.Task.{task_view};

use crate::progress::Progress;
use crate::{Buffers, EditBuffer, Grow, InputBuffer, PacketCounts, RunFault, SectionTable, Task};
use ether_output::{OutputBuffer, Sink};
use ether_pcap::InterfaceTable;
use ether_text::{InputReader, SliceSource, Source, Verdict};

/// Reads a capture to its end, and writes what is asked for: the lines of its packets, or a copy.
///
/// A capture is a classic pcap file or a pcapng file. The run stops with [`RunFault::Capture`] at the first file
/// header, record or block that can't be read, and with [`RunFault::NotEdited`] at a packet that is to be edited and
/// can't be. What is made of the units before that has been written and flushed. Before each read, all that was made
/// so far has been written.
///
/// Any fault of the reader, also an interruption, is [`RunFault::Input`], and so is a reader that does not end. Any
/// fault of the writer, also at the closing flush, is [`RunFault::Output`]; nothing is claimed of how much was
/// written. After a fault neither is called again.
///
/// A copy is a capture of the same format, of the file header, section headers, descriptions of interfaces, any other
/// block, and the packets that are chosen, each edited if that is asked for. With `CopyMode::Exact` each unit is as
/// it was read. With `CopyMode::Changed` section lengths are unspecified, snap lengths are raised by what an edit can
/// add, and custom blocks that are not meant to be copied are left out. The verdict of a copy is
/// [`Verdict::AllAccepted`].
///
/// If a number of packets is asked for, the run ends after the last of these, as if the capture ended there.
///
/// The memory for bytes that are read grows to what the longest record or block needs, 16 MiB at most. If that is
/// refused, the run stops with [`RunFault::Memory`].
pub fn run<B: Grow, T: SectionTable, R: Source, W: Sink>(
    task: &Task<'_>,
    buffers: Buffers<B, T>,
    reader: &mut R,
    writer: &mut W,
) -> Result<Verdict, RunFault>
    ensures run { HasRun (task_view task.now) (R.remaining reader.old) (R.remaining reader.new)
        (W.contents writer.old) (W.contents writer.new) result }
    ensures failed { IfErr result (λ fault. OnStreamFault fault
        (R.can_fail ⊎ IsEndless (R.remaining reader.old) (R.remaining reader.new)) W.can_fail) }
    ensures flushed { IfSettled result (W.is_flushed writer.new) }
{
    let (outcome, _) = run_counted(task, buffers, reader, writer);
    outcome
}

/// Like [`run`], but also returns how many packets were read.
pub fn run_counted<B: Grow, T: SectionTable, R: Source, W: Sink>(
    task: &Task<'_>,
    buffers: Buffers<B, T>,
    reader: &mut R,
    writer: &mut W,
) -> (Result<Verdict, RunFault>, PacketCounts)
    ensures run { HasCounted (task_view task.now) (R.remaining reader.old) (R.remaining reader.new)
        (W.contents writer.old) (W.contents writer.new) result.0 result.1 }
    ensures failed { IfErr result.0 (λ fault. OnStreamFault fault
        (R.can_fail ⊎ IsEndless (R.remaining reader.old) (R.remaining reader.new)) W.can_fail) }
    ensures flushed { IfSettled result.0 (W.is_flushed writer.new) }
{
    let mut input = InputReader::new(reader);
    let mut out = OutputBuffer::new(writer);
    let Buffers {
        input: buffer,
        edits,
        interfaces,
    } = buffers;
    let mut progress = Progress::new(task, interfaces);
    let outcome = answer_capture(task, &mut progress, buffer, edits, &mut input, &mut out);
    (outcome, progress.counts())
}

/// Like [`run`] for a capture in a slice. No read can fail, so the outcome is never [`RunFault::Input`].
pub fn run_slice<B: Grow, T: SectionTable, W: Sink>(
    task: &Task<'_>,
    buffers: Buffers<B, T>,
    capture: &[u8],
    writer: &mut W,
) -> Result<Verdict, RunFault>
    ensures run { AnswersSlice (task_view task.now) W.can_fail capture.now (W.contents writer.old)
        (W.contents writer.new) result }
    ensures flushed { IfSettled result (W.is_flushed writer.new) }
{
    let mut source = SliceSource::new(capture);
    run(task, buffers, &mut source, writer)
}

/// Reads the capture to its end, and writes the text and flushes it. After a fault of the reader or the writer neither
/// is called again.
fn answer_capture<B: Grow, T: InterfaceTable, R: Source, W: Sink>(
    task: &Task<'_>,
    progress: &mut Progress<T>,
    buffer: InputBuffer<B>,
    edits: EditBuffer<B>,
    input: &mut InputReader<'_, R>,
    out: &mut OutputBuffer<'_, W>,
) -> Result<Verdict, RunFault>
    requires { IsStart (task_view task.now) progress.old }
    ensures same_reader { input.new.inner.ghost_name ≡ input.old.inner.ghost_name }
    ensures same_writer { out.new.writer.ghost_name ≡ out.old.writer.ghost_name }
    ensures run { HasCounted (task_view task.now) (R.remaining input.old.inner.now) (R.remaining input.new.inner.now)
        (contents_of W.contents out.old) (W.contents out.new.writer.now) result (counts_at progress.new) }
    ensures failed { IfErr result
        (λ fault. OnStreamFault fault (input.new.has_failed ≡ true) (out.new.has_failed ≡ true)) }
    ensures cause { IfErr result (λ fault. OnInput fault (StopsReading R.remaining R.can_fail input.old input.new)) }
    ensures marks { Marks W.can_fail out.old out.new }
    ensures flushed { IfSettled result (W.is_flushed out.new.writer.now) }
{
    let outcome = read_capture(task, progress, buffer, edits, input, out);
    if let Ok(_) | Err(RunFault::Capture(_) | RunFault::NotEdited(_) | RunFault::Memory) = outcome {
        out.flush()?;
    }
    outcome
}

/// Reads the capture to its end, and gathers what is written. What is gathered is written out before each read.
fn read_capture<B: Grow, T: InterfaceTable, R: Source, W: Sink>(
    task: &Task<'_>,
    progress: &mut Progress<T>,
    buffer: InputBuffer<B>,
    edits: EditBuffer<B>,
    input: &mut InputReader<'_, R>,
    out: &mut OutputBuffer<'_, W>,
) -> Result<Verdict, RunFault>
    requires { IsStart (task_view task.now) progress.old }
    ensures same_reader { input.new.inner.ghost_name ≡ input.old.inner.ghost_name }
    ensures same_writer { out.new.writer.ghost_name ≡ out.old.writer.ghost_name }
    ensures run { HasCounted (task_view task.now) (R.remaining input.old.inner.now) (R.remaining input.new.inner.now)
        (contents_of W.contents out.old) (contents_of W.contents out.new) result (counts_at progress.new) }
    ensures none_waits { IfErr result (λ fault. OnInput fault (out.new.waiting.items ≡ [])) }
    ensures failed { IfErr result
        (λ fault. OnStreamFault fault (input.new.has_failed ≡ true) (out.new.has_failed ≡ true)) }
    ensures cause { IfErr result (λ fault. OnInput fault (StopsReading R.remaining R.can_fail input.old input.new)) }
    ensures marks { Marks W.can_fail out.old out.new }
{
    let (mut buffer, mut edits) = (buffer, edits);
    buffer.clear();
    loop {
        let Some(error) = buffer.take_units(progress, task, &mut edits, out)? else {
            return progress.finish(task, out);
        };
        let Some(required_len) = error.required_len() else {
            return Err(progress.fault(error));
        };
        out.write_out()?;
        buffer.make_room(required_len)?;
        if buffer.read(input, out)? == 0 {
            if is_over(progress, &buffer) {
                return progress.finish(task, out);
            }
            return Err(progress.fault(error));
        }
    }
}

/// Tests that the capture has begun, and that nothing of it is left.
fn is_over<B: Grow, T: InterfaceTable>(progress: &Progress<T>, buffer: &InputBuffer<B>) -> bool
    ensures { IsTrue result ↔ IsEnd progress.now.reader (items buffer.now) }
{
    progress.has_begun() && buffer.len() == 0
}
