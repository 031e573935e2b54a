//! The bytes of the capture that were read and are not taken yet.
ghost use Rattle.std.specs.Prelude.{◌≡◌, ◌+◌, ◌≤◌, ◌<◌, List, ℕ, [], ◌++◌, length, take, drop, slice_range, true, false, IfOk, IfErr, OnOk, OnErr};
ghost use Rattle.std.specs.Io.KnownBytes.{Keeps, Consumes, IsAtEnd};
ghost use Rattle.ether_text.specs.InputReader.{HasCause, ReadsOn};
ghost use Rattle.ether_output.specs.OutputBuffer.{Marks};
ghost use Rattle.ether_stream.specs.Progress.{IsTakingFault, OnNotEdited, OnOutput, StopsAfter, TakesUnits};
ghost use Rattle.ether_stream.specs.Task.{task_view};

use crate::progress::Progress;
use crate::{EditBuffer, Grow, NoMemory, RunFault, Task};
use ether_output::{OutputBuffer, Sink};
use ether_pcap::{CaptureError, InterfaceTable};
use ether_text::{InputFault, InputReader, Source};

/// How many bytes an [`InputBuffer`] has room for at least.
const FIRST_ROOM: usize = 65_536;

/// Bytes of the input, in memory that grows to what a file header, a record or a block needs.
#[derive(Drop)]
pub struct InputBuffer<B: Grow> {
    memory: B,
    start: usize,
    end: usize,
    ghost ordered: { start ≤ end },
    ghost within: { end ≤ length (B.items memory) },
    ghost least: { 65536 ≤ length (B.items memory) },
}

impl<B: Grow> InputBuffer<B> {
    ghost use Rattle.ether_stream.specs.InputBuffer.{items, room};

    /// A buffer with no bytes, in memory that grows to 65,536 at once.
    pub fn new(memory: B) -> Result<Self, NoMemory>
        ensures { IfOk result (λ buffer. items buffer ≡ []) }
    {
        let mut memory = memory;
        memory.grow(FIRST_ROOM)?;
        Ok(InputBuffer {
            memory,
            start: 0,
            end: 0,
        })
    }

    /// Takes all bytes.
    pub(crate) fn clear(&mut self)
        ensures { items self.new ≡ [] }
    {
        self.start = 0;
        self.end = 0;
    }

    /// The number of bytes that are not taken yet.
    pub(crate) fn len(&self) -> usize
        ensures { result ≡ length (items self.now) }
    {
        self.end - self.start
    }

    /// Takes the units at the front, and writes what is made of each. Returns why the bytes that are left do not
    /// begin with a unit, or `None` if the requested number of packets was reached.
    pub(crate) fn take_units<T: InterfaceTable, W: Sink>(
        &mut self,
        progress: &mut Progress<T>,
        task: &Task<'_>,
        edits: &mut EditBuffer<B>,
        out: &mut OutputBuffer<'_, W>,
    ) -> Result<Option<CaptureError>, RunFault>
        ensures same_writer { out.new.writer.ghost_name ≡ out.old.writer.ghost_name }
        ensures ok { IfOk result
            (λ error. TakesUnits (task_view task.now) W.contents (items self.old) progress.old out.old
            (items self.new) error progress.new out.new) }
        ensures stopped { IfErr result (λ fault. OnNotEdited fault (λ offset.
            StopsAfter (task_view task.now) W.contents (items self.old) progress.old out.old offset out.new)) }
        ensures fault { IfErr result IsTakingFault }
        ensures failed { IfErr result (λ fault. OnOutput fault (out.new.has_failed ≡ true)) }
        ensures marks { Marks W.can_fail out.old out.new }
    {
        let (start, end) = (self.start, self.end);
        let bytes = &self.memory.bytes()[start..end];
        let (taken, error) = progress.take_units(task, edits, bytes, out)?;
        self.start = start + taken;
        Ok(error)
    }

    /// Makes room for a unit of `len` bytes.
    pub(crate) fn make_room(&mut self, len: usize) -> Result<(), NoMemory>
        ensures items { items self.new ≡ items self.old }
        ensures room { OnOk result (len ≤ room self.new) }
        ensures failed { OnErr result (65536 < len) }
    {
        if self.memory.bytes().len() < len {
            self.memory.grow(len)?;
        }
        Ok(())
    }

    /// Moves the bytes to the front, so that all the room that is left is after them.
    fn move_to_front(&mut self)
        ensures items { items self.new ≡ items self.old }
        ensures start { self.new.start ≡ 0 }
        ensures room { room self.new ≡ room self.old }
    {
        if self.start == 0 {
            return;
        }
        let (start, end) = (self.start, self.end);
        self.memory.bytes_mut().copy_within(start..end, 0);
        self.start = 0;
        self.end = end - start;
    }

    /// Reads some bytes after those that are there, and returns their number: 0 at the end of the input, and if there
    /// is no room.
    ///
    /// No text may wait in `out`.
    pub(crate) fn read<R: Source, W: Sink>(
        &mut self,
        input: &mut InputReader<'_, R>,
        out: &OutputBuffer<'_, W>,
    ) -> Result<usize, InputFault>
        requires { out.now.waiting.items ≡ [] }
        ensures same_reader { input.new.inner.ghost_name ≡ input.old.inner.ghost_name }
        ensures ok { IfOk result (λ n. (more : List ℕ) × (length more ≡ n) × (items self.new ≡ items self.old ++ more)
            × Consumes (R.remaining input.old.inner.now) (R.remaining input.new.inner.now) more) }
        ensures end { IfOk result
            (λ n. n ≡ 0 → length (items self.old) < room self.old → IsAtEnd (R.remaining input.new.inner.now)) }
        ensures left { OnOk result (input.new.reads_left + 1 ≡ input.old.reads_left) }
        ensures failed { OnErr result (input.new.has_failed ≡ true) }
        ensures kept { OnErr result
            (Keeps (R.remaining input.old.inner.now) (R.remaining input.new.inner.now)) }
        ensures same { OnErr result (items self.new ≡ items self.old) }
        ensures on { IfOk result (λ n. 0 < n → ReadsOn R.remaining input.old input.new) }
        ensures cause { OnErr result (HasCause R.can_fail out.now input.old input.new) }
    {
        self.move_to_front();
        let end = self.end;
        let count = read_after(end, self.memory.bytes_mut(), input, out)?;
        self.end = end + count;
        Ok(count)
    }
}

/// Reads some bytes into a slice from `end` on, and returns their number. The bytes before `end` are unchanged.
fn read_after<R: Source, W: Sink>(
    end: usize,
    bytes: &mut [u8],
    input: &mut InputReader<'_, R>,
    out: &OutputBuffer<'_, W>,
) -> Result<usize, InputFault>
    requires within { end ≤ length bytes.old }
    requires none_waits { out.now.waiting.items ≡ [] }
    ensures same_reader { input.new.inner.ghost_name ≡ input.old.inner.ghost_name }
    ensures len { length bytes.new ≡ length bytes.old }
    ensures before { take end bytes.new ≡ take end bytes.old }
    ensures bound { IfOk result (λ n. end + n ≤ length bytes.new) }
    ensures read { IfOk result (λ n. Consumes (R.remaining input.old.inner.now) (R.remaining input.new.inner.now)
        (slice_range bytes.new end (end + n))) }
    ensures end { IfOk result
        (λ n. n ≡ 0 → end < length bytes.new → IsAtEnd (R.remaining input.new.inner.now)) }
    ensures left { OnOk result (input.new.reads_left + 1 ≡ input.old.reads_left) }
    ensures going { OnOk result (input.new.has_failed ≡ false) }
    ensures failed { OnErr result (input.new.has_failed ≡ true) }
    ensures kept { OnErr result
        (Keeps (R.remaining input.old.inner.now) (R.remaining input.new.inner.now)) }
    ensures cause { OnErr result (HasCause R.can_fail out.now input.old input.new) }
{
    input.read(&mut bytes[end..], out)
}
