//! A writer with a buffer of fixed size, which remembers that it failed.
use crate::{OutputFault, Sink};
use arrayvec::ArrayVec;

/// The number of bytes that may wait.
const ROOM: usize = 65536;

/// Text on its way to a writer, gathered so that many short pieces cost one write.
///
/// It holds the writer's contents followed by the text that waits. After a fault the writer is not called again. Text
/// that was not written out by [`write_out`](Self::write_out) or [`flush`](Self::flush) is lost when the buffer is
/// dropped.
///
/// ```
/// let mut written = ArrayVec::<u8, 64>::new();
/// let mut out = OutputBuffer::new(&mut written);
/// out.append(b"rest 14 14 ");
/// out.append(b"sealed\n");
/// assert_eq!(rt; out.flush(), Ok(()));
/// assert_eq!(rt; written.as_slice(), b"rest 14 14 sealed\n".as_slice());
/// ```
#[derive(Drop)]
pub struct OutputBuffer<'a, W> {
    writer: &'a mut W,
    waiting: ArrayVec<u8, ROOM>,
    has_failed: bool,
}

impl<'a, W: Sink> OutputBuffer<'a, W> {
    ghost use Rattle.std.specs.Prelude.{◌≡◌, ◌≤◌, ◌↔◌, [], length, true, false, OnOk, OnErr, IsFalse};
    ghost use Rattle.ether_output.specs.OutputBuffer.{Grows, Marks, Takes, WritesOut};

    /// Makes an empty buffer for `writer`.
    pub fn new(writer: &'a mut W) -> Self
        ensures same_writer { result.writer.ghost_name ≡ writer.entry.ghost_name }
        ensures contents { result.writer.now ≡ writer.old }
        ensures none_waits { result.waiting.items ≡ [] }
        ensures fresh { result.has_failed ≡ false }
    {
        OutputBuffer {
            writer,
            waiting: ArrayVec::new(),
            has_failed: false,
        }
    }

    /// Appends `bytes`, and calls the writer only if there is no room for them after the text that waits.
    ///
    /// The room is 65,536 bytes; longer text is written out piece by piece. A fault of the writer
    /// is remembered, and [`check`](Self::check) returns it. How much was written is then unspecified.
    #[inline(always)]
    pub fn append(&mut self, bytes: &[u8])
        ensures { Takes W.contents W.can_fail self.old bytes.now self.new }
    {
        if self.waiting.try_extend_from_slice(bytes).is_err() {
            self.append_slowly(bytes);
        }
    }

    /// Like [`append`](Self::append), but for the bytes of an array. An array that was just made is written straight
    /// into the buffer.
    #[inline(always)]
    pub fn append_array<const N: usize>(&mut self, bytes: [u8; N])
        ensures { Takes W.contents W.can_fail self.old bytes.entry self.new }
    {
        if self.waiting.try_extend_from_slice(&bytes).is_err() {
            // Only a copy is stored for a call, so that the array itself can stay in registers.
            let stored = bytes;
            self.append_slowly(&stored);
        }
    }

    /// Appends `bytes` for which there is no room until the text that waits is written out. More than 65,536 bytes are
    /// appended piece by piece.
    ///
    /// They are copied, and not passed to the writer directly, so callers need not keep in memory what they append.
    #[cold]
    #[inline(never)]
    fn append_slowly(&mut self, bytes: &[u8])
        ensures { Grows W.contents W.can_fail self.old bytes.now self.new }
    {
        let mut rest = bytes;
        while rest.len() > ROOM {
            self.append_piece(&rest[..ROOM]);
            rest = &rest[ROOM..];
        }
        self.append_piece(rest);
    }

    /// Writes out the text that waits, and appends `bytes`.
    fn append_piece(&mut self, bytes: &[u8])
        requires { length bytes.now ≤ ROOM }
        ensures { Grows W.contents W.can_fail self.old bytes.now self.new }
    {
        if self.write_out().is_err() {
            return;
        }
        if self.waiting.try_extend_from_slice(bytes).is_err() {
            unreachable!();
        }
    }

    /// Tests that the writer has not failed since the buffer was made.
    ///
    /// # Errors
    ///
    /// [`OutputFault`] if it has.
    pub fn check(&self) -> Result<(), OutputFault>
        ensures ok { OnOk result (self.now.has_failed ≡ false) }
        ensures failed { OnErr result (self.now.has_failed ≡ true) }
    {
        if self.has_failed {
            return Err(OutputFault);
        }
        Ok(())
    }

    /// The text that waits to be written out.
    pub fn waiting(&self) -> &[u8]
        ensures value { result.now ≡ self.now.waiting.items }
        ensures fits { length result.now ≤ ROOM }
    {
        self.waiting.as_slice()
    }

    /// Whether text waits to be written out.
    pub fn has_waiting(&self) -> bool
        ensures { IsFalse result ↔ (self.now.waiting.items ≡ []) }
    {
        !self.waiting.is_empty()
    }

    /// Passes all text that waits to the writer, which is not flushed.
    ///
    /// # Errors
    ///
    /// [`OutputFault`] if the writer fails, or has failed before. The text that waits is then unchanged.
    pub fn write_out(&mut self) -> Result<(), OutputFault>
        ensures same_writer { self.new.writer.ghost_name ≡ self.old.writer.ghost_name }
        ensures ok { OnOk result (WritesOut W.contents self.old self.new) }
        ensures failed { OnErr result (self.new.has_failed ≡ true) }
        ensures marks { Marks W.can_fail self.old self.new }
        ensures waiting { OnErr result (self.new.waiting.items ≡ self.old.waiting.items) }
        ensures untouched { self.old.has_failed ≡ true → self.new.writer ≡ self.old.writer }
    {
        if self.has_failed {
            return Err(OutputFault);
        }
        match self.writer.put(self.waiting.as_slice()) {
            Ok(()) => {
                self.waiting.clear();
                Ok(())
            }
            Err(fault) => Err(self.fail(fault)),
        }
    }

    /// Passes all text that waits to the writer, and flushes it.
    ///
    /// # Errors
    ///
    /// [`OutputFault`] if the writer fails, or has failed before.
    pub fn flush(&mut self) -> Result<(), OutputFault>
        ensures same_writer { self.new.writer.ghost_name ≡ self.old.writer.ghost_name }
        ensures ok { OnOk result (WritesOut W.contents self.old self.new) }
        ensures flushed { OnOk result (W.is_flushed self.new.writer.now) }
        ensures failed { OnErr result (self.new.has_failed ≡ true) }
        ensures marks { Marks W.can_fail self.old self.new }
        ensures untouched { self.old.has_failed ≡ true → self.new.writer ≡ self.old.writer }
    {
        self.write_out()?;
        match self.writer.flush_all() {
            Ok(()) => Ok(()),
            Err(fault) => Err(self.fail(fault)),
        }
    }

    /// Remembers that the writer has failed.
    fn fail(&mut self, fault: OutputFault) -> OutputFault
        ensures waiting { self.new.waiting.items ≡ self.old.waiting.items }
        ensures same_writer { self.new.writer ≡ self.old.writer }
        ensures failed { self.new.has_failed ≡ true }
    {
        self.has_failed = true;
        fault
    }
}
