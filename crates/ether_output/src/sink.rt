//! What a run writes to.
ghost use Rattle.std.specs.Prelude.{ℕ, List, Option, OnOk, OnErr};
ghost use Rattle.std.specs.Io.KnownBytes.{Appends, Keeps};

use crate::OutputFault;

/// What a run writes to: any writer of `std::io`, or a type of the caller.
///
/// What is proved for every sink also holds for one that can't fail. So a function that reports a fault has seen one,
/// and a function that reports a flush has called it.
pub trait Sink {
    // The bytes that the sink holds, if they are known.
    ghost contents: { Self → Option (List ℕ) };

    // What holds if a call fails.
    ghost can_fail: { Type 0 };

    // What holds of a sink whose last call was a flush.
    ghost is_flushed: { Self → Type 0 };

    /// Writes all of `bytes`.
    ///
    /// # Errors
    ///
    /// [`OutputFault`] if the sink has not taken all of them.
    fn put(&mut self, bytes: &[u8]) -> Result<(), OutputFault>
        ensures ok { OnOk result (Appends (contents self.old) (contents self.new) bytes.now) }
        ensures failed { OnErr result can_fail };

    /// Flushes the sink.
    ///
    /// # Errors
    ///
    /// [`OutputFault`] if the sink could not be flushed.
    fn flush_all(&mut self) -> Result<(), OutputFault>
        ensures kept { Keeps (contents self.old) (contents self.new) }
        ensures flushed { OnOk result (is_flushed self.new) }
        ensures failed { OnErr result can_fail };
}
