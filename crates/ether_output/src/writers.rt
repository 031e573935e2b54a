//! Writers of `std::io` as sinks.
ghost use Rattle.std.specs.Prelude.{⊤};

use crate::{OutputFault, Sink};
use std::io::Write;

impl<W: Write> Sink for W {
    ghost contents = { λ w. W.Write.contents w };

    ghost can_fail = { ⊤ };

    ghost is_flushed = { λ _. ⊤ };

    fn put(&mut self, bytes: &[u8]) -> Result<(), OutputFault> {
        match self.write_all(bytes) {
            Ok(()) => Ok(()),
            Err(_) => Err(OutputFault),
        }
    }

    fn flush_all(&mut self) -> Result<(), OutputFault> {
        match self.flush() {
            Ok(()) => Ok(()),
            Err(_) => Err(OutputFault),
        }
    }
}
