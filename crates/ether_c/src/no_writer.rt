//! A writer that takes nothing.
use ether_output::{OutputFault, Sink};

/// Takes nothing. A buffer in front of it has failed if it had no room for a text.
#[derive(Drop)]
pub(crate) struct NoWriter;

impl Sink for NoWriter {
    ghost use Rattle.std.specs.Prelude.{Some, [], ⊤};

    ghost contents = { λ _. Some [] };

    ghost can_fail = { ⊤ };

    ghost is_flushed = { λ _. ⊤ };

    fn put(&mut self, _bytes: &[u8]) -> Result<(), OutputFault> {
        Err(OutputFault)
    }

    fn flush_all(&mut self) -> Result<(), OutputFault> {
        Err(OutputFault)
    }
}
