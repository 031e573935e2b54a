//! Memory of the heap.
ghost use Rattle.std.specs.Prelude.{◌≡◌, []};
ghost use Rattle.std.specs.Vec.{with_items};
ghost use Rattle.std.proofs.Common.{◌∙◌, sym};
ghost use Rattle.std.proofs.lemmas.List.{with_items_is};

use ether_stream::{Grow, NoMemory};
use std::alloc::Global;

/// Memory of the heap.
#[derive(Drop)]
pub struct HeapMemory {
    bytes: Vec<u8>,
}

impl HeapMemory {
    /// Memory of 0 bytes.
    pub fn new(alloc: Global) -> HeapMemory
        ensures { result.bytes.items ≡ [] }
    {
        HeapMemory {
            bytes: Vec::new(alloc),
        }
    }
}

impl Grow for HeapMemory {
    ghost items = { λ memory. memory.bytes.items };

    ghost with_items = { λ memory bytes. record memory { bytes = with_items memory.bytes bytes } };

    ghost is_written = { λ memory bytes same. with_items_is memory.bytes bytes (same ∙ sym memory.bytes.ok.0) };

    fn bytes(&self) -> &[u8] {
        self.bytes.as_slice()
    }

    fn bytes_mut(&mut self) -> &mut [u8] {
        self.bytes.as_mut_slice()
    }

    fn grow(&mut self, len: usize) -> Result<(), NoMemory> {
        if len <= self.bytes.len() {
            return Ok(());
        }
        match self.bytes.resize(len, 0) {
            Ok(()) => Ok(()),
            Err(_) => Err(NoMemory),
        }
    }
}
