//! A text on the heap.
ghost use Rattle.std.specs.Prelude.{◌≡◌, ◌++◌, [], OnOk};

use ether_stream::NoMemory;
use std::alloc::Global;

/// A text on the heap.
#[derive(Drop)]
pub struct HeapText {
    bytes: Vec<u8>,
}

impl HeapText {
    /// A text with nothing in it, which takes no memory.
    pub fn new(alloc: Global) -> HeapText
        ensures { result.bytes.items ≡ [] }
    {
        HeapText {
            bytes: Vec::new(alloc),
        }
    }

    /// The text.
    pub fn as_slice(&self) -> &[u8]
        ensures { result.now ≡ self.now.bytes.items }
    {
        self.bytes.as_slice()
    }

    /// Empties the text, and keeps its memory.
    pub fn clear(&mut self)
        ensures { self.new.bytes.items ≡ [] }
    {
        self.bytes.clear();
    }

    /// Appends bytes.
    pub fn append(&mut self, bytes: &[u8]) -> Result<(), NoMemory>
        ensures { OnOk result (self.new.bytes.items ≡ self.old.bytes.items ++ bytes.now) }
    {
        match self.bytes.extend_from_slice(bytes) {
            Ok(()) => Ok(()),
            Err(_) => Err(NoMemory),
        }
    }
}
