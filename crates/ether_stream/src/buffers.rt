//! Memory for a run.
ghost use Rattle.std.specs.Prelude.{◌≡◌, [], IfOk};
ghost use Rattle.ether_stream.specs.InputBuffer.{items};

use crate::{EditBuffer, Grow, InputBuffer, NoMemory};
use ether_pcap::InterfaceTable;

/// Memory for a run.
#[derive(Drop)]
pub struct Buffers<B: Grow, T: InterfaceTable> {
    /// For the bytes that are read.
    pub input: InputBuffer<B>,
    /// For a packet that is edited.
    pub edits: EditBuffer<B>,
    /// For the interfaces of a section.
    pub interfaces: T,
}

impl<B: Grow, T: InterfaceTable> Buffers<B, T> {
    /// Memory for a run. Returns [`NoMemory`] if one of the first two buffers can't grow to its first size.
    pub fn new(input: B, edits: B, interfaces: T) -> Result<Self, NoMemory>
        ensures empty { IfOk result (λ buffers. items buffers.input ≡ []) }
        ensures interfaces { IfOk result (λ buffers. buffers.interfaces ≡ interfaces) }
    {
        Ok(Buffers {
            input: InputBuffer::new(input)?,
            edits: EditBuffer::new(edits)?,
            interfaces,
        })
    }
}
