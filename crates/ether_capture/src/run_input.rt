//! A run with memory of the heap.
ghost use Rattle.std.specs.Prelude.{◌⊎◌, [], IfErr};
ghost use Rattle.ether_text.specs.Run.{IsEndless};
ghost use Rattle.ether_stream.specs.Counting.{AreCounted, HasCounted};
ghost use Rattle.ether_stream.specs.Run.{HasNoMemory, HasRun, IfSettled, OnStreamFault};
ghost use Rattle.ether_stream.specs.Task.{task_view};
ghost use Rattle.ether_capture.specs.SeveralFiles.{Settles};

use crate::heap_memory::HeapMemory;
use crate::interface_buffer::InterfaceBuffer;
use ether_output::Sink;
use ether_stream::run::run_counted;
use ether_stream::{Buffers, NoMemory, PacketCounts, RunFault, Task};
use ether_text::{Source, Verdict};
use std::alloc::Global;
use std::num::NonZeroUsize;

/// Like [`run_counted`], with memory of the heap that is allocated first. `jobs` threads may make the lines: here it is
/// one, since the runtime has no others.
pub fn run_input<R: Source, W: Sink>(
    task: &Task<'_>,
    _jobs: Option<NonZeroUsize>,
    alloc: Global,
    reader: &mut R,
    writer: &mut W,
) -> (Result<Verdict, RunFault>, PacketCounts)
    ensures run { HasRun (task_view task.now) (R.remaining reader.old) (R.remaining reader.new)
        (W.contents writer.old) (W.contents writer.new) result.0
        ⊎ HasNoMemory (R.remaining reader.old) (R.remaining reader.new) (W.contents writer.old) (W.contents writer.new)
        result.0 }
    ensures counted { HasCounted (task_view task.now) (R.remaining reader.old) (R.remaining reader.new)
        (W.contents writer.old) (W.contents writer.new) result.0 result.1
        ⊎ (HasNoMemory (R.remaining reader.old) (R.remaining reader.new) (W.contents writer.old) (W.contents writer.new)
        result.0
        × AreCounted (task_view task.now) [] result.1) }
    ensures failed { IfErr result.0 (λ fault. OnStreamFault fault
        (R.can_fail ⊎ IsEndless (R.remaining reader.old) (R.remaining reader.new)) W.can_fail) }
    ensures flushed { IfSettled result.0 (Settles W.is_flushed writer.old writer.new) }
{
    match allocated(alloc) {
        Ok(buffers) => run_counted(task, buffers, reader, writer),
        Err(_) => (Err(RunFault::Memory), PacketCounts::none(task)),
    }
}

/// Memory for a run.
fn allocated(alloc: Global) -> Result<Buffers<HeapMemory, InterfaceBuffer>, NoMemory> {
    match InterfaceBuffer::new(alloc) {
        Ok(interfaces) => Buffers::new(HeapMemory::new(alloc), HeapMemory::new(alloc), interfaces),
        Err(_) => Err(NoMemory),
    }
}
