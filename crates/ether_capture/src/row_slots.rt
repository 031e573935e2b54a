//! Slots on the heap.
ghost use Rattle.std.specs.Prelude.{◌≡◌, [], IfOk};
ghost use Rattle.ether_capture.specs.Waiting.{waiting};

use crate::row_slot::{RowSlot, SLOTS};
use ether_stream::NoMemory;
use std::alloc::Global;

/// No slot, which takes no memory.
pub(crate) fn no_slots(alloc: Global) -> Vec<RowSlot>
    ensures { result.items ≡ [] }
{
    Vec::new(alloc)
}

/// Slots in which no row waits.
pub(crate) fn empty_slots(alloc: Global) -> Result<Vec<RowSlot>, NoMemory>
    ensures { IfOk result (λ slots. waiting slots.items ≡ []) }
{
    let mut slots = Vec::new(alloc);
    for _ in 0..SLOTS {
        if slots.push(RowSlot::new(alloc)).is_err() {
            return Err(NoMemory);
        }
    }
    Ok(slots)
}
