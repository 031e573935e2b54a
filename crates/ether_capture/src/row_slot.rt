//! Rows with the same texts, which wait to be counted by the texts of columns.
ghost use Rattle.std.specs.Prelude.{◌≡◌, ◌<◌, [], OnOk, length};
ghost use Rattle.ether_capture.specs.CountTable.{count_at};
ghost use Rattle.ether_capture.specs.Waiting.{Adds, GrowsBy, slot_hits, spread, spreads, waiting};

use crate::count::Count;
use crate::count_table::CountTable;
use crate::grouping::Grouping;
use crate::heap_text::HeapText;
use crate::row_counts::count_texts;
use ether_stream::NoMemory;
use std::alloc::Global;

/// How many slots there are.
pub(crate) const SLOTS: usize = 256;

/// Rows with the same texts, which are counted by the texts of columns once others come, or at the end.
#[derive(Drop)]
pub(crate) struct RowSlot {
    texts: HeapText,
    count: Option<Count>,
}

impl RowSlot {
    /// No row waits.
    pub(crate) fn new(alloc: Global) -> RowSlot
        ensures { slot_hits result ≡ [] }
    {
        RowSlot {
            texts: HeapText::new(alloc),
            count: None,
        }
    }

    /// Takes packets with these texts. Those with other texts that wait are counted first.
    fn take<G: Grouping>(
        &mut self,
        texts: &[u8],
        more: Count,
        heading: &[u8],
        key: &mut HeapText,
        counts: &mut CountTable,
    ) -> Result<(), NoMemory>
        ensures { OnOk result (GrowsBy G.is_joint heading.now (record { key = texts.now; count = more })
            (count_at counts.old) (count_at counts.new) (slot_hits self.old) (slot_hits self.new)) }
    {
        if let Some(count) = self.count {
            if self.texts.as_slice() == texts {
                self.count = Some(count.with(more));
                return Ok(());
            }
        }
        self.count::<G>(heading, key, counts)?;
        self.texts.clear();
        self.texts.append(texts)?;
        self.count = Some(more);
        Ok(())
    }

    /// Counts the packets that wait.
    fn count<G: Grouping>(
        &self,
        heading: &[u8],
        key: &mut HeapText,
        counts: &mut CountTable,
    ) -> Result<(), NoMemory>
        ensures { OnOk result (Adds (spreads G.is_joint heading.now (slot_hits self.now)) (count_at counts.old)
            (count_at counts.new)) }
    {
        match self.count {
            Some(count) => count_texts::<G>(heading, self.texts.as_slice(), count, key, counts),
            None => Ok(()),
        }
    }
}

/// Takes packets with these texts into the slot for them.
pub(crate) fn take_row<G: Grouping>(
    slots: &mut [RowSlot],
    texts: &[u8],
    more: Count,
    heading: &[u8],
    key: &mut HeapText,
    counts: &mut CountTable,
) -> Result<(), NoMemory>
    ensures counts { OnOk result (GrowsBy G.is_joint heading.now (record { key = texts.now; count = more })
        (count_at counts.old) (count_at counts.new) (waiting slots.old) (waiting slots.new)) }
    ensures len { length slots.new ≡ length slots.old }
{
    let at = slot_of(texts);
    if at >= slots.len() {
        return count_texts::<G>(heading, texts, more, key, counts);
    }
    slots[at].take::<G>(texts, more, heading, key, counts)
}

/// Counts all packets that wait.
pub(crate) fn count_waiting<G: Grouping>(
    slots: &[RowSlot],
    heading: &[u8],
    key: &mut HeapText,
    counts: &mut CountTable,
) -> Result<(), NoMemory>
    ensures { OnOk result (Adds (spreads G.is_joint heading.now (waiting slots.now)) (count_at counts.old)
        (count_at counts.new)) }
{
    for slot in slots {
        slot.count::<G>(heading, key, counts)?;
    }
    Ok(())
}

/// The slot for texts: any, as long as it depends on them alone.
fn slot_of(texts: &[u8]) -> usize
    ensures { result < 256 }
{
    let mut hash: usize = 0;
    for byte in texts {
        hash = hash.wrapping_mul(31).wrapping_add(usize::from(*byte));
    }
    (hash ^ hash >> 7) % SLOTS
}
