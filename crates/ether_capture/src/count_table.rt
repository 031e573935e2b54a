//! How many packets, and how many bytes, by keys.
ghost use Rattle.std.specs.Prelude.{◌≡◌, ℕ, List, None, Some, OnOk, if◌then◌else◌};
ghost use Rattle.std.specs.Str.{bytes_eq};
ghost use Rattle.ether_capture.specs.KeyCounts.{AddsHit};
ghost use Rattle.ether_capture.specs.CountTable.{count_at};
ghost use Rattle.ether_capture.specs.Statistics.{TakesStatistics};

use crate::count::Count;
use crate::statistics_format::{StatisticsFormat, write_statistic};
use ether_output::{OutputBuffer, Sink};
use ether_stream::NoMemory;
use std::alloc::Global;
use std::collections::BTreeMap;

/// Counts by keys, which are texts.
#[derive(Drop)]
pub struct CountTable {
    alloc: Global,
    counts: BTreeMap<Vec<u8>, Count>,
}

impl CountTable {
    /// A table with no key, which takes no memory.
    pub fn new(alloc: Global) -> CountTable
        ensures { (key : List ℕ) → count_at result key ≡ None }
    {
        CountTable {
            alloc,
            counts: BTreeMap::new(alloc),
        }
    }

    /// Counts more packets under a key. Returns [`NoMemory`] if memory for the key is refused.
    pub fn add(&mut self, key: &[u8], more: Count) -> Result<(), NoMemory>
        ensures { OnOk result (AddsHit (record { key = key.now; count = more }) (count_at self.old)
            (count_at self.new)) }
    {
        match self.counts.get_mut(key) {
            Some(count) => {
                *count = count.with(more);
                Ok(())
            }
            None => self.insert(key, more),
        }
    }

    /// Sets the count under a key.
    pub(crate) fn insert(&mut self, key: &[u8], count: Count) -> Result<(), NoMemory>
        ensures { OnOk result ((q : List ℕ) → count_at self.new q
            ≡ (if bytes_eq key.now q then Some count else count_at self.old q)) }
    {
        let Ok(key) = Vec::from_slice(self.alloc, key) else {
            return Err(NoMemory);
        };
        match self.counts.insert(key, count) {
            Ok(_) => Ok(()),
            Err(_) => Err(NoMemory),
        }
    }

    /// Writes a line for each key, in the order of their bytes.
    pub fn write<W: Sink>(&self, format: StatisticsFormat, out: &mut OutputBuffer<'_, W>)
        ensures { TakesStatistics W.contents W.can_fail format (count_at self.now) out.old out.new }
    {
        for (key, count) in self.counts.iter() {
            write_statistic(format, key.as_slice(), *count, out);
        }
    }
}
