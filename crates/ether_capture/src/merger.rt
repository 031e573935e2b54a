//! Adds up counts that were printed.
ghost use Rattle.std.specs.Prelude.{◌≡◌, ◌∷◌, ◌++◌, ℕ, [], List, IfErr, OnOk};
ghost use Rattle.ether_capture.specs.CountTable.{count_at};
ghost use Rattle.ether_capture.specs.Merges.{Merges, IsCut, RefusesIn};
ghost use Rattle.ether_capture.specs.RowFields.{last_piece};
ghost use Rattle.ether_capture.specs.Statistics.{TakesStatistics};

use crate::count_line::count_in;
use crate::count_table::CountTable;
use crate::heap_text::HeapText;
use crate::statistics_format::StatisticsFormat;
use ether_format::split_at;
use ether_output::{OutputBuffer, Sink};
use ether_stream::NoMemory;
use ether_text::InputFault;
use std::alloc::Global;

/// Why counts were not added up.
#[derive(Clone, Copy, PartialEq, Eq, Debug)]
pub enum MergeFault {
    /// The line of this number, counted from 1, is not that of a count, or does not end.
    Line(usize),
    /// The reader failed, or did not end.
    Input,
    /// Memory for a line or a key was refused.
    Memory,
}

impl From<NoMemory> for MergeFault {
    ghost use Rattle.ether_capture.specs.declared.merger.MergeFault.TheVariants.{Memory};

    ghost from_gives = { λ _ fault. fault ≡ Memory };

    fn from(_fault: NoMemory) -> MergeFault {
        MergeFault::Memory
    }
}

impl From<InputFault> for MergeFault {
    ghost use Rattle.ether_capture.specs.declared.merger.MergeFault.TheVariants.{Input};

    ghost from_gives = { λ _ fault. fault ≡ Input };

    fn from(_fault: InputFault) -> MergeFault {
        MergeFault::Input
    }
}

/// The sums of the counts so far, and the bytes after the last line feed.
#[derive(Drop)]
pub struct Merger {
    line: HeapText,
    /// How many lines were taken.
    lines: usize,
    counts: CountTable,
}

impl Merger {
    /// No line yet.
    pub fn new(alloc: Global) -> Merger
        ensures { Merges [] result }
    {
        Merger {
            line: HeapText::new(alloc),
            lines: 0,
            counts: CountTable::new(alloc),
        }
    }

    /// Takes the next bytes. Returns [`MergeFault::Line`] at the first line that is not that of a count.
    pub fn take(&mut self, bytes: &[u8]) -> Result<(), MergeFault>
        ensures taken { (text : List ℕ) → Merges text self.old → OnOk result (Merges (text ++ bytes.now) self.new) }
        ensures refused { (text : List ℕ) → Merges text self.old → IfErr result (RefusesIn (text ++ bytes.now)) }
    {
        let mut rest = bytes;
        while let Some((before, after)) = split_at(b'\n', rest) {
            self.line.append(before)?;
            self.end_line()?;
            rest = after;
        }
        self.line.append(rest)?;
        Ok(())
    }

    /// Ends the line, and adds its count.
    fn end_line(&mut self) -> Result<(), MergeFault>
        ensures taken { (text : List ℕ) → Merges text self.old → OnOk result (Merges (text ++ 10 ∷ []) self.new) }
        ensures refused { (text : List ℕ) → Merges text self.old → IfErr result (RefusesIn (text ++ 10 ∷ [])) }
    {
        let number = self.lines.saturating_add(1);
        let Some((key, count)) = count_in(self.line.as_slice()) else {
            return Err(MergeFault::Line(number));
        };
        self.counts.add(key, count)?;
        self.lines = number;
        self.line.clear();
        Ok(())
    }

    /// Ends the text. Returns [`MergeFault::Line`] if its last line does not end.
    pub fn finish(&self) -> Result<(), MergeFault>
        ensures whole { (text : List ℕ) → Merges text self.now → OnOk result (last_piece 10 [] text ≡ []) }
        ensures cut { (text : List ℕ) → Merges text self.now → IfErr result (IsCut text) }
    {
        if self.line.as_slice().is_empty() {
            return Ok(());
        }
        Err(MergeFault::Line(self.lines.saturating_add(1)))
    }

    /// Writes a line for each key, in the order of their bytes.
    pub fn write<W: Sink>(&self, format: StatisticsFormat, out: &mut OutputBuffer<'_, W>)
        ensures { TakesStatistics W.contents W.can_fail format (count_at self.now.counts) out.old out.new }
    {
        self.counts.write(format, out);
    }
}
