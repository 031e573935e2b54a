//! Rows of columns, whose texts are counted.
ghost use Rattle.std.specs.Prelude.{◌≡◌, ◌==◌, ◌++◌, ◌∷◌, [], ℕ, Bool, List, OnOk, false};
ghost use Rattle.std.specs.List.{All};
ghost use Rattle.ether_capture.specs.CountTable.{count_at};
ghost use Rattle.ether_capture.specs.RowFields.{decimal_value, lines_counts, lines_of};
ghost use Rattle.ether_stream.specs.Packets.{counted};
ghost use Rattle.ether_capture.specs.Statistics.{TakesStatistics};
ghost use Rattle.ether_capture.specs.Tabulating.{Tabulates, TabulatesLines};

use crate::count::Count;
use crate::count_table::CountTable;
use crate::grouping::Grouping;
use crate::heap_text::HeapText;
use crate::row_counts::{first_field, or_nothing};
use crate::row_slot::{RowSlot, count_waiting, take_row};
use crate::row_slots::{empty_slots, no_slots};
use crate::statistics_format::StatisticsFormat;
use ether_format::split_at;
use ether_output::{OutputBuffer, Sink};
use ether_stream::NoMemory;
use std::alloc::Global;

/// The counts of the lines so far, and the bytes after the last line feed. The first line names the columns.
///
/// Rows with the same texts are many, so they wait in slots, and are counted by the texts of columns together.
#[derive(Drop)]
pub struct Rows {
    alloc: Global,
    heading: HeapText,
    has_heading: bool,
    line: HeapText,
    key: HeapText,
    total: Count,
    slots: Vec<RowSlot>,
    counts: CountTable,
}

impl Rows {
    /// No line yet.
    pub fn new(alloc: Global) -> Rows
        ensures { (joint : Bool) → Tabulates joint [] result }
    {
        Rows {
            alloc,
            heading: HeapText::new(alloc),
            has_heading: false,
            line: HeapText::new(alloc),
            key: HeapText::new(alloc),
            total: Count {
                packets: 0,
                bytes: 0,
            },
            slots: no_slots(alloc),
            counts: CountTable::new(alloc),
        }
    }

    /// Takes the next bytes. Returns [`NoMemory`] if memory for them is refused.
    ///
    /// `G` says whether columns are counted together, and must always be the same.
    pub fn take<G: Grouping>(&mut self, bytes: &[u8]) -> Result<(), NoMemory>
        ensures { (text : List ℕ) → Tabulates G.is_joint text self.old
            → OnOk result (Tabulates G.is_joint (text ++ bytes.now) self.new) }
    {
        let mut rest = bytes;
        while let Some((before, after)) = split_at(b'\n', rest) {
            self.extend_line(before)?;
            self.end_line::<G>()?;
            rest = after;
        }
        self.extend_line(rest)?;
        Ok(())
    }

    /// Counts the rows that wait, and all packets under a key of their own. Returns [`NoMemory`] if memory for that is
    /// refused. No line is taken after that.
    pub fn add_total<G: Grouping>(&mut self) -> Result<(), NoMemory>
        ensures { (text : List ℕ) → Tabulates G.is_joint text self.old → OnOk result ((q : List ℕ)
            → count_at self.new.counts q ≡ lines_counts G.is_joint (lines_of text) q) }
    {
        count_waiting::<G>(
            self.slots.as_slice(),
            self.heading.as_slice(),
            &mut self.key,
            &mut self.counts,
        )?;
        self.counts.insert(b"total\t", self.total)
    }

    /// Writes a line for each text of a column, in the order of their bytes.
    pub fn write<W: Sink>(&self, format: StatisticsFormat, out: &mut OutputBuffer<'_, W>)
        ensures { TakesStatistics W.contents W.can_fail format (count_at self.now.counts) out.old out.new }
    {
        self.counts.write(format, out);
    }

    /// Takes bytes of the line.
    fn extend_line(&mut self, bytes: &[u8]) -> Result<(), NoMemory>
        ensures { (joint : Bool) (text : List ℕ) → Tabulates joint text self.old
            → All (λ it. (it == 10) ≡ false) bytes.now → OnOk result (Tabulates joint (text ++ bytes.now) self.new) }
    {
        self.line.append(bytes)?;
        Ok(())
    }

    /// Ends the line, which is the heading or a row.
    fn end_line<G: Grouping>(&mut self) -> Result<(), NoMemory>
        ensures { (text : List ℕ) → Tabulates G.is_joint text self.old
            → OnOk result (Tabulates G.is_joint (text ++ 10 ∷ []) self.new) }
    {
        self.take_line::<G>()?;
        self.line.clear();
        Ok(())
    }

    /// Takes the line as the heading if there is none yet, or counts it.
    fn take_line<G: Grouping>(&mut self) -> Result<(), NoMemory>
        ensures { (lines : List (List ℕ)) → TabulatesLines G.is_joint lines self.old
            → OnOk result (TabulatesLines G.is_joint (lines ++ self.old.line.bytes.items ∷ []) self.new) }
    {
        if !self.has_heading {
            self.slots = empty_slots(self.alloc)?;
            self.heading.append(self.line.as_slice())?;
            self.has_heading = true;
            return Ok(());
        }
        let (len, fields) = first_field(self.line.as_slice());
        let more = Count::of_packet(decimal_value(len));
        take_row::<G>(
            self.slots.as_mut_slice(),
            or_nothing(fields),
            more,
            self.heading.as_slice(),
            &mut self.key,
            &mut self.counts,
        )?;
        self.total = self.total.with(more);
        Ok(())
    }
}

/// The number that decimal digits spell, or the greatest there is.
pub(crate) fn decimal_value(digits: &[u8]) -> usize
    ensures { result ≡ counted (decimal_value 0 digits.now) }
{
    let mut value: usize = 0;
    for digit in digits {
        value = value
            .saturating_mul(10)
            .saturating_add(usize::from(digit.saturating_sub(48)));
    }
    value
}
