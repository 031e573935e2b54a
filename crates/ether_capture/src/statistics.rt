//! Counts the texts of rows.
ghost use Rattle.std.specs.Prelude.{◌≡◌, ◌⊎◌, ⊤, false, IfErr, OnOk};
ghost use Rattle.ether_capture.specs.HeldRows.{HoldsRows, HoldsRows-prop};
ghost use Rattle.ether_capture.specs.Journal.{known_if};
ghost use Rattle.ether_capture.specs.Statistics.{Shows};
ghost use Rattle.ether_stream.specs.declared.outcome.RunFault.TheVariants.{Memory, Output};

use crate::grouping::Grouping;
use crate::journal::Journal;
use crate::rows::Rows;
use crate::statistics_format::StatisticsFormat;
use ether_output::{OutputBuffer, OutputFault, Sink};
use ether_stream::RunFault;
use std::alloc::Global;
use std::marker::PhantomData;

/// A sink of rows, whose texts are counted: by themselves, or those of all columns together.
#[derive(Drop)]
pub struct Statistics<J: Journal, G: Grouping> {
    journal: J,
    grouping: PhantomData<G>,
    rows: Rows,
    has_failed: bool,
    ghost kept: { HoldsRows G.is_joint J.is_known has_failed (J.Sink.contents journal) rows } by { HoldsRows-prop G.is_joint J.is_known has_failed (J.Sink.contents journal) rows },
}

impl<J: Journal, G: Grouping> Statistics<J, G> {
    /// No row is counted yet.
    pub fn new(alloc: Global) -> Self
        ensures { J.Sink.contents result.journal ≡ known_if J.is_known }
    {
        Statistics {
            journal: J::start(),
            grouping: PhantomData,
            rows: Rows::new(alloc),
            has_failed: false,
        }
    }

    /// Tests that a row could not be counted, since memory was refused.
    pub fn has_failed(&self) -> bool
        ensures { result ≡ self.now.has_failed }
    {
        self.has_failed
    }

    /// Writes a line for all packets, and for each text of a column, in the order of their bytes. No row can be counted
    /// after that.
    pub fn write<W: Sink>(
        &mut self,
        format: StatisticsFormat,
        writer: &mut W,
    ) -> Result<(), RunFault>
        ensures written { OnOk result (self.old.has_failed ≡ false
            → Shows J.is_known G.is_joint (J.Sink.contents self.old.journal) format (W.contents writer.old)
            (W.contents writer.new)) }
        ensures flushed { OnOk result (W.is_flushed writer.new) }
        ensures failed { IfErr result (λ fault. ((fault ≡ Memory) × (writer.new ≡ writer.old))
            ⊎ ((fault ≡ Output) × W.can_fail)) }
    {
        self.has_failed = true;
        self.rows.add_total::<G>()?;
        let mut out = OutputBuffer::new(writer);
        self.rows.write(format, &mut out);
        out.flush()?;
        Ok(())
    }
}

impl<J: Journal, G: Grouping> Sink for Statistics<J, G> {
    ghost contents = { λ counted. J.Sink.contents counted.journal };

    ghost can_fail = { ⊤ };

    ghost is_flushed = { λ _. ⊤ };

    fn put(&mut self, bytes: &[u8]) -> Result<(), OutputFault> {
        if self.has_failed {
            return Err(OutputFault);
        }
        self.has_failed = true;
        self.journal.put(bytes)?;
        let Ok(()) = self.rows.take::<G>(bytes) else {
            return Err(OutputFault);
        };
        self.has_failed = false;
        Ok(())
    }

    fn flush_all(&mut self) -> Result<(), OutputFault> {
        Ok(())
    }
}
