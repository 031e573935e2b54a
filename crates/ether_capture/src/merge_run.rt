//! Adds up the counts that standard input has.
ghost use Rattle.std.specs.Prelude.{IfErr, OnOk, []};
ghost use Rattle.ether_capture.specs.Merges.{Merges, StopsMerging, ReadsAll};
ghost use Rattle.ether_capture.specs.Merging.{HasMerged};
ghost use Rattle.ether_capture.specs.Program.{IfGone};
ghost use Rattle.ether_capture.specs.SeveralFiles.{Settles};

use crate::merger::{MergeFault, Merger};
use crate::statistics_format::StatisticsFormat;
use ether_output::{OutputBuffer, Sink};
use ether_stream::{Outcome, RunFault};
use ether_text::{Source, Verdict};
use std::alloc::Global;

/// Adds up counts that were printed, and writes their sums once all are read.
pub fn merge_counts<'a, R: Source, W: Sink>(
    format: StatisticsFormat,
    alloc: Global,
    reader: &mut R,
    writer: &mut W,
) -> Outcome<'a>
    ensures merged { HasMerged R.can_fail W.can_fail format (R.remaining reader.old) (R.remaining reader.new)
        (W.contents writer.old) (W.contents writer.new) result }
    ensures flushed { IfGone result (Settles W.is_flushed writer.old writer.new) }
{
    let mut counts = Merger::new(alloc);
    match read_counts(&mut counts, reader) {
        Ok(()) => {}
        Err(MergeFault::Line(number)) => return Outcome::NotCounts(number),
        Err(MergeFault::Input) => return Outcome::Run(Err(RunFault::Input)),
        Err(MergeFault::Memory) => return Outcome::NoMemory,
    }
    let mut out = OutputBuffer::new(writer);
    counts.write(format, &mut out);
    match out.flush() {
        Ok(()) => Outcome::Run(Ok(Verdict::AllAccepted)),
        Err(_) => Outcome::Run(Err(RunFault::Output)),
    }
}

/// Reads all lines, and adds up their counts.
fn read_counts<R: Source>(counts: &mut Merger, reader: &mut R) -> Result<(), MergeFault>
    requires { Merges [] counts.old }
    ensures ok { OnOk result (ReadsAll (R.remaining reader.old) (R.remaining reader.new) counts.new) }
    ensures err { IfErr result (StopsMerging R.can_fail (R.remaining reader.old) (R.remaining reader.new)) }
{
    let mut chunk = [0; 16_384];
    for _ in 0..u64::MAX {
        let len = reader.read_some(&mut chunk)?;
        if len == 0 {
            return counts.finish();
        }
        counts.take(&chunk[..len])?;
    }
    Err(MergeFault::Input)
}
