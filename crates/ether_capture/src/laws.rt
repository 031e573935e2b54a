//! The laws on counts, and a journal that is known. Neither is part of the program.
ghost use Rattle.std.specs.Prelude.{◌≡◌, true};
ghost use Rattle.ether_capture.specs.Options.{RequestValue};
ghost use Rattle.ether_capture.specs.Program.{HasCountedTexts, is_unwritten};
ghost use Rattle.ether_capture.specs.World.{Streams, keeps, names, reads, world};
ghost use Rattle.ether_capture.specs.Statistics.{StatisticsAreOne};
ghost use Rattle.ether_capture.specs.Merging.{CountsAddUp};
ghost use Rattle.ether_capture.specs.declared.statistics_format.Counting.{Counting};
ghost use Rattle.ether_stream.specs.declared.outcome.Outcome.{Outcome};

use crate::captures::Captures;
use crate::journal::Journal;
use arrayvec::ArrayVec;
use ether_files::Copies;
use ether_output::Sink;
use ether_stream::LineSink;
use ether_text::Source;

/// The rows of a text have one text of counts, and no second one.
pub fn statistics_are_one()
    ensures { StatisticsAreOne }
{}

/// The counts of the rows of two texts, added up, are those of all rows.
pub fn counts_add_up()
    ensures { CountsAddUp }
{}

/// If counts are asked for, the outcome says that the writer has failed only if that can fail.
pub fn counts_are_written<J: Journal, C: Captures, K: Copies, R: Source, W: Sink, M: LineSink>(
    _captures: &C,
    _copies: &K,
)
    ensures { (counting : Counting) (request : RequestValue) (before after : Streams) (outcome : Outcome) →
        HasCountedTexts (world (reads (names (C.has _captures.now) C.can_refuse C.Input.Source.can_fail) R.can_fail
        W.can_fail) (keeps K.can_refuse K.Part.Sink.can_fail (K.keeps_input _copies.now)) M.Sink.can_fail J.is_known)
        counting request before after outcome → is_unwritten outcome ≡ true → W.can_fail }
{}

/// A journal that keeps all rows, as far as it has room. So what is proved of journals that are known holds for one.
impl<const N: usize> Journal for ArrayVec<u8, N> {
    ghost is_known = { true };

    fn start() -> Self {
        ArrayVec::new()
    }
}
