//! What lines between captures are written to.
ghost use Rattle.std.specs.Prelude.{◌++◌, codes, OnOk, OnErr};
ghost use Rattle.std.specs.Io.KnownBytes.{Appends};
ghost use Rattle.ether_stream.specs.Outcome.{last_line_text};

use crate::LastLine;
use ether_output::{OutputFault, Sink};
use std::io::Write;

/// What lines are written to between runs: any [`Write`].
///
/// What is proved for every sink holds for one that can't fail, too. So a call that reports a fault of the sink has
/// seen one.
pub trait LineSink: Sink {
    /// Writes a line, and flushes the sink.
    fn put_line(&mut self, line: &LastLine<'_>) -> Result<(), OutputFault>
        ensures ok { OnOk result (Appends (Self.Sink.contents self.old) (Self.Sink.contents self.new)
            (last_line_text line.now ++ codes "\n")) }
        ensures flushed { OnOk result (Self.Sink.is_flushed self.new) }
        ensures failed { OnErr result Self.Sink.can_fail };
}

impl<W: Write> LineSink for W {
    fn put_line(&mut self, line: &LastLine<'_>) -> Result<(), OutputFault> {
        match writeln!(self, "{line}") {
            Ok(()) => self.flush_all(),
            Err(_) => Err(OutputFault),
        }
    }
}
