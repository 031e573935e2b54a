//! The state of a run between two reads: the line that is being read, and the results of the lines before it.
use crate::tool::command::Command;
use crate::tool::line_buffer::{LineBuffer, LineEnd};
use crate::tool::outcome::{ToolFault, Verdict};
use crate::tool::parse_frame::MAX_FRAME_LEN;
use crate::tool::write_answer::write_answer;
use ether_output::{OutputBuffer, Sink};

/// The line that is being read, and the results of the lines before it.
#[derive(Drop)]
pub struct LineLoop {
    line: LineBuffer,
    count: u64,
    verdict: Verdict,
}

impl LineLoop {
    ghost use Rattle.std.specs.Prelude.{◌≡◌, ◌++◌, ℕ, List, [], Option, IfOk, IfErr, OnOk, true};
    ghost use Rattle.ether_output.specs.OutputBuffer.{Marks};
    ghost use Rattle.ether_text.specs.Tool.Run.{OnBadLine, OnStreamFault};
    ghost use Rattle.ether_text.specs.Tool.LineBuffer.{KeepsLine, without_end};
    ghost use Rattle.ether_text.specs.Tool.LineLoop.{Advances, Finishes, IsStart, JudgesLine, RefusesLine, StopsWithin};

    /// Makes the state of a run that has read nothing.
    pub fn new() -> Self
        ensures { IsStart result }
    {
        LineLoop {
            line: LineBuffer::new(),
            count: 0,
            verdict: Verdict::AllAccepted,
        }
    }

    /// Writes the text for the line that ends with this piece, and begins the next line. `frame` is room for the
    /// line's frame. The error is `ToolFault::BadLine` for a bad line, and `ToolFault::Output` if the writer has
    /// failed.
    fn judge<W: Sink>(
        &mut self,
        command: Command,
        piece: &[u8],
        end: LineEnd,
        frame: &mut [u8; MAX_FRAME_LEN],
        out: &mut OutputBuffer<'_, W>,
    ) -> Result<(), ToolFault>
        ensures same_writer { out.new.writer.ghost_name ≡ out.old.writer.ghost_name }
        ensures ok { OnOk result ((line : List ℕ) → KeepsLine self.old.line line
            → JudgesLine command W.contents (without_end end (line ++ piece.now)) self.old out.old self.new out.new) }
        ensures bad { IfErr result
            (λ fault. OnBadLine fault (RefusesLine piece.now end self.old out.old out.new)) }
        ensures failed { IfErr result (λ fault. OnStreamFault fault ⊥ (out.new.has_failed ≡ true)) }
        ensures marks { Marks W.can_fail out.old out.new }
    {
        let number = self.count.saturating_add(1);
        let Some(len) = self.line.end(piece, end, frame) else {
            return Err(ToolFault::BadLine(number));
        };
        let accepted = write_answer(command, &frame[..len], out);
        out.check()?;
        self.verdict = self.verdict.with(accepted);
        self.count = number;
        Ok(())
    }

    /// Takes the next bytes of the input, and writes the text for each line that ends in them, up to a bad one.
    pub fn take_chunk<W: Sink>(
        &mut self,
        command: Command,
        chunk: &[u8],
        out: &mut OutputBuffer<'_, W>,
    ) -> Result<(), ToolFault>
        ensures same_writer { out.new.writer.ghost_name ≡ out.old.writer.ghost_name }
        ensures ok { OnOk result (Advances command W.contents
            self.old out.old chunk.now self.new out.new) }
        ensures bad { IfErr result (λ fault. OnBadLine fault (λ number. (later : List ℕ)
            → StopsWithin command W.contents self.old out.old chunk.now later out.new number)) }
        ensures failed { IfErr result (λ fault. OnStreamFault fault ⊥ (out.new.has_failed ≡ true)) }
        ensures marks { Marks W.can_fail out.old out.new }
    {
        let mut frame = [0; MAX_FRAME_LEN];
        let mut rest = chunk;
        while let Some((piece, after)) = split_line(rest) {
            self.judge(command, piece, LineEnd::LineFeed, &mut frame, out)?;
            rest = after;
        }
        self.line.extend(rest);
        Ok(())
    }

    /// Writes the text for the last line if no LF ended it, and returns the verdict.
    pub fn finish<W: Sink>(
        mut self,
        command: Command,
        out: &mut OutputBuffer<'_, W>,
    ) -> Result<Verdict, ToolFault>
        ensures same_writer { out.new.writer.ghost_name ≡ out.old.writer.ghost_name }
        ensures ok { IfOk result (Finishes command W.contents self out.old out.new) }
        ensures bad { IfErr result (λ fault. OnBadLine fault
            (StopsWithin command W.contents self out.old [] [] out.new)) }
        ensures failed { IfErr result (λ fault. OnStreamFault fault ⊥ (out.new.has_failed ≡ true)) }
        ensures marks { Marks W.can_fail out.old out.new }
    {
        if !self.line.is_empty() {
            let mut frame = [0; MAX_FRAME_LEN];
            self.judge(command, &[], LineEnd::InputEnd, &mut frame, out)?;
        }
        Ok(self.verdict)
    }
}

ghost use Rattle.std.specs.Prelude.{◌≤◌, length, take, IfSome, IfNone};
ghost use Rattle.ether_text.specs.Tool.LineLoop.{SplitsAtLineFeed};
ghost use Rattle.std.specs.Prelude.{◌≡◌, ◌==◌};
ghost use Rattle.std.specs.List.{list_any};
ghost use Rattle.ether_text.specs.Tool.Run.{HasNoLineFeed};

/// The bytes before the first LF, and those after it. `None` if there is no LF.
fn split_line(bytes: &[u8]) -> Option<(&[u8], &[u8])>
    ensures some { IfSome result (λ parts. SplitsAtLineFeed bytes.now parts.0.now parts.1.now) }
    ensures none { IfNone result (HasNoLineFeed bytes.now) }
{
    let skipped = blocks_len(bytes);
    match split_near(&bytes[skipped..]) {
        Some((piece, after)) => Some((&bytes[..skipped + piece.len()], after)),
        None => None,
    }
}

/// The number of bytes that [`blocks_len`] tests at once.
const BLOCK_LEN: usize = 32;

/// The number of bytes in the blocks of 32 before the first block that has an LF. A last block that is shorter is not
/// counted.
fn blocks_len(bytes: &[u8]) -> usize
    ensures within { result ≤ length bytes.now }
    ensures none { HasNoLineFeed (take result bytes.now) }
{
    let mut len = 0;
    while bytes.len() - len >= BLOCK_LEN {
        if has_line_feed(&bytes[len..len + BLOCK_LEN]) {
            return len;
        }
        len += BLOCK_LEN;
    }
    len
}

/// Whether one of the bytes is an LF. All bytes are tested, so that a processor can test many at once.
fn has_line_feed(bytes: &[u8]) -> bool
    ensures { result ≡ list_any (λ byte. byte == 10) bytes.now }
{
    let mut found = false;
    for byte in bytes {
        found |= *byte == b'\n';
    }
    found
}

/// Like [`split_line`], but byte by byte.
fn split_near(bytes: &[u8]) -> Option<(&[u8], &[u8])>
    ensures some { IfSome result (λ parts. SplitsAtLineFeed bytes.now parts.0.now parts.1.now) }
    ensures none { IfNone result (HasNoLineFeed bytes.now) }
{
    match bytes.iter().position(|byte| *byte == b'\n') {
        Some(end) => Some((&bytes[..end], &bytes[end + 1..])),
        None => None,
    }
}
