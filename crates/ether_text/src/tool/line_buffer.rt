//! The line that is being read.
use crate::tool::digit_table::DigitTable;
use crate::tool::parse_frame::{MAX_FRAME_LEN, MAX_LINE_DIGITS};
use arrayvec::ArrayVec;

/// What ended a line.
#[derive(Clone, Copy, PartialEq, Eq, Debug)]
pub enum LineEnd {
    /// An LF, after which another line may follow.
    LineFeed,
    /// The end of the input.
    InputEnd,
}

/// The room for a line in bytes: the digits of the longest frame, and a CR.
const ROOM: usize = MAX_LINE_DIGITS + 1;

/// The bytes of the line that is being read.
///
/// There is room for the 4,096 digits of the longest frame and a CR. A longer line is only marked as too long.
#[derive(Drop)]
pub struct LineBuffer {
    bytes: ArrayVec<u8, ROOM>,
    is_long: bool,
    digits: DigitTable,
}

impl LineBuffer {
    ghost use Rattle.std.specs.Prelude.{◌≡◌, ◌==◌, ◌≤◌, ℕ, List, [], ◌++◌, length, take, IfSome, IfNone};
    ghost use Rattle.ether_text.specs.Tool.Frame.{max_frame_len, IsFrame, IsBadLine};
    ghost use Rattle.ether_text.specs.Tool.LineBuffer.{KeepsLine, without_end};

    /// Makes a buffer for a line that has no byte yet.
    pub fn new() -> Self
        ensures { KeepsLine result [] }
    {
        LineBuffer {
            bytes: ArrayVec::new(),
            is_long: false,
            digits: DigitTable::new(),
        }
    }

    /// Begins the next line.
    pub fn clear(&mut self)
        ensures { KeepsLine self.new [] }
    {
        self.bytes.clear();
        self.is_long = false;
    }

    /// Whether the line has no byte yet.
    pub fn is_empty(&self) -> bool
        ensures { (line : List ℕ) → KeepsLine self.now line → result ≡ (length line == 0) }
    {
        !self.is_long && self.bytes.is_empty()
    }

    /// Appends a further piece of the line.
    pub fn extend(&mut self, piece: &[u8])
        ensures { (line : List ℕ) → KeepsLine self.old line
            → KeepsLine self.new (line ++ piece.now) }
    {
        if self.bytes.try_extend_from_slice(piece).is_err() {
            self.is_long = true;
        }
    }

    /// Ends the line with its last piece, writes the frame that it names to the front of `frame`, and returns the
    /// frame's length in bytes. `None` if the line is bad. The next line then begins.
    ///
    /// A line that is one piece is not copied.
    pub fn end(
        &mut self,
        piece: &[u8],
        end: LineEnd,
        frame: &mut [u8; MAX_FRAME_LEN],
    ) -> Option<usize>
        ensures within { IfSome result (λ len. len ≤ max_frame_len) }
        ensures frame { (line : List ℕ) → KeepsLine self.old line
            → IfSome result (λ len. IsFrame (without_end end (line ++ piece.now)) (take len frame.new)) }
        ensures bad { (line : List ℕ) → KeepsLine self.old line
            → IfNone result (IsBadLine (without_end end (line ++ piece.now))) }
        ensures next { (line : List ℕ) → KeepsLine self.old line → KeepsLine self.new [] }
    {
        if self.is_empty() {
            return self.digits.frame_of(without_end(piece, end), frame);
        }
        self.extend(piece);
        let len = self.frame(end, frame);
        self.clear();
        len
    }

    /// Writes the frame that the line names to the front of `frame`, and returns its length in bytes. `None` if the
    /// line is bad.
    fn frame(&self, end: LineEnd, frame: &mut [u8; MAX_FRAME_LEN]) -> Option<usize>
        ensures within { IfSome result (λ len. len ≤ max_frame_len) }
        ensures frame { (line : List ℕ) → KeepsLine self.now line
            → IfSome result (λ len. IsFrame (without_end end line) (take len frame.new)) }
        ensures bad { (line : List ℕ) → KeepsLine self.now line
            → IfNone result (IsBadLine (without_end end line)) }
    {
        if self.is_long {
            return None;
        }
        self.digits
            .frame_of(without_end(self.bytes.as_slice(), end), frame)
    }
}

ghost use Rattle.std.specs.Prelude.{◌≡◌};
ghost use Rattle.ether_text.specs.Tool.LineBuffer.{without_end as line_without_end};

/// The line without the CR that may precede its LF. Only one CR is removed, and only if an LF ended the line.
fn without_end(line: &[u8], end: LineEnd) -> &[u8]
    ensures { result.now ≡ line_without_end end line.now }
{
    match (end, line) {
        (LineEnd::LineFeed, [front @ .., b'\r']) => front,
        _ => line,
    }
}
