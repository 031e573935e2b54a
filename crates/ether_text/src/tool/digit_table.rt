//! Hexadecimal digits by a table that the crate `hex` fills once.
ghost use Rattle.std.specs.Prelude.{◌≡◌, ℕ, ◌*◌, ◌+◌, ◌<◌, ◌≤◌, ◌↔◌, List, length, take, slice_index, is_some, true, IsTrue, IfSome, IsNone};
ghost use Rattle.hex.specs.Hex.{hex_digit_value};
ghost use Rattle.ether_text.specs.Tool.Frame.{max_frame_len, NameByte, IsFrame, IsBadLine};
ghost use Rattle.ether_text.specs.Tool.DigitTable.{entry_of, AreEntries};

use crate::tool::parse_frame::{MAX_FRAME_LEN, MAX_LINE_DIGITS};
use std::marker::Model;

/// The entry of a character that is not a digit.
const NO_DIGIT: u8 = 0x80;

/// The value of each character as a hexadecimal digit.
///
/// A line is decoded without a branch for each digit: the entries of all its characters are joined by a bitwise or, in
/// which the mark of a character that is not a digit remains.
#[derive(Drop)]
pub struct DigitTable {
    entries: [u8; 256],
}

impl Model for DigitTable {
    ghost Value = { List ℕ };

    ghost view = { λ t. t.entries };

    ghost invariant = { λ t. AreEntries t.entries };
}

impl DigitTable {
    /// Makes the table, by calls of the crate `hex`.
    pub fn new() -> Self
        ensures { AreEntries result }
    {
        let mut entries = [NO_DIGIT; 256];
        for (character, value) in entries.iter_mut().enumerate() {
            *value = entry(character as u8);
        }
        DigitTable { entries }
    }

    /// Like [`frame_of`](crate::tool::parse_frame::frame_of), but by this table.
    pub fn frame_of(&self, line: &[u8], out: &mut [u8; MAX_FRAME_LEN]) -> Option<usize>
        ensures within { IfSome result (λ count. count ≤ max_frame_len) }
        ensures frame { IfSome result (λ count. IsFrame line.now (take count out.new)) }
        ensures bad { IsNone result ↔ IsBadLine line.now }
    {
        if line.len() > MAX_LINE_DIGITS || line.len() % 2 != 0 {
            return None;
        }
        let count = line.len() / 2;
        if !self.decode(line, &mut out[..count]) {
            return None;
        }
        Some(count)
    }

    /// Reads a pair of digits for each byte of `out`. Returns whether all characters are digits.
    #[inline(always)]
    fn decode(&self, line: &[u8], out: &mut [u8]) -> bool
        requires { length line.now ≡ 2 * length out.now }
        ensures digits { IsTrue result
            ↔ ((i : ℕ) → i < length line.now → is_some (hex_digit_value (slice_index line.now i)) ≡ true) }
        ensures bytes { IsTrue result → (i : ℕ) → i < length out.new
            → NameByte (slice_index line.now (2 * i)) (slice_index line.now (2 * i + 1)) (slice_index out.new i) }
    {
        let mut marks = 0;
        let mut rest = line;
        for byte in out.iter_mut() {
            let (pair, after) = rest.split_at(2);
            let high = self.entries[usize::from(pair[0])];
            let low = self.entries[usize::from(pair[1])];
            marks |= high | low;
            *byte = high.wrapping_mul(16).wrapping_add(low);
            rest = after;
        }
        marks < NO_DIGIT
    }
}

/// The entry of a character: its value after a zero, if it is a digit.
fn entry(character: u8) -> u8
    ensures { result ≡ entry_of character }
{
    let mut value = [0];
    match hex::decode_to_slice([b'0', character].as_slice(), &mut value) {
        Ok(()) => value[0],
        Err(_) => NO_DIGIT,
    }
}
