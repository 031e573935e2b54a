//! Lines of counts.
ghost use Rattle.std.specs.Prelude.{◌≡◌, ◌≢◌, ◌==◌, ◌↔◌, ◌∷◌, ◌++◌, ◌<◌, ◌≤◌, ◌^◌, ℕ, [], List, length, IfNone, IfSome, IsTrue, true, false};
ghost use Rattle.std.specs.List.{All};
ghost use Rattle.ether_capture.specs.KeyCounts.{Hit};
ghost use Rattle.ether_capture.specs.Merging.{IsCountLine, IsDigit, IsNumber};
ghost use Rattle.ether_capture.specs.RowFields.{decimal_value};

use crate::count::Count;
use crate::rows::decimal_value;

/// The key and the count of a line, which has the key, its packets and its bytes with a tab between two. Returns `None`
/// if the line is not that of a count.
pub(crate) fn count_in(line: &[u8]) -> Option<(&[u8], Count)>
    ensures some { IfSome result (λ it. IsCountLine line.now (record { key = it.0.now; count = it.1 })) }
    ensures none { IfNone result ((h : Hit) → ¬ (IsCountLine line.now h)) }
{
    let (front, bytes) = last_number(line)?;
    let (key, packets) = last_number(front)?;
    Some((key, Count { packets, bytes }))
}

/// The number after the last tab, and the text before that. Returns `None` if no number is there.
fn last_number(text: &[u8]) -> Option<(&[u8], usize)>
    ensures some { IfSome result (λ it. (digits : List ℕ) × (text.now ≡ it.0.now ++ 9 ∷ digits) × IsNumber digits it.1) }
    ensures none { IfNone result
        ((front digits : List ℕ) (number : ℕ) → text.now ≡ front ++ 9 ∷ digits → ¬ (IsNumber digits number)) }
{
    let (front, digits) = split_at_last(b'\t', text)?;
    if digits.is_empty() || !are_digits(digits) {
        return None;
    }
    let number = exact_value(digits)?;
    Some((front, number))
}

/// The number that decimal digits spell. Returns `None` if 64 bits don't hold it.
fn exact_value(digits: &[u8]) -> Option<usize>
    requires { 0 < length digits.now }
    ensures some { IfSome result (λ n. (n ≡ decimal_value 0 digits.now) × (n < 2 ^ 64)) }
    ensures none { IfNone result (2 ^ 64 ≤ decimal_value 0 digits.now) }
{
    let last = digits.len() - 1;
    let front = decimal_value(&digits[..last]).checked_mul(10)?;
    front.checked_add(usize::from(digits[last].saturating_sub(48)))
}

/// The parts of a text before and after the last `byte`. Returns `None` if it has no such byte.
fn split_at_last(byte: u8, text: &[u8]) -> Option<(&[u8], &[u8])>
    ensures some { IfSome result (λ parts. (text.now ≡ parts.0.now ++ byte ∷ parts.1.now)
        × All (λ it. (it == byte) ≡ false) parts.1.now) }
    ensures none { IfNone result (All (λ it. (it == byte) ≡ false) text.now) }
{
    let mut at = text.len();
    while at > 0 {
        at -= 1;
        if text[at] == byte {
            return Some((&text[..at], &text[at + 1..]));
        }
    }
    None
}

/// Tests that all bytes are decimal digits.
fn are_digits(text: &[u8]) -> bool
    ensures { IsTrue result ↔ All IsDigit text.now }
{
    for digit in text {
        if !digit.is_ascii_digit() {
            return false;
        }
    }
    true
}
