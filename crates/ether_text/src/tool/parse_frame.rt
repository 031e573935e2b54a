//! Parses a line of hexadecimal digits into the frame that it names.
ghost use Rattle.std.specs.Prelude.{◌≤◌, ◌↔◌, take, IfSome, IsNone};
ghost use Rattle.ether_text.specs.Tool.Frame.{max_frame_len, IsFrame, IsBadLine};

/// The number of bytes of the longest frame that a line can name.
pub const MAX_FRAME_LEN: usize = 2048;

/// The number of digits of the longest line: two for each byte of a frame.
pub const MAX_LINE_DIGITS: usize = 2 * MAX_FRAME_LEN;

/// Reads the frame that `line` names to the front of `out`, and returns its length in bytes.
///
/// `line` has no line ending, and consists of pairs of hexadecimal digits of either case. `None` if it has more than
/// 4,096 digits, an odd number of them, or a character that is not a digit. Nothing is claimed of `out` then.
pub fn frame_of(line: &[u8], out: &mut [u8; MAX_FRAME_LEN]) -> Option<usize>
    ensures within { IfSome result (λ count. count ≤ max_frame_len) }
    ensures frame { IfSome result (λ count. IsFrame line.now (take count out.new)) }
    ensures bad { IsNone result ↔ IsBadLine line.now }
{
    if line.len() > MAX_LINE_DIGITS {
        return None;
    }
    let count = line.len() / 2;
    match hex::decode_to_slice(line, &mut out[..count]) {
        Ok(()) => Some(count),
        Err(_) => None,
    }
}
