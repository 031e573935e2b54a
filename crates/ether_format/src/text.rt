//! Writes texts, which may hold any byte.
ghost use Rattle.std.specs.Prelude.{◌≡◌, ◌∷◌, [], if◌then◌else◌, nat_eq};
ghost use Rattle.std.specs.List.{flat_map};
ghost use Rattle.std.specs.Str.{is_utf8};
ghost use Rattle.ether_output.specs.OutputBuffer.{Takes};
ghost use Rattle.ether_format.specs.Csv.{csv_field, escaped, has_special, is_special};
ghost use Rattle.ether_format.specs.Spelling.{json_byte, json_text, row_byte, row_escaped};

use ether_output::{OutputBuffer, Sink, digit_pair};

/// Writes a text, which may hold any byte, between quotation marks as JSON has it (RFC 8259, 7). Each byte above 127 of a
/// text that is not UTF-8 becomes the replacement character of Unicode.
///
/// ```
/// let mut written = ArrayVec::<u8, 32>::new();
/// let mut out = OutputBuffer::new(&mut written);
/// write_json_text(b"a \"b\" \xFF", &mut out);
/// assert_eq!(rt; out.flush(), Ok(()));
/// assert_eq!(rt; written.as_slice(), b"\"a \\\"b\\\" \\ufffd\"".as_slice());
/// ```
#[inline(never)]
pub fn write_json_text<W: Sink>(text: &[u8], out: &mut OutputBuffer<'_, W>)
    ensures { Takes W.contents W.can_fail out.old (json_text text.now) out.new }
{
    out.append(b"\"");
    write_json_bytes(is_utf8(text), text, out);
    out.append(b"\"");
}

/// Whether a text is UTF-8.
fn is_utf8(text: &[u8]) -> bool
    ensures { result ≡ is_utf8 text.now }
{
    std::str::from_utf8(text).is_ok()
}

/// Writes the bytes of a text of JSON.
fn write_json_bytes<W: Sink>(is_utf8: bool, text: &[u8], out: &mut OutputBuffer<'_, W>)
    ensures { Takes W.contents W.can_fail out.old (flat_map (json_byte is_utf8) text.now) out.new }
{
    for byte in text {
        write_json_byte(is_utf8, *byte, out);
    }
}

/// Writes a byte of a text of JSON.
fn write_json_byte<W: Sink>(is_utf8: bool, byte: u8, out: &mut OutputBuffer<'_, W>)
    ensures { Takes W.contents W.can_fail out.old (json_byte is_utf8 byte) out.new }
{
    if byte == b'"' {
        out.append(b"\\\"");
    } else if byte == b'\\' {
        out.append(b"\\\\");
    } else if byte < 32 {
        let pair = digit_pair(byte);
        out.append_array([b'\\', b'u', b'0', b'0', pair[0], pair[1]]);
    } else if byte > 127 && !is_utf8 {
        out.append(b"\\ufffd");
    } else {
        out.append_array([byte]);
    }
}

/// Writes a text as a row has it.
#[inline(never)]
pub(crate) fn write_row_text<W: Sink>(text: &[u8], out: &mut OutputBuffer<'_, W>)
    ensures { Takes W.contents W.can_fail out.old (row_escaped text.now) out.new }
{
    for byte in text {
        write_row_byte(*byte, out);
    }
}

/// Writes a byte of a text of a row.
fn write_row_byte<W: Sink>(byte: u8, out: &mut OutputBuffer<'_, W>)
    ensures { Takes W.contents W.can_fail out.old (row_byte byte) out.new }
{
    if byte == b'\t' {
        out.append(b"\\t");
    } else if byte == b'\n' {
        out.append(b"\\n");
    } else if byte == b'\r' {
        out.append(b"\\r");
    } else if byte == b'\\' {
        out.append(b"\\\\");
    } else {
        out.append_array([byte]);
    }
}

/// Writes a text as a field of CSV: enclosed in double quotes, each of its own doubled, if it has a byte that asks for
/// that.
#[inline(never)]
pub(crate) fn write_csv_text<W: Sink>(text: &[u8], out: &mut OutputBuffer<'_, W>)
    ensures { Takes W.contents W.can_fail out.old (csv_field text.now) out.new }
{
    if has_special(text) {
        out.append(b"\"");
        write_doubled(text, out);
        out.append(b"\"");
    } else {
        out.append(text);
    }
}

/// Whether a text has a byte that asks for double quotes.
fn has_special(text: &[u8]) -> bool
    ensures { result ≡ has_special text.now }
{
    for byte in text {
        if is_special(*byte) {
            return true;
        }
    }
    false
}

/// Whether a byte asks for double quotes.
fn is_special(byte: u8) -> bool
    ensures { result ≡ is_special byte }
{
    byte == b'"' || byte == b',' || byte == b'\r' || byte == b'\n'
}

/// Writes a text with its double quotes doubled.
fn write_doubled<W: Sink>(text: &[u8], out: &mut OutputBuffer<'_, W>)
    ensures { Takes W.contents W.can_fail out.old (escaped text.now) out.new }
{
    for byte in text {
        write_csv_byte(*byte, out);
    }
}

/// Writes a byte, or two for a double quote.
fn write_csv_byte<W: Sink>(byte: u8, out: &mut OutputBuffer<'_, W>)
    ensures { Takes W.contents W.can_fail out.old (if nat_eq byte 34 then 34 ∷ 34 ∷ [] else byte ∷ []) out.new }
{
    if byte == b'"' {
        out.append(b"\"\"");
    } else {
        out.append_array([byte]);
    }
}
