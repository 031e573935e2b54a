//! Writes the key of a count as members of an object of JSON (RFC 8259).
ghost use Rattle.std.specs.Prelude.{◌≡◌, ◌<◌, length, take, drop};
ghost use Rattle.std.specs.Option.{option_map};
ghost use Rattle.ether_output.specs.OutputBuffer.{Takes};
ghost use Rattle.ether_format.specs.Values.{comma_if};
ghost use Rattle.ether_capture.specs.RowFields.{fields_if, row_fields};
ghost use Rattle.ether_capture.specs.Statistics.{json_texts, key_members};

use crate::row_counts::first_field;
use ether_format::write_json_text;
use ether_output::{OutputBuffer, Sink};

/// Writes the names of a key's columns and their texts as members of an object.
pub(crate) fn write_key_members<W: Sink>(key: &[u8], out: &mut OutputBuffer<'_, W>)
    ensures { Takes W.contents W.can_fail out.old (key_members (row_fields key.now)) out.new }
{
    let number = field_count(key);
    if number > 2 {
        out.append(b"\"columns\":");
        let values = write_texts(number / 2, Some(key), out);
        out.append(b",\"values\":");
        write_texts(number, values, out);
    } else {
        write_column(key, out);
    }
}

/// Writes the name of a column and its text as members.
fn write_column<W: Sink>(key: &[u8], out: &mut OutputBuffer<'_, W>)
    requires { length (row_fields key.now) < 3 }
    ensures { Takes W.contents W.can_fail out.old (key_members (row_fields key.now)) out.new }
{
    let (column, after) = first_field(key);
    out.append(b"\"column\":");
    write_json_text(column, out);
    out.append(b",\"value\":");
    match after {
        Some(rest) => write_json_text(first_field(rest).0, out),
        None => write_json_text(b"", out),
    }
}

/// How many fields a text has.
fn field_count(text: &[u8]) -> usize
    ensures { result ≡ length (row_fields text.now) }
{
    let mut count = 0;
    let mut rest = Some(text);
    while let Some(left) = rest {
        count += 1;
        rest = first_field(left).1;
    }
    count
}

/// Writes `count` fields, or all if there are fewer, as an array of strings. Returns the text after these fields, if
/// there is one.
fn write_texts<'a, W: Sink>(
    count: usize,
    texts: Option<&'a [u8]>,
    out: &mut OutputBuffer<'_, W>,
) -> Option<&'a [u8]>
    ensures written { Takes W.contents W.can_fail out.old
        (json_texts (take count (fields_if (option_map (λ s. s.now) texts.entry)))) out.new }
    ensures rest { fields_if (option_map (λ s. s.now) result)
        ≡ drop count (fields_if (option_map (λ s. s.now) texts.entry)) }
{
    let mut rest = texts;
    let mut left = count;
    let mut is_first = true;
    out.append(b"[");
    while left > 0 {
        let Some(text) = rest else {
            break;
        };
        let (field, later) = first_field(text);
        out.append(comma_if(is_first));
        write_json_text(field, out);
        rest = later;
        left -= 1;
        is_first = false;
    }
    out.append(b"]");
    rest
}

/// A comma, but nothing before the first of several.
fn comma_if(is_first: bool) -> &'static [u8]
    ensures { result.now ≡ comma_if is_first }
{
    if is_first { b"" } else { b"," }
}
