//! Writes values as text.
ghost use Rattle.std.specs.Prelude.{◌≡◌, ◌++◌, codes, false, take};
ghost use Rattle.std.specs.Fmt.{decimal};
ghost use Rattle.std.specs.List.{flat_map};
ghost use Rattle.ether_base.specs.Texts.NumberText.{hex_byte};
ghost use Rattle.ether_output.specs.OutputBuffer.{Takes};
ghost use Rattle.ether_output.specs.Decimals.{two_digits};
ghost use Rattle.ether_format.specs.Spelling.{colon_text, column_value, date_text, dated_text, day_text, dotted_text, flag_text, has_date, interval_text, json_moment, json_value, moment_text, nine_digits, quoted, seconds_text, up_to};
ghost use Rattle.ether_format.specs.Values.{value_view};

use crate::Moment;
use crate::interval::Interval;
use crate::text::{write_json_text, write_row_text};
use crate::value::Value;
use ether_output::{OutputBuffer, Sink, digit_pair, eight_digits, hex_type, write_decimal};
use etherparse::EtherType;

/// Writes a value as JSON has it.
#[inline(always)]
pub(crate) fn write_json_value<W: Sink>(value: &Value<'_>, out: &mut OutputBuffer<'_, W>)
    ensures { Takes W.contents W.can_fail out.old (json_value (value_view value.now)) out.new }
{
    match value {
        Value::Nothing => out.append(b"null"),
        Value::Number(number) => write_decimal(out, *number),
        Value::Protocol(number) => write_decimal(out, u64::from(*number)),
        Value::Flag(holds) => out.append(flag_text(*holds).as_bytes()),
        Value::Mac(address) => out.append_array(quoted_mac(*address)),
        Value::Four(bytes) => write_quoted_bytes(bytes, out),
        Value::Eight(bytes) => write_quoted_bytes(bytes, out),
        Value::Short(bytes, len) => write_quoted_bytes(first_of(bytes, *len), out),
        Value::Bytes(bytes) => write_quoted_bytes(bytes, out),
        Value::Dotted(bytes) => write_quoted_dotted(bytes, out),
        Value::Word(word) => write_quoted_word(word, out),
        Value::Text(text) => write_json_text(text, out),
    }
}

/// Writes a value as a column has it.
#[inline(always)]
pub(crate) fn write_column_value<W: Sink>(value: &Value<'_>, out: &mut OutputBuffer<'_, W>)
    ensures { Takes W.contents W.can_fail out.old (column_value (value_view value.now)) out.new }
{
    match value {
        Value::Nothing => {}
        Value::Number(number) => write_decimal(out, *number),
        Value::Protocol(number) => out.append_array(hex_type(EtherType(*number))),
        Value::Flag(holds) => out.append(flag_text(*holds).as_bytes()),
        Value::Mac(address) => out.append_array(mac_text(*address)),
        Value::Four(bytes) => write_colons(bytes, out),
        Value::Eight(bytes) => write_colons(bytes, out),
        Value::Short(bytes, len) => write_colons(first_of(bytes, *len), out),
        Value::Bytes(bytes) => write_colons(bytes, out),
        Value::Dotted(bytes) => write_dotted(bytes, out),
        Value::Word(word) => out.append(word.as_bytes()),
        Value::Text(text) => write_row_text(text, out),
    }
}

/// The first `len` bytes, or all if there are fewer.
pub(crate) fn first_of(bytes: &[u8], len: usize) -> &[u8]
    ensures { result.now ≡ take len bytes.now }
{
    &bytes[..len.min(bytes.len())]
}

/// `true` or `false`.
fn flag_text(holds: bool) -> &'static str
    ensures { result.now ≡ flag_text holds }
{
    if holds { "true" } else { "false" }
}

/// Writes a word between quotation marks.
#[inline(always)]
fn write_quoted_word<W: Sink>(word: &str, out: &mut OutputBuffer<'_, W>)
    ensures { Takes W.contents W.can_fail out.old (quoted word.now) out.new }
{
    out.append(b"\"");
    out.append(word.as_bytes());
    out.append(b"\"");
}

/// Writes bytes between quotation marks, with a colon between two.
#[inline(never)]
fn write_quoted_bytes<W: Sink>(bytes: &[u8], out: &mut OutputBuffer<'_, W>)
    ensures { Takes W.contents W.can_fail out.old (quoted (colon_text bytes.now)) out.new }
{
    out.append(b"\"");
    write_colons(bytes, out);
    out.append(b"\"");
}

/// Writes the bytes of an address of IPv4 between quotation marks.
#[inline(never)]
fn write_quoted_dotted<W: Sink>(bytes: &[u8], out: &mut OutputBuffer<'_, W>)
    ensures { Takes W.contents W.can_fail out.old (quoted (dotted_text bytes.now)) out.new }
{
    out.append(b"\"");
    write_dotted(bytes, out);
    out.append(b"\"");
}

/// Writes a moment as a value of JSON: its date between quotation marks, or the number of its seconds.
#[inline(never)]
pub(crate) fn write_json_moment<W: Sink>(moment: &Moment, out: &mut OutputBuffer<'_, W>)
    ensures { Takes W.contents W.can_fail out.old (json_moment moment.now) out.new }
{
    if has_date(moment) {
        write_quoted_date(moment, out);
    } else {
        write_seconds(moment, out);
    }
}

/// Writes the date of a moment between quotation marks.
fn write_quoted_date<W: Sink>(moment: &Moment, out: &mut OutputBuffer<'_, W>)
    ensures { Takes W.contents W.can_fail out.old (quoted (dated_text moment.now)) out.new }
{
    out.append(b"\"");
    write_dated(moment, out);
    out.append(b"\"");
}

/// Writes bytes in two hexadecimal digits each, with a colon between two.
pub(crate) fn write_colons<W: Sink>(bytes: &[u8], out: &mut OutputBuffer<'_, W>)
    ensures { Takes W.contents W.can_fail out.old (colon_text bytes.now) out.new }
{
    if bytes.is_empty() {
        return;
    }
    out.append_array(digit_pair(bytes[0]));
    write_colons_after(&bytes[1..], out);
}

/// Writes bytes in two hexadecimal digits each, after a colon each.
fn write_colons_after<W: Sink>(bytes: &[u8], out: &mut OutputBuffer<'_, W>)
    ensures { Takes W.contents W.can_fail out.old (flat_map (λ b. codes ":" ++ hex_byte false b) bytes.now) out.new }
{
    for byte in bytes {
        let pair = digit_pair(*byte);
        out.append_array([b':', pair[0], pair[1]]);
    }
}

/// Writes bytes in decimal digits, with a dot between two.
pub(crate) fn write_dotted<W: Sink>(bytes: &[u8], out: &mut OutputBuffer<'_, W>)
    ensures { Takes W.contents W.can_fail out.old (dotted_text bytes.now) out.new }
{
    if bytes.is_empty() {
        return;
    }
    write_decimal(out, u64::from(bytes[0]));
    write_dots_after(&bytes[1..], out);
}

/// Writes bytes in decimal digits, after a dot each.
fn write_dots_after<W: Sink>(bytes: &[u8], out: &mut OutputBuffer<'_, W>)
    ensures { Takes W.contents W.can_fail out.old (flat_map (λ b. codes "." ++ decimal b) bytes.now) out.new }
{
    for byte in bytes {
        out.append(b".");
        write_decimal(out, u64::from(*byte));
    }
}

/// A MAC address between quotation marks.
#[inline(always)]
fn quoted_mac(address: [u8; 6]) -> [u8; 19]
    ensures { result ≡ quoted (colon_text address) }
{
    let a = digit_pair(address[0]);
    let b = digit_pair(address[1]);
    let c = digit_pair(address[2]);
    let d = digit_pair(address[3]);
    let e = digit_pair(address[4]);
    let f = digit_pair(address[5]);
    [
        b'"', a[0], a[1], b':', b[0], b[1], b':', c[0], c[1], b':', d[0], d[1], b':', e[0], e[1],
        b':', f[0], f[1], b'"',
    ]
}

/// A MAC address.
#[inline(always)]
pub(crate) fn mac_text(address: [u8; 6]) -> [u8; 17]
    ensures { result ≡ colon_text address }
{
    let a = digit_pair(address[0]);
    let b = digit_pair(address[1]);
    let c = digit_pair(address[2]);
    let d = digit_pair(address[3]);
    let e = digit_pair(address[4]);
    let f = digit_pair(address[5]);
    [
        a[0], a[1], b':', b[0], b[1], b':', c[0], c[1], b':', d[0], d[1], b':', e[0], e[1], b':',
        f[0], f[1],
    ]
}

/// Writes a moment: its date as in ISO 8601, or without one its seconds, with nine decimals of the second.
pub(crate) fn write_moment<W: Sink>(moment: &Moment, out: &mut OutputBuffer<'_, W>)
    ensures { Takes W.contents W.can_fail out.old (moment_text moment.now) out.new }
{
    if has_date(moment) {
        write_dated(moment, out);
    } else {
        write_seconds(moment, out);
    }
}

/// Writes an interval of a moment between quotation marks.
#[inline(never)]
pub(crate) fn write_quoted_interval<W: Sink>(
    interval: Interval,
    moment: &Moment,
    out: &mut OutputBuffer<'_, W>,
)
    ensures { Takes W.contents W.can_fail out.old (quoted (interval_text interval moment.now)) out.new }
{
    out.append(b"\"");
    write_interval(interval, moment, out);
    out.append(b"\"");
}

/// Writes the date of a moment up to the minute, the hour or the day. A moment without a date has none.
#[inline(never)]
pub(crate) fn write_interval<W: Sink>(
    interval: Interval,
    moment: &Moment,
    out: &mut OutputBuffer<'_, W>,
)
    ensures { Takes W.contents W.can_fail out.old (interval_text interval moment.now) out.new }
{
    if has_date(moment) {
        write_up_to(interval, moment, out);
    }
}

/// Writes the date of a moment up to the minute, the hour or the day.
fn write_up_to<W: Sink>(interval: Interval, moment: &Moment, out: &mut OutputBuffer<'_, W>)
    ensures { Takes W.contents W.can_fail out.old (up_to interval moment.now) out.new }
{
    write_day(moment, out);
    let h = two_digits(moment.hour);
    let m = two_digits(moment.minute);
    match interval {
        Interval::Minute => out.append_array([b'T', h[0], h[1], b':', m[0], m[1], b'Z']),
        Interval::Hour => out.append_array([b'T', h[0], h[1], b'Z']),
        Interval::Day => {}
    }
}

/// Writes the date of a moment.
#[tactic(auto, unfolding(crate::specs::Spelling::day_text))]
fn write_day<W: Sink>(moment: &Moment, out: &mut OutputBuffer<'_, W>)
    ensures { Takes W.contents W.can_fail out.old (day_text moment.now) out.new }
{
    let m = two_digits(moment.month);
    let d = two_digits(moment.day);
    write_decimal(out, moment.year);
    out.append_array([b'-', m[0], m[1], b'-', d[0], d[1]]);
}

/// Whether the year has at most four digits, as in RFC 3339.
#[inline(always)]
pub(crate) fn has_date(moment: &Moment) -> bool
    ensures { result ≡ has_date moment.now }
{
    moment.year < 10_000
}

/// Writes a date and a time of day with nine decimals of the second.
fn write_dated<W: Sink>(moment: &Moment, out: &mut OutputBuffer<'_, W>)
    ensures { Takes W.contents W.can_fail out.old (dated_text moment.now) out.new }
{
    write_date(moment, out);
    out.append_array(fraction(moment.nanoseconds));
}

/// Writes the seconds since the beginning of 1970, with nine decimals.
fn write_seconds<W: Sink>(moment: &Moment, out: &mut OutputBuffer<'_, W>)
    ensures { Takes W.contents W.can_fail out.old (seconds_text moment.now) out.new }
{
    write_decimal(out, moment.seconds);
    out.append(b".");
    out.append_array(nine_digits(moment.nanoseconds));
}

/// What follows the second of a moment: its nine decimals, and the Z of UTC.
#[inline(always)]
fn fraction(nanoseconds: u32) -> [u8; 11]
    ensures { result ≡ codes "." ++ (nine_digits nanoseconds ++ codes "Z") }
{
    let d = nine_digits(nanoseconds);
    [
        b'.', d[0], d[1], d[2], d[3], d[4], d[5], d[6], d[7], d[8], b'Z',
    ]
}

/// Writes a date and a time of day.
pub(crate) fn write_date<W: Sink>(moment: &Moment, out: &mut OutputBuffer<'_, W>)
    ensures { Takes W.contents W.can_fail out.old (date_text moment.now) out.new }
{
    write_decimal(out, moment.year);
    out.append_array(month_to_second(moment));
}

/// What follows the year of a date, up to the second: `-11-14T22:13:20`.
fn month_to_second(moment: &Moment) -> [u8; 15]
    ensures { result ≡ codes "-" ++ two_digits moment.now.month ++ codes "-" ++ two_digits moment.now.day ++ codes "T"
        ++ two_digits moment.now.hour ++ codes ":" ++ two_digits moment.now.minute ++ codes ":"
        ++ two_digits moment.now.second }
{
    let m = two_digits(moment.month);
    let d = two_digits(moment.day);
    let h = two_digits(moment.hour);
    let i = two_digits(moment.minute);
    let s = two_digits(moment.second);
    [
        b'-', m[0], m[1], b'-', d[0], d[1], b'T', h[0], h[1], b':', i[0], i[1], b':', s[0], s[1],
    ]
}

/// The two digits of a number below 100.
#[inline(always)]
pub(crate) fn two_digits(number: u8) -> [u8; 2]
    ensures { result ≡ two_digits number }
{
    [b'0' + number / 10, b'0' + number % 10]
}

/// The nine lowest decimal digits of a number.
#[inline(always)]
pub fn nine_digits(number: u32) -> [u8; 9]
    ensures { result ≡ nine_digits number }
{
    let first = b'0' + (number / 100_000_000 % 10) as u8;
    let d = eight_digits(u64::from(number));
    [first, d[0], d[1], d[2], d[3], d[4], d[5], d[6], d[7]]
}
