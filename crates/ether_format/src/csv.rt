//! Writes a packet as a record of CSV (RFC 4180).
ghost use Rattle.std.specs.Prelude.{◌≡◌, ◌≢◌, map};
ghost use Rattle.std.specs.Option.{option_map};
ghost use Rattle.ether_pcap.specs.CaptureViews.{captured_packet_view, timestamp_view};
ghost use Rattle.ether_output.specs.OutputBuffer.{Takes, TakesAnswer};
ghost use Rattle.ether_fields.specs.declared.section.Section.TheVariants as sections;
ghost use Rattle.ether_format.specs.declared.csv.Count.TheVariants as counts;
ghost use Rattle.ether_format.specs.declared.format.Format.TheVariants as formats;
ghost use Rattle.ether_format.specs.Columns.{column_view, columns_view};
ghost use Rattle.ether_format.specs.Counted.{TakesField, TakesRecord, TellsSeveral, counted, is_several, only_text, quote_if, text_in};
ghost use Rattle.ether_format.specs.Found.{found_told};
ghost use Rattle.ether_format.specs.Gathered.{AreGathered, HasEnd, shown_values};
ghost use Rattle.ether_format.specs.Csv.{csv_field, csv_value};
ghost use Rattle.ether_format.specs.Texts.{HasText};
ghost use Rattle.ether_format.specs.Origins.{origin_view};
ghost use Rattle.ether_format.specs.Values.{TakesTimed, if_any, shown_view, value_view};

use crate::Columns;
use crate::column::Column;
use crate::end::End;
use crate::found::Found;
use crate::gathered::{Gatherer, Headers};
use crate::origin::Origin;
use crate::row::{RowPacket, write_column};
use crate::spelling::write_column_value;
use crate::text::write_csv_text;
use crate::times::{write_time, write_time_interval};
use crate::value::{Shown, Value};
use crate::values::packet_value;
use crate::visit::{Visitor, visit};
use ether_fields::Section;
use ether_output::{OutputBuffer, Sink};
use ether_pcap::{CapturedPacket, Timestamp};

/// Writes the record of a packet, and returns whether no header of the packet is refused.
#[inline(never)]
pub(crate) fn write_csv_row<W: Sink>(
    columns: &Columns,
    limit: Option<usize>,
    origin: &Origin<'_>,
    packet: &CapturedPacket<'_>,
    out: &mut OutputBuffer<'_, W>,
) -> bool
    ensures { TakesAnswer W.contents W.can_fail
        (HasText (formats.Csv columns.now) limit (origin_view origin.now) (captured_packet_view packet.now))
        out.old out.new result }
{
    let mut headers = Headers::new();
    let mut gatherer = Gatherer::new();
    let end = visit(packet, limit, &mut gatherer, &mut headers);
    let row = RowPacket {
        origin,
        packet,
        limit,
    };
    let headers = headers.as_slice();
    write_record(columns, &row, headers, &gatherer, &end, out);
    end.is_accepted()
}

/// Writes the fields of a record.
fn write_record<W: Sink>(
    columns: &Columns,
    row: &RowPacket<'_>,
    headers: &[Found<'_>],
    gatherer: &Gatherer,
    end: &End,
    out: &mut OutputBuffer<'_, W>,
)
    requires told { AreGathered row.now headers.now gatherer.now }
    requires end { HasEnd row.now end.now }
    ensures { TakesRecord W.contents W.can_fail (columns_view columns.now) row.now out.old out.new }
{
    let mut column = columns.first();
    let mut others = columns.others();
    loop {
        write_field(column, row, headers, gatherer, end, out);
        match others {
            [next, rest @ ..] => {
                out.append(b",");
                column = *next;
                others = rest;
            }
            [] => {
                out.append(b"\r\n");
                return;
            }
        }
    }
}

/// Writes a column.
fn write_field<W: Sink>(
    column: Column,
    row: &RowPacket<'_>,
    headers: &[Found<'_>],
    gatherer: &Gatherer,
    end: &End,
    out: &mut OutputBuffer<'_, W>,
)
    requires told { AreGathered row.now headers.now gatherer.now }
    requires end { HasEnd row.now end.now }
    ensures { TakesField W.contents W.can_fail column row.now out.old out.new }
{
    if column.section == Section::Frame {
        let index = usize::from(column.index);
        write_shown_if(
            packet_value(row.origin, row.packet, index),
            row.packet.time,
            out,
        );
    } else {
        write_values_field(column, row, headers, gatherer, end, out);
    }
}

/// Writes what a packet itself has in a field, if it has that.
fn write_shown_if<W: Sink>(
    shown: Option<Shown<'_>>,
    time: Option<Timestamp>,
    out: &mut OutputBuffer<'_, W>,
)
    ensures { TakesTimed W.contents W.can_fail (option_map timestamp_view time)
        (λ moment. csv_field (only_text (option_map (shown_view moment) shown.entry))) out.old out.new }
{
    if let Some(shown) = shown {
        write_shown_field(shown, time, out);
    }
}

/// Writes what a packet itself has in a field. No time has a byte that asks for double quotes.
fn write_shown_field<W: Sink>(
    shown: Shown<'_>,
    time: Option<Timestamp>,
    out: &mut OutputBuffer<'_, W>,
)
    ensures { TakesTimed W.contents W.can_fail (option_map timestamp_view time)
        (λ moment. csv_field (csv_value (shown_view moment shown.entry))) out.old out.new }
{
    match shown {
        Shown::Time => write_time(time, out),
        Shown::Within(interval) => write_time_interval(interval, time, out),
        Shown::Value(value) => write_value_field(&value, out),
    }
}

/// Writes a value as a field. Only a text or a word can have a byte that asks for double quotes.
fn write_value_field<W: Sink>(value: &Value<'_>, out: &mut OutputBuffer<'_, W>)
    ensures { Takes W.contents W.can_fail out.old (csv_field (csv_value (value_view value.now))) out.new }
{
    match text_of(value) {
        Some(text) => write_csv_text(text, out),
        None => write_column_value(value, out),
    }
}

/// The bytes of a text or a word.
fn text_of<'a>(value: &Value<'a>) -> Option<&'a [u8]>
    ensures { option_map (λ t. t.now) result ≡ text_in (value_view value.now) }
{
    match value {
        Value::Text(text) => Some(text),
        Value::Word(word) => Some(word.as_bytes()),
        _ => None,
    }
}

/// Writes a column of headers, or of how a walk ends. It is enclosed in double quotes if it has several values, since
/// there is a comma between two. None of them has a byte that asks for double quotes.
fn write_values_field<W: Sink>(
    column: Column,
    row: &RowPacket<'_>,
    headers: &[Found<'_>],
    gatherer: &Gatherer,
    end: &End,
    out: &mut OutputBuffer<'_, W>,
)
    requires told { AreGathered row.now headers.now gatherer.now }
    requires end { HasEnd row.now end.now }
    requires other { column.section ≢ sections.Frame }
    ensures { TakesField W.contents W.can_fail column row.now out.old out.new }
{
    let is_enclosed = has_several(column, row, headers, gatherer);
    write_quote_if(is_enclosed, out);
    write_column(column, row, headers, gatherer, end, out);
    write_quote_if(is_enclosed, out);
}

/// Writes a double quote around a field that is enclosed.
fn write_quote_if<W: Sink>(is_enclosed: bool, out: &mut OutputBuffer<'_, W>)
    ensures { Takes W.contents W.can_fail out.old (quote_if is_enclosed) out.new }
{
    if is_enclosed {
        out.append(b"\"");
    }
}

/// Whether a column has several values in the headers of a packet.
fn has_several(
    column: Column,
    row: &RowPacket<'_>,
    headers: &[Found<'_>],
    gatherer: &Gatherer,
) -> bool
    requires { AreGathered row.now headers.now gatherer.now }
    ensures { TellsSeveral column row.now result }
{
    if gatherer.has(column.section) {
        has_several_in_all(column, row)
    } else {
        count_in(column, headers).is_several()
    }
}

/// How many values a column has.
#[derive(Clone, Copy)]
enum Count {
    Zero,
    One,
    Several,
}

impl Count {
    /// Counts a value, if there is one.
    fn and(self, value: Option<Value<'_>>) -> Count
        ensures { result ≡ counted self (if_any (option_map value_view value.entry)) }
    {
        match (value, self) {
            (None, count) => count,
            (Some(_), Count::Zero) => Count::One,
            (Some(_), Count::One | Count::Several) => Count::Several,
        }
    }

    /// Whether there are several.
    fn is_several(self) -> bool
        ensures { result ≡ is_several self }
    {
        matches!(self, Count::Several)
    }
}

/// How many values a column has in these headers.
fn count_in(column: Column, headers: &[Found<'_>]) -> Count
    ensures { result ≡ counted counts.Zero (shown_values (column_view column) (map found_told headers.now)) }
{
    let mut count = Count::Zero;
    for found in headers {
        count = count.and(column.in_found(found));
    }
    count
}

/// Whether a column has several values in the headers of a packet, which are walked again.
#[inline(never)]
fn has_several_in_all(column: Column, row: &RowPacket<'_>) -> bool
    ensures { TellsSeveral column row.now result }
{
    let mut count = Count::Zero;
    visit(
        row.packet,
        row.limit,
        &mut ValueCounter { column },
        &mut count,
    );
    count.is_several()
}

/// Counts the values of a column.
#[derive(Clone, Copy)]
struct ValueCounter {
    column: Column,
}

impl<'a> Visitor<'a, Count> for ValueCounter {
    ghost use Rattle.ether_format.specs.Counted.{CountsHeader};

    ghost takes = { λ old count told new next. CountsHeader old count told new next };

    fn header(&mut self, found: Found<'a>, target: &mut Count) {
        *target = target.and(self.column.in_found(&found));
    }
}
