//! Writes the time of a packet, and its minute, hour or day. The date is computed here, where it is written.
ghost use Rattle.std.specs.Option.{option_map};
ghost use Rattle.ether_pcap.specs.CaptureViews.{timestamp_view};
ghost use Rattle.ether_format.specs.Members.{Time, Within, if_some};
ghost use Rattle.ether_format.specs.Spelling.{column_value, json_value};
ghost use Rattle.ether_format.specs.Values.{TakesTimed};

use crate::interval::Interval;
use crate::spelling::{write_interval, write_json_moment, write_moment, write_quoted_interval};
use crate::values::moment_if;
use ether_output::{OutputBuffer, Sink};
use ether_pcap::Timestamp;

/// Writes a time as a column has it, if there is one.
#[inline(never)]
pub(crate) fn write_time<W: Sink>(time: Option<Timestamp>, out: &mut OutputBuffer<'_, W>)
    ensures { TakesTimed W.contents W.can_fail (option_map timestamp_view time)
        (λ moment. column_value (if_some Time moment)) out.old out.new }
{
    if let Some(moment) = &moment_if(time) {
        write_moment(moment, out);
    }
}

/// Writes an interval of a time as a column has it, if there is one.
#[inline(never)]
pub(crate) fn write_time_interval<W: Sink>(
    interval: Interval,
    time: Option<Timestamp>,
    out: &mut OutputBuffer<'_, W>,
)
    ensures { TakesTimed W.contents W.can_fail (option_map timestamp_view time)
        (λ moment. column_value (if_some (Within interval) moment)) out.old out.new }
{
    if let Some(moment) = &moment_if(time) {
        write_interval(interval, moment, out);
    }
}

/// Writes a time as a value of JSON.
#[inline(never)]
pub(crate) fn write_json_time<W: Sink>(time: Option<Timestamp>, out: &mut OutputBuffer<'_, W>)
    ensures { TakesTimed W.contents W.can_fail (option_map timestamp_view time)
        (λ moment. json_value (if_some Time moment)) out.old out.new }
{
    match &moment_if(time) {
        Some(moment) => write_json_moment(moment, out),
        None => out.append(b"null"),
    }
}

/// Writes an interval of a time as a value of JSON.
#[inline(never)]
pub(crate) fn write_json_interval<W: Sink>(
    interval: Interval,
    time: Option<Timestamp>,
    out: &mut OutputBuffer<'_, W>,
)
    ensures { TakesTimed W.contents W.can_fail (option_map timestamp_view time)
        (λ moment. json_value (if_some (Within interval) moment)) out.old out.new }
{
    match &moment_if(time) {
        Some(moment) => write_quoted_interval(interval, moment, out),
        None => out.append(b"null"),
    }
}
