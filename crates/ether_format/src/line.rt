//! Writes a packet as a line.
ghost use Rattle.std.specs.Prelude.{◌≡◌, ◌++◌};
ghost use Rattle.ether_pcap.specs.CaptureViews.{captured_packet_view};
ghost use Rattle.ether_output.specs.OutputBuffer.{Takes, TakesAnswer};
ghost use Rattle.ether_format.specs.Texts.{HasText};
ghost use Rattle.ether_format.specs.Lines.{HasLine, WritesLineFront, end_text, header_text, tail_text};
ghost use Rattle.ether_format.specs.Found.{found_told};
ghost use Rattle.ether_format.specs.Origins.{origin_view};

use crate::brief::{write_brief_end, write_brief_front, write_brief_header, write_brief_tail};
use crate::end::End;
use crate::found::Found;
use crate::json::{write_json_end, write_json_front, write_json_header};
use crate::origin::Origin;
use crate::values::moment_if;
use crate::visit::{Visitor, visit};
use ether_output::{OutputBuffer, Sink};
use ether_pcap::CapturedPacket;

/// How a line is formed.
#[derive(Clone, Copy)]
pub(crate) enum Line {
    Json,
    Brief,
}

/// Writes headers to a line.
#[derive(Clone, Copy)]
struct LineHeaders {
    line: Line,
    /// Whether the next header is the first of the packet.
    is_first: bool,
}

impl<'a, 'b, W: Sink> Visitor<'a, OutputBuffer<'b, W>> for LineHeaders {
    ghost use Rattle.ether_format.specs.Lines.{TakesHeader};

    ghost takes = { λ old out told new out_new. TakesHeader W.contents W.can_fail old out told new out_new };

    #[inline(always)]
    fn header(&mut self, found: Found<'a>, target: &mut OutputBuffer<'b, W>) {
        write_header(self.line, self.is_first, &found, target);
        self.is_first = false;
    }
}

/// Writes a packet as a line, and returns whether no header of it is refused.
#[inline(always)]
pub(crate) fn write_line<W: Sink>(
    line: Line,
    limit: Option<usize>,
    origin: &Origin<'_>,
    packet: &CapturedPacket<'_>,
    out: &mut OutputBuffer<'_, W>,
) -> bool
    ensures { TakesAnswer W.contents W.can_fail
        (HasLine line limit (origin_view origin.now) (captured_packet_view packet.now)) out.old out.new result }
{
    write_front(line, origin, packet, out);
    let mut headers = LineHeaders {
        line,
        is_first: true,
    };
    let end = visit(packet, limit, &mut headers, out);
    write_end(line, packet, &end, out);
    write_tail(line, packet, out);
    end.is_accepted()
}

/// Writes what comes before the headers of a packet.
#[inline(always)]
fn write_front<W: Sink>(
    line: Line,
    origin: &Origin<'_>,
    packet: &CapturedPacket<'_>,
    out: &mut OutputBuffer<'_, W>,
)
    ensures { WritesLineFront W.contents W.can_fail line (origin_view origin.now) (captured_packet_view packet.now) out.old
        out.new }
{
    match line {
        Line::Json => write_json_front(origin, packet, out),
        Line::Brief => write_brief_front(origin.number, moment_if(packet.time), out),
    }
}

/// Writes a header. `is_first` says whether it is the first of the packet.
#[inline(always)]
fn write_header<W: Sink>(
    line: Line,
    is_first: bool,
    found: &Found<'_>,
    out: &mut OutputBuffer<'_, W>,
)
    ensures { Takes W.contents W.can_fail out.old (header_text line is_first (found_told found.now)) out.new }
{
    match line {
        Line::Json => write_json_header(is_first, found, out),
        Line::Brief => write_brief_header(&found.header, out),
    }
}

/// Writes how the walk through the headers of a packet ends.
#[inline(always)]
fn write_end<W: Sink>(
    line: Line,
    packet: &CapturedPacket<'_>,
    end: &End,
    out: &mut OutputBuffer<'_, W>,
)
    ensures { Takes W.contents W.can_fail out.old (end_text line (captured_packet_view packet.now) end.now) out.new }
{
    match line {
        Line::Json => write_json_end(end, out),
        Line::Brief => write_brief_end(packet, end, out),
    }
}

/// Writes what comes after the end of a packet.
#[inline(always)]
fn write_tail<W: Sink>(line: Line, packet: &CapturedPacket<'_>, out: &mut OutputBuffer<'_, W>)
    ensures { Takes W.contents W.can_fail out.old (tail_text line (captured_packet_view packet.now)) out.new }
{
    match line {
        Line::Json => {}
        Line::Brief => write_brief_tail(packet, out),
    }
}
