//! Writes a captured packet in a format.
ghost use Rattle.ether_pcap.specs.CaptureViews.{captured_packet_view};
ghost use Rattle.ether_output.specs.OutputBuffer.{TakesAnswer};
ghost use Rattle.ether_format.specs.Origins.{origin_view};
ghost use Rattle.ether_format.specs.Texts.{HasText};

use crate::csv::write_csv_row;
use crate::json_bytes::write_json_bytes;
use crate::line::{Line, write_line};
use crate::row::write_row;
use crate::{Format, Origin};
use ether_output::{OutputBuffer, Sink};
use ether_pcap::CapturedPacket;

/// Writes a packet of this origin in a format, and returns whether no header of it is refused.
///
/// With a limit, at most that many VLAN tags and SecTags are read.
///
/// ```
/// let packet = CapturedPacket {
///     time: Some(Timestamp { seconds: 1_700_000_000, nanoseconds: 1_000 }),
///     interface: None,
///     direction: None,
///     comment: None,
///     original_len: 60,
///     link_type: LinkType::ETHERNET,
///     snap_len: 262_144,
///     fcs_len: None,
///     packet: &[0xFF, 0xFF, 0xFF, 0xFF, 0xFF, 0xFF, 2, 0, 0, 0, 0, 1, 0x08, 0x00],
/// };
/// let origin = Origin {
///     file: Some(b"a.pcap"),
///     number: 1,
/// };
/// let mut written = ArrayVec::<u8, 512>::new();
/// let mut out = OutputBuffer::new(&mut written);
/// assert!(rt; write_packet(&Format::Json, None, &origin, &packet, &mut out));
/// assert_eq!(rt; out.flush(), Ok(()));
/// assert_eq!(rt;
///     written.as_slice(),
///     b"{\"number\":1,\"time\":\"2023-11-14T22:13:20.000001000Z\",\"link\":1,\"captured\":14,\"original\":60,\"interface\":null,\"direction\":null,\
/// \"comment\":null,\"file\":\"a.pcap\",\"headers\":[{\"header\":\"eth\",\"start\":0,\"end\":14,\"payload_end\":14,\"closed\":false,\"dst\":\"ff:ff:ff:ff:ff:ff\",\"src\":\"02:00:00:00:00:01\",\"type\":2048,\
/// \"fcs\":null}],\"rest\":{\"start\":14,\"end\":14,\"kind\":\"ether_type\",\"type\":2048}}\n".as_slice()
/// );
/// ```
#[inline(never)]
pub fn write_packet<W: Sink>(
    format: &Format,
    limit: Option<usize>,
    origin: &Origin<'_>,
    packet: &CapturedPacket<'_>,
    out: &mut OutputBuffer<'_, W>,
) -> bool
    ensures { TakesAnswer W.contents W.can_fail
        (HasText format.now limit (origin_view origin.now) (captured_packet_view packet.now)) out.old out.new result }
{
    match format {
        Format::Json => write_line(Line::Json, limit, origin, packet, out),
        Format::JsonBytes => write_json_bytes(limit, origin, packet, out),
        Format::Brief => write_line(Line::Brief, limit, origin, packet, out),
        Format::Fields(columns) => write_row(columns, limit, origin, packet, out),
        Format::Csv(columns) => write_csv_row(columns, limit, origin, packet, out),
    }
}
