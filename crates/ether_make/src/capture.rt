//! The capture of frames, written frame by frame.
ghost use Rattle.std.specs.Prelude.{◌≡◌, ◌∷◌, [], ◌<◌, ◌^◌, length, OnOk};
ghost use Rattle.ether_make.specs.Captures.{Ends, Grows, IsBegun, IsHeaderOf, IsRecordOf, IsTheCapture, WritesPart, captured as captured_in, fcs_len as fcs_len_in};
ghost use Rattle.ether_make.specs.FrameViews.{frame_view};
ghost use Rattle.ether_make.specs.Lines.{linked};

use crate::frame::Frame;
use ether_pcap::{ByteOrder, FileHeader, LinkType, PcapRecord, TimestampResolution};
use std::io;
use std::io::Write;

/// Writes a frame to a capture whose frames so far have this link type. Before the first frame the file header is
/// written, which says whether frames of Ethernet have check sequences.
pub fn write_frame<W: Write>(
    writer: &mut W,
    fcs: bool,
    link: &mut Option<u16>,
    frame: &Frame,
) -> io::Result<()>
    ensures link { OnOk result (link.new ≡ linked link.old (frame_view frame.now)) }
    ensures grows { OnOk result (length frame.now.bytes.items < 2 ^ 32
        → Grows (IsBegun fcs) link.old (linked link.old (frame_view frame.now)) (frame_view frame.now ∷ [])
        (W.contents writer.old) (W.contents writer.new)) }
{
    match *link {
        None => {
            write_header(writer, fcs, frame.link)?;
            write_record(writer, frame)?;
            *link = Some(frame.link);
            Ok(())
        }
        Some(_) => {
            write_record(writer, frame)?;
            Ok(())
        }
    }
}

/// Writes what is missing at the end: the file header, if there is no frame.
pub fn write_end<W: Write>(writer: &mut W, fcs: bool, link: Option<u16>) -> io::Result<()>
    ensures { OnOk result (Ends (IsBegun fcs) (IsTheCapture fcs) link (W.contents writer.old) (W.contents writer.new)) }
{
    match link {
        None => {
            write_header(writer, fcs, 1)?;
            writer.flush()?;
            Ok(())
        }
        Some(_) => {
            writer.flush()?;
            Ok(())
        }
    }
}

/// Writes a file header: times are in nanoseconds.
fn write_header<W: Write>(writer: &mut W, fcs: bool, link: u16) -> io::Result<()>
    ensures { OnOk result (WritesPart (IsHeaderOf fcs link) (W.contents writer.old) (W.contents writer.new)) }
{
    let header = FileHeader {
        byte_order: ByteOrder::LittleEndian,
        resolution: TimestampResolution::Nanoseconds,
        snap_len: PcapRecord::MAX_CAPTURED_LEN,
        link_type: LinkType(link),
        fcs_len: fcs_len(fcs, link),
    };
    writer.write_all(&header.to_bytes())?;
    Ok(())
}

/// Writes the record of a frame, which is cut at the snap length.
fn write_record<W: Write>(writer: &mut W, frame: &Frame) -> io::Result<()>
    ensures { OnOk result (length frame.now.bytes.items < 2 ^ 32
        → WritesPart (IsRecordOf (frame_view frame.now)) (W.contents writer.old) (W.contents writer.new)) }
{
    let packet = captured(frame.bytes.as_slice());
    let record = PcapRecord {
        seconds: frame.time.seconds,
        fraction: frame.time.nanoseconds,
        original_len: frame.bytes.len().min(0xFFFF_FFFF) as u32,
        packet,
    };
    writer.write_all(&record.header_to_bytes(ByteOrder::LittleEndian))?;
    writer.write_all(packet)?;
    Ok(())
}

/// What a capture has of a packet.
fn captured(packet: &[u8]) -> &[u8]
    ensures { result.now ≡ captured_in packet.now }
{
    if packet.len() > 262_144 {
        return &packet[..262_144];
    }
    packet
}

/// The length of the check sequence, for frames of Ethernet.
fn fcs_len(fcs: bool, link: u16) -> Option<u8>
    ensures { result ≡ fcs_len_in fcs link }
{
    if fcs && link == 1 { Some(4) } else { None }
}
