//! Writes classic capture files.
ghost use Rattle.std.specs.Prelude.{◌≡◌};
ghost use Rattle.ether_c.specs.CaptureWriting.{GivesFileHeader, GivesRecordHeader, file_value, record_nanoseconds, record_seconds, record_value};

use crate::EtherCaptured;
use crate::statuses::{BAD_FIELD, DONE};
use ether_pcap::{ByteOrder, FileHeader, LinkType, PcapRecord, TimestampResolution};

/// Writes the header of a little-endian file with times in nanoseconds.
#[unsafe(no_mangle)]
pub extern "C" fn etherpeel_capture_header(
    link_type: u16,
    snap_len: u32,
    fcs_len: u8,
    header: &mut [u8; 24],
) -> u32
    ensures { GivesFileHeader (file_value link_type snap_len fcs_len) header.old header.new result }
{
    if fcs_len > 30 || fcs_len % 2 != 0 {
        return BAD_FIELD;
    }
    let file = FileHeader {
        byte_order: ByteOrder::LittleEndian,
        resolution: TimestampResolution::Nanoseconds,
        snap_len,
        link_type: LinkType(link_type),
        fcs_len: (fcs_len != 0).then_some(fcs_len),
    };
    *header = file.to_bytes();
    DONE
}

/// Writes what such a file has before the bytes of a packet.
#[unsafe(no_mangle)]
pub extern "C" fn etherpeel_capture_record(packet: &EtherCaptured<'_>, header: &mut [u8; 16]) -> u32
    ensures { GivesRecordHeader (record_value packet.now) header.old header.new result }
{
    let (seconds, nanoseconds) = time(packet);
    if seconds > u64::from(u32::MAX) || nanoseconds >= 1_000_000_000 {
        return BAD_FIELD;
    }
    if packet.packet.len() > PcapRecord::MAX_CAPTURED_LEN as usize {
        return BAD_FIELD;
    }
    let record = PcapRecord {
        seconds: seconds as u32,
        fraction: nanoseconds,
        original_len: packet.original_len,
        packet: packet.packet,
    };
    *header = record.header_to_bytes(ByteOrder::LittleEndian);
    DONE
}

/// The time of a packet in seconds and nanoseconds since 1970, 0 without a time.
fn time(packet: &EtherCaptured<'_>) -> (u64, u32)
    ensures seconds { result.0 ≡ record_seconds packet.now }
    ensures nanoseconds { result.1 ≡ record_nanoseconds packet.now }
{
    if packet.has_time == 0 {
        (0, 0)
    } else {
        (packet.seconds, packet.nanoseconds)
    }
}
