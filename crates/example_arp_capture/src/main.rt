//! Writes a capture with an ARP request to standard output, as an example of a program over `ether_packet` and
//! `ether_pcap`.
#![tactic(auto)]

ghost use Rattle.std.specs.Prelude.{◌++◌};
ghost use Rattle.example_arp_capture.specs.Capture.{header_of_capture, IsCaptureOfRequest};
ghost use Rattle.ether_pcap.specs.Writing.{WritesFileHeader};

use ether_pcap::laws::written_files_are_read;
use ether_pcap::{ByteOrder, FileHeader, LinkType, PcapRecord, TimestampResolution};
use etherparse::VlanId;
use example_frames::arp_generator::{REQUEST_LEN, write_arp_request};
use std::io;
use std::io::Write;

/// A capture file with one packet, an ARP request in a VLAN. Its parts are in the order of the file.
#[derive(Clone, Copy)]
pub struct RequestCapture {
    /// The header of the file.
    pub file_header: [u8; 24],
    /// The header of the packet's record.
    pub record_header: [u8; 16],
    /// The packet.
    pub frame: [u8; 46],
}

/// A capture of an ARP request at a time, in seconds since the beginning of 1970, UTC.
pub fn request_capture(
    seconds: u32,
    vlan_id: VlanId,
    sender_mac: [u8; 6],
    sender_ipv4: [u8; 4],
    target_ipv4: [u8; 4],
) -> RequestCapture
    ensures header { WritesFileHeader result.file_header header_of_capture }
    ensures packets { IsCaptureOfRequest seconds vlan_id sender_mac sender_ipv4 target_ipv4
        (result.file_header ++ result.record_header ++ result.frame) }
{
    written_files_are_read();
    let mut frame = [0; REQUEST_LEN];
    let Ok(_) = write_arp_request(&mut frame, vlan_id, sender_mac, sender_ipv4, target_ipv4) else {
        unreachable!()
    };
    let file = FileHeader {
        byte_order: ByteOrder::LittleEndian,
        resolution: TimestampResolution::Nanoseconds,
        snap_len: PcapRecord::MAX_CAPTURED_LEN,
        link_type: LinkType::ETHERNET,
        fcs_len: None,
    };
    let record = PcapRecord {
        seconds,
        fraction: 0,
        original_len: 46,
        packet: &frame,
    };
    RequestCapture {
        file_header: file.to_bytes(),
        record_header: record.header_to_bytes(file.byte_order),
        frame,
    }
}

fn main(rt: HostRuntime) -> io::Result<()> {
    let Ok(vlan_id) = VlanId::try_new(100) else {
        return Ok(());
    };
    let sender_mac = [0x02, 0x00, 0x00, 0x00, 0x00, 0x01];
    let capture = request_capture(
        1_700_000_000,
        vlan_id,
        sender_mac,
        [10, 0, 0, 1],
        [10, 0, 0, 2],
    );
    let mut out = rt.stdout();
    out.write_all(&capture.file_header)?;
    out.write_all(&capture.record_header)?;
    out.write_all(&capture.frame)?;
    out.flush()
}
