//! The laws on lines of JSON. Each is the contract of a function that does nothing.
ghost use Rattle.std.specs.Prelude.{◌<◌, ◌^◌, IfSome};
ghost use Rattle.std.specs.Option.{option_map};
ghost use Rattle.ether_base.specs.Bytes.{IsBytes};
ghost use Rattle.ether_pcap.specs.CaptureViews.{captured_packet_view, timestamp_view};
ghost use Rattle.ether_make.specs.Divisions.{RemaindersAreLeft};
ghost use Rattle.ether_make.specs.FrameLaws.{LinesMakeFrames};
ghost use Rattle.ether_format.specs.Origins.{origin_view};
ghost use Rattle.ether_make.specs.Laws.{LinesAreJson};
ghost use Rattle.ether_make.specs.PacketJson.{FitsPacket};

use ether_format::Origin;
use ether_pcap::{CapturedPacket, Timestamp};

/// Each line that a packet has in JSON, also with all its bytes, is a JSON text, which has one value: what the packet
/// tells.
pub fn lines_are_json()
    ensures { LinesAreJson }
{}

/// The line of a packet makes the headers of the packet again, and the line with all its bytes makes the packet: with
/// headers of Ethernet II, VLAN tags, SecTags and ARP.
pub fn lines_make_frames()
    ensures { LinesMakeFrames }
{}

/// What is left of a division by the generator of check sequences is the remainder of polynomials.
pub fn remainders_are_left()
    ensures { RemaindersAreLeft }
{}

/// Each packet that a program reads has numbers of 64 bits and fewer than 2^63 bytes, as the law on lines asks.
pub fn packets_fit(origin: Origin<'_>, packet: CapturedPacket<'_>)
    ensures { FitsPacket (origin_view origin.entry) (captured_packet_view packet.entry) }
{
    let _number = origin.number;
    are_bytes(packet.packet);
    time_fits(packet.time);
    interface_fits(packet.interface);
    let _original_len = packet.original_len;
    let _link_type = packet.link_type.0;
}

/// A slice of bytes has bytes.
fn are_bytes(bytes: &[u8])
    ensures { IsBytes bytes.now }
{}

/// The seconds of a time have 64 bits.
fn time_fits(time: Option<Timestamp>)
    ensures { IfSome (option_map timestamp_view time) (λ t. t.seconds < 2 ^ 64) }
{
    if let Some(t) = time {
        let _seconds = t.seconds;
    }
}

/// The number of an interface has 64 bits.
fn interface_fits(interface: Option<u32>)
    ensures { IfSome interface (λ n. n < 2 ^ 64) }
{
    if let Some(n) = interface {
        let _n = n;
    }
}
