//! Reads the packets of a capture as frames that come in.
ghost use Rattle.std.specs.Prelude.{◌≡◌, ◌^◌, ◌<◌, List, ℕ, length, option_map, IfSome, IfNone};
ghost use Rattle.ether_pcap.specs.CaptureViews.{captured_packet_view, timestamp_view};
ghost use Rattle.example_switch.specs.Reading.{IsReceived, seconds_of};

use crate::port::Port;
use ether_content::without_fcs;
use ether_pcap::{CapturedPacket, LinkType, Timestamp};

/// When a frame came in, in seconds, and the number of its port and the port.
#[derive(Clone, Copy, Debug)]
pub(crate) struct Arrival {
    pub time: u32,
    pub from: u8,
    pub port: Port,
}

/// A frame that came in.
#[derive(Clone, Copy, Debug)]
pub(crate) struct Arrived<'a> {
    pub arrival: Arrival,
    pub frame: &'a [u8],
}

/// The frame of a packet, which comes in by the port of its interface. `None` if it is not an Ethernet frame, or if
/// its interface is not a port.
pub(crate) fn read_packet<'a>(ports: &[Port], packet: &CapturedPacket<'a>) -> Option<Arrived<'a>>
    requires { length ports.now < 2 ^ 8 }
    ensures some { IfSome result (λ r. IsReceived ports.now (captured_packet_view packet.now)
        r.arrival r.frame.now) }
    ensures none { IfNone result ((arrival : Arrival) (frame : List ℕ)
        → IsReceived ports.now (captured_packet_view packet.now) arrival frame → ⊥) }
{
    if packet.link_type != LinkType::ETHERNET {
        return None;
    }
    let index = packet.interface.unwrap_or(0) as usize;
    let port = ports.get(index)?;
    let arrival = Arrival {
        time: seconds(packet.time),
        from: index as u8 + 1,
        port: *port,
    };
    Some(Arrived {
        arrival,
        frame: without_fcs(packet),
    })
}

/// The seconds of a time, at most 2^32 - 1; 0 if there is no time.
fn seconds(time: Option<Timestamp>) -> u32
    ensures { result ≡ seconds_of (option_map timestamp_view time) }
{
    match time {
        Some(time) => time.seconds.min(u64::from(u32::MAX)) as u32,
        None => 0,
    }
}
