//! A switch over a capture, as an example of a program over `ether_switch`.
//!
//! Each argument is a port: `trunk`, or the identifier of the VLAN of an access port. Ports are numbered from 1 on, and
//! there are at most 255. Standard input is a capture, pcap or pcapng. A frame of its first interface comes in by port
//! 1, one of the second interface by port 2, and so on, at the time of the packet. For each port through which the frame
//! leaves, a line is written: the number of the port, a space, and the bytes that leave, in hexadecimal digits.
#![tactic(auto)]

mod arguments;
mod lines;
mod port;
mod reading;

use arguments::{SwitchError, port_of};
use ether_pcap::CapturePackets;
use ether_switch::{Bridge, BridgeKind};
use lines::frame_lines;
use port::{empty_table, states_of, vlans_of};
use reading::read_packet;
use std::env;
use std::io::Read;

fn main(rt: HostRuntime) -> anyhow::Result<()> {
    let alloc = rt.alloc();
    let mut ports = Vec::new(alloc);
    for argument in env::args(&rt)?.skip(1) {
        ports.push(port_of(argument.as_str())?)?;
    }
    if ports.len() >= 1 << 8 {
        return Err(SwitchError::Count.into());
    }
    let ports = ports.as_slice();
    let mut capture = Vec::new(alloc);
    rt.reader().read_to_end(&mut capture)?;
    let states = states_of(ports.len() as u8);
    let vlans = vlans_of(alloc, ports)?;
    let bridge = Bridge {
        kind: BridgeKind::Customer,
        ageing_time: Bridge::AGEING_TIME,
        key: [0, 0], // a switch that reads what others send takes random numbers
        ports: &states,
        vlans: vlans.as_slice(),
        static_entries: &[],
        forwarded: 0,
    };
    let mut table = empty_table(alloc)?;
    for packet in CapturePackets::from_slice(capture.as_slice()) {
        let Some(arrived) = read_packet(ports, &packet?) else {
            return Err(SwitchError::Packet.into());
        };
        let text = frame_lines(
            alloc,
            &bridge,
            table.as_mut_slice(),
            &arrived.arrival,
            arrived.frame,
        )?;
        print!(rt; "{text}")?;
    }
    Ok(())
}
