//! A rewriter of VLAN identifiers over a capture, as an example of a program over `ether_packet`.
//!
//! The arguments are two VLAN identifiers. Standard input is a capture, pcap or pcapng. Each of its frames is written
//! as a line of hexadecimal digits, in which the outermost VLAN tag that had the first identifier has the second one.
//! A packet of which nothing is walked is skipped.
#![tactic(auto)]

mod rewriting;

use ether_content::Content;
use ether_pcap::CapturePackets;
use rewriting::{rewritten_line, vlan_id_of};
use std::env;
use std::io::Read;

fn main(rt: HostRuntime) -> anyhow::Result<()> {
    let alloc = rt.alloc();
    let mut arguments = env::args(&rt)?.skip(1);
    let from = vlan_id_of(arguments.next())?;
    let to = vlan_id_of(arguments.next())?;
    let mut capture = Vec::new(alloc);
    rt.reader().read_to_end(&mut capture)?;
    for packet in CapturePackets::from_slice(capture.as_slice()) {
        if let Some((start, frame)) = Content::of(&packet?).frame() {
            let mut frame = frame.to_vec(alloc)?;
            let text = rewritten_line(alloc, start, frame.as_mut_slice(), from, to)?;
            print!(rt; "{text}")?;
        }
    }
    Ok(())
}
