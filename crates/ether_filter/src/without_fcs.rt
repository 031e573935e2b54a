//! A packet whose frame ends in a frame check sequence, without it.
ghost use Rattle.std.specs.Prelude.{◌≡◌, [], true, IfNone, IfSome, length};
ghost use Rattle.ether_peel.specs.Grammar.Expectation.{has_fcs};
ghost use Rattle.ether_peel.specs.Walker.Start.{start_of};
ghost use Rattle.ether_filter.specs.CutWalks.{frame_total as frame_total_of, AreAll};
ghost use Rattle.ether_filter.specs.WithoutFcs.{IsWithoutFcs};

use crate::cut_walk::first_bytes;
use crate::deciding::lost;
use crate::packet::Packet;
use ether_peel::Start;

/// The number of bytes of the frame on the wire.
pub(crate) fn frame_total(packet: &Packet<'_>) -> usize
    ensures { result ≡ frame_total_of packet.now }
{
    packet.frame.len() + lost(packet)
}

/// A packet that has a frame check sequence, without it. `None` if there is no room for one after an Ethernet II
/// header: then the packet is refused, whatever the missing bytes are.
pub(crate) fn without_fcs<'a>(packet: &Packet<'a>) -> Option<Packet<'a>>
    ensures none { has_fcs (start_of packet.now.start) ≡ true → IfNone result (AreAll packet.now [] true) }
    ensures some { has_fcs (start_of packet.now.start) ≡ true → IfSome result (IsWithoutFcs packet.now) }
{
    let total = frame_total(packet);
    if total < 18 {
        return None;
    }
    let frame = first_bytes(packet.frame, total - 4);
    let lost = total - 4 - frame.len();
    Some(Packet {
        start: Start::Ethernet2,
        frame,
        captured_len: packet.original_len as usize - lost,
        original_len: packet.original_len,
        time: packet.time,
    })
}
