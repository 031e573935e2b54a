//! The number of bytes that the headers of a frame take.
ghost use Rattle.std.specs.Prelude.{◌≡◌, ◌+◌, ◌≤◌, List, length, is_some, false, if◌then◌else◌};
ghost use Rattle.etherparse.specs.Header.{Header, payload_len};
ghost use Rattle.ether_peel.specs.Grammar.Cuts.{reach};
ghost use Rattle.ether_peel.specs.Grammar.Expectation.{has_fcs};
ghost use Rattle.ether_peel.specs.Grammar.Stack.{Ending, Walk};
ghost use Rattle.ether_peel.specs.Walker.Start.{start_of};
ghost use Rattle.ether_peel.specs.Walker.UnitHeader.{unit_header};
ghost use Rattle.ether_packet.specs.Getters.{IsLeastSnap};

use ether_peel::{Peel, PeelUnit, Start};

/// The number of bytes that the headers of a frame take, with the payloads whose lengths they give: the least snap
/// length that keeps all of them. There may be any number of headers;
/// [`PacketSlice::min_snap_len`](crate::PacketSlice::min_snap_len) counts only those that a packet holds.
///
/// A frame check sequence is not counted, nor is a header that is refused.
///
/// ```
/// let frame = [
///     0xFF, 0xFF, 0xFF, 0xFF, 0xFF, 0xFF, 0x02, 0x00, 0x00, 0x00, 0x00, 0x01, 0x81, 0x00, // Ethernet II
///     0xB1, 0x23, 0x08, 0x00, // VLAN
///     0x45, 0x00,
/// ];
/// assert_eq!(rt; min_snap_len(Start::Ethernet2, &frame), 18);
/// ```
pub fn min_snap_len(start: Start, frame: &[u8]) -> usize
    ensures value { (hs : List Header) (e : Ending) → Walk (start_of start) frame.now hs e
        → result ≡ reach 0 hs }
    ensures least { has_fcs (start_of start) ≡ false → (hs : List Header) (e : Ending)
        → Walk (start_of start) frame.now hs e → IsLeastSnap (start_of start) frame.now hs result }
    ensures within { result ≤ length frame.now }
{
    reached(start, frame)
}

/// The offset at which the headers of a frame end, with the payloads whose lengths they give.
#[inline(always)]
fn reached(start: Start, frame: &[u8]) -> usize
    ensures value { (hs : List Header) (e : Ending) → Walk (start_of start) frame.now hs e
        → result ≡ reach 0 hs }
    ensures within { result ≤ length frame.now }
{
    let mut peel = Peel::new(start, frame);
    let mut len = 0;
    loop {
        match peel.next() {
            Some(Ok(unit)) => len = unit_end(&unit, &peel).max(len),
            Some(Err(_)) => return len,
            None => return len,
        }
    }
}

/// The offset at which the unit ends that a walk has just returned, with its payload if the unit gives the payload's
/// length.
#[inline(always)]
fn unit_end(unit: &PeelUnit<'_>, peel: &Peel<'_>) -> usize
    ensures { result ≡ peel.now.offset
        + (if is_some (payload_len (unit_header unit.now)) then length peel.now.rest else 0) }
{
    match unit {
        PeelUnit::Macsec(packet) if packet.header.expected_payload_len().is_some() => {
            peel.offset() + peel.rest().len()
        }
        _ => peel.offset(),
    }
}
