//! What a primitive decides, by what is certain of a packet that was cut short.
ghost use Rattle.std.specs.Prelude.{◌≡◌, ◌↔◌, ◌<◌, ◌≤◌, ◌^◌, IsTrue, List, is_some, false, length};
ghost use Rattle.etherparse.specs.Bytes.{IsBytes};
ghost use Rattle.etherparse.specs.Header.{Header};
ghost use Rattle.ether_peel.specs.Grammar.Stack.{Ending};
ghost use Rattle.ether_filter.specs.Deciding.{is_of_field, lost as lost_of, Says};
ghost use Rattle.ether_filter.specs.Expressions.{Test};
ghost use Rattle.ether_filter.specs.Possible.{AreTold};
ghost use Rattle.ether_filter.specs.Primitives.{Matches, Walked, frame_in, frame_of};
ghost use Rattle.ether_filter.specs.Prospects.{IsCut, IsOpen, kind_named};
ghost use Rattle.ether_filter.specs.Seen.{Shows};
ghost use Rattle.ether_filter.specs.CutWalks.{FitsEnd, IsCutWalk};
ghost use Rattle.ether_filter.specs.declared.packet.Packet.{Packet as PacketOf};

use crate::cut_walk::{CutEnd, CutUnit};
use crate::deciding::{decided, lost};
use crate::decision::Decision;
use crate::instruction::of_primitive;
use crate::least::least;
use crate::matching::matches_capture;
use crate::packet::Packet;
use crate::possible::{Told, possible};
use crate::primitive::Primitive;
use crate::seen::{Seen, is_seen};

/// Whether a primitive that tests no field matches a packet in which this was seen.
pub(crate) fn matches_seen(
    primitive: Primitive,
    packet: &Packet<'_>,
    seen: &Seen,
    ids: &[u64],
) -> bool
    ensures { is_of_field primitive ≡ false → (w : Walked) → frame_in w ≡ frame_of packet.now
        → Shows w seen.now ids.now → IsTrue result ↔ Matches primitive w }
{
    let instruction = of_primitive(primitive);
    if let Some(matches) = is_seen(&instruction, seen, ids) {
        return matches;
    }
    let Some(matches) = matches_capture(&instruction, packet) else {
        return false; // not reached: it tests a field
    };
    matches
}

/// Whether there is a VLAN tag.
fn has_tag(seen: &Seen) -> bool
    ensures { result ≡ is_some seen.now.outer }
{
    seen.outer.is_some()
}

/// Decides a primitive that tests no field, where a frame of `len` bytes ends in this unit, and `lost` bytes are missing.
fn decide_open(
    primitive: Primitive,
    told: Told,
    unit: CutUnit<'_>,
    len: usize,
    lost: usize,
) -> Decision
    requires cut { IsCut unit.kind unit.known.now }
    requires inside { length unit.known.now ≤ unit.room }
    requires short { len < 2 ^ 63 }
    requires few { lost < 2 ^ 32 }
    ensures { is_of_field primitive ≡ false → (packet : PacketOf) (hs : List Header)
        → IsBytes packet.frame.now → length packet.frame.now ≡ len → lost_of packet ≡ lost
        → IsOpen packet hs (kind_named unit.entry.kind) unit.entry.known.now unit.entry.room
        → AreTold packet hs primitive told
        → (ks : List Header) (e : Ending) → Says packet ks e (Test primitive) result }
{
    let can = possible(primitive, told, unit.kind, unit.known, unit.room);
    if !can.fails {
        return Decision::Matches;
    }
    if !can.matches {
        return Decision::Fails;
    }
    let needed = least(primitive, told, unit.kind, unit.known, unit.room);
    let further = needed.saturating_sub(unit.known.len());
    Decision::Needs(len + further.min(lost))
}

/// Decides a primitive that tests no field. The certain headers of the packet end so, and this was seen in them.
pub(crate) fn decide_seen(
    primitive: Primitive,
    packet: &Packet<'_>,
    seen: &Seen,
    ids: &[u64],
    end: CutEnd<'_>,
) -> Decision
    requires fits { FitsEnd end }
    ensures { is_of_field primitive ≡ false → IsBytes packet.now.frame.now
        → IsCutWalk packet.now seen.now ids.now end.entry → (hs : List Header) (e : Ending)
        → Says packet.now hs e (Test primitive) result }
{
    let is_match = matches_seen(primitive, packet, seen, ids);
    match end {
        CutEnd::Open(unit) => {
            let told = Told {
                is_match,
                has_tag: has_tag(seen),
            };
            decide_open(primitive, told, unit, packet.frame.len(), lost(packet))
        }
        CutEnd::Refused | CutEnd::Accepted => decided(is_match),
    }
}
