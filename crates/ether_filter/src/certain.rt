//! Decisions on primitives, by what is certain of a packet that was cut short.
ghost use Rattle.std.specs.Prelude.{◌≡◌, ◌≤◌, ℕ, List, IsTrue, length, false};
ghost use Rattle.etherparse.specs.Bytes.{IsBytes};
ghost use Rattle.etherparse.specs.Header.{Header};
ghost use Rattle.ether_peel.specs.Grammar.Expectation.{has_fcs as has_fcs_of};
ghost use Rattle.ether_peel.specs.Grammar.Stack.{Ending, Walk};
ghost use Rattle.ether_peel.specs.Walker.Start.{start_of};
ghost use Rattle.ether_filter.specs.Certain.{AreCertain};
ghost use Rattle.ether_filter.specs.CutWalks.{FitsEnd, IsCutWalk};
ghost use Rattle.ether_filter.specs.Deciding.{Says};
ghost use Rattle.ether_filter.specs.Evaluation.{IsOpening};
ghost use Rattle.ether_filter.specs.Expressions.{Test};
ghost use Rattle.ether_filter.specs.Seen.{nothing};
ghost use Rattle.ether_filter.specs.TagMarks.{has_bit};

use crate::cut_walk::{CutEnd, cut_walk};
use crate::deciding::{Opening, decide_field, decided, has_fcs};
use crate::decision::Decision;
use crate::instruction::of_primitive;
use crate::matching::matches_capture;
use crate::outcome::decide_seen;
use crate::packet::Packet;
use crate::primitive::Primitive;
use crate::seen::Seen;
use crate::without_fcs::{frame_total, without_fcs};

/// What is certain of a packet that was cut short.
#[derive(Clone, Copy)]
pub(crate) struct Certain<'a> {
    /// The packet without a frame check sequence.
    pub packet: Packet<'a>,
    /// How its certain headers end.
    pub end: CutEnd<'a>,
}

/// Walks through a packet as far as its headers are certain. Keeps what they show as `look` does.
pub(crate) fn find_certain<'a>(packet: &Packet<'a>, seen: &mut Seen, ids: &mut [u64]) -> Certain<'a>
    ensures fits { FitsEnd result.end }
    ensures certain { seen.old ≡ nothing → ((n : ℕ) → has_bit ids.old n ≡ false)
        → (IsTrue seen.new.has_more → 64 ≤ length ids.old) → AreCertain packet.now seen.new ids.new result }
{
    if !has_fcs(packet.start) {
        return certain_of(*packet, seen, ids);
    }
    match without_fcs(packet) {
        Some(plain) => certain_of(plain, seen, ids),
        None => {
            seen.is_refused = true;
            Certain {
                packet: *packet,
                end: CutEnd::Refused,
            }
        }
    }
}

/// .. through a packet without a frame check sequence.
fn certain_of<'a>(plain: Packet<'a>, seen: &mut Seen, ids: &mut [u64]) -> Certain<'a>
    ensures fits { FitsEnd result.end }
    ensures packet { result.packet ≡ plain.entry }
    ensures walk { has_fcs_of (start_of plain.entry.start) ≡ false → seen.old ≡ nothing
        → ((n : ℕ) → has_bit ids.old n ≡ false) → (IsTrue seen.new.has_more → 64 ≤ length ids.old)
        → IsCutWalk plain.entry seen.new ids.new result.end }
{
    let total = frame_total(&plain);
    let end = cut_walk(plain.start, plain.frame, total, seen, ids);
    Certain { packet: plain, end }
}

/// Decides a primitive.
pub(crate) fn decide_test(
    primitive: Primitive,
    packet: &Packet<'_>,
    certain: Certain<'_>,
    seen: &Seen,
    ids: &[u64],
    opening: Option<Opening>,
) -> Decision
    requires fits { FitsEnd certain.end }
    ensures { (hs : List Header) (e : Ending) → Walk (start_of packet.now.start) packet.now.frame.now hs e
        → IsBytes packet.now.frame.now → AreCertain packet.now seen.now ids.now certain.entry
        → IsOpening packet.now e opening → Says packet.now hs e (Test primitive) result }
{
    if let Primitive::Field(test) = primitive {
        return decide_field(test, packet, opening);
    }
    if let Some(matches) = matches_capture(&of_primitive(primitive), packet) {
        return decided(matches);
    }
    decide_seen(primitive, &certain.packet, seen, ids, certain.end)
}
