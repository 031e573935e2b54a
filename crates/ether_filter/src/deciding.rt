//! Decisions on tests of fields and on joined expressions, if not all bytes of a packet were captured.
ghost use Rattle.std.specs.Prelude.{◌≡◌, ◌↔◌, ◌<◌, ◌^◌, List, Some, IsTrue, length};
ghost use Rattle.etherparse.specs.Bytes.{IsBytes};
ghost use Rattle.etherparse.specs.Header.{Header};
ghost use Rattle.ether_peel.specs.Grammar.Expectation.{has_fcs as has_fcs_of};
ghost use Rattle.ether_peel.specs.Grammar.Stack.{Ending, Walk};
ghost use Rattle.ether_peel.specs.Walker.Start.{start_of};
ghost use Rattle.ether_filter.specs.declared.primitive.Primitive.TheVariants as primitives;
ghost use Rattle.ether_filter.specs.Expressions.{Test};
ghost use Rattle.ether_filter.specs.FieldTests.{field_holds};
ghost use Rattle.ether_filter.specs.Deciding.{lost as lost_of, is_of_link as is_of_link_of, can_tell as can_tell_of, asks_any as asks_any_of, IsFieldKnown, Says};
ghost use Rattle.ether_filter.specs.Evaluation.{decided as decided_of, IsRefusedUnit, IsOpening, joined_decision as joined_decision_of, negated_decision as negated_decision_of};

use crate::decision::Decision;
use crate::field_match::matches_field;
use crate::field_test::{FieldTest, Relation};
use crate::node::Operator;
use crate::packet::Packet;
use crate::primitive::Primitive;
use ether_peel::{PeelError, Start, summary};
use etherparse::err::Layer;

/// A length of the frame with which a packet might have further headers.
#[derive(Clone, Copy)]
pub(crate) struct Opening {
    pub needed: usize,
    /// The layer of the unit that is refused for want of bytes. `None` if the frame ends in a frame check sequence,
    /// whose place is known only in the whole frame.
    pub layer: Option<Layer>,
}

/// The length with which a packet might have further headers; `None` if its headers are known.
pub(crate) fn find_opening(packet: &Packet<'_>) -> Option<Opening>
    ensures bytes { IsBytes packet.now.frame.now }
    ensures opening { (hs : List Header) (e : Ending) → Walk (start_of packet.now.start) packet.now.frame.now hs e
        → IsOpening packet.now e result }
{
    let len = frame_len(packet.frame);
    let lost = lost(packet);
    if lost == 0 {
        return None;
    }
    if has_fcs(packet.start) {
        return Some(Opening {
            needed: len.saturating_add(lost),
            layer: None,
        });
    }
    let (missing, layer) = refused_unit(packet.start, packet.frame)?;
    if missing > lost {
        return None;
    }
    Some(Opening {
        needed: len.saturating_add(missing),
        layer: Some(layer),
    })
}

/// The number of bytes of a frame.
fn frame_len(frame: &[u8]) -> usize
    ensures value { result ≡ length frame.now }
    ensures bytes { IsBytes frame.now }
{
    frame.len()
}

/// The number of bytes that are missing at the end of a frame, and the layer of the unit that needs them. `None` if
/// more bytes would not help.
fn refused_unit(start: Start, frame: &[u8]) -> Option<(usize, Layer)>
    ensures { (hs : List Header) (e : Ending) → Walk (start_of start) frame.now hs e
        → IsRefusedUnit frame.now e result }
{
    let fault = summary(start, frame).fault?;
    let missing = fault.missing()?;
    match &fault.error {
        PeelError::Len(error) => Some((missing, error.layer)),
        _ => None,
    }
}

/// Whether a frame ends in a frame check sequence.
pub(crate) fn has_fcs(start: Start) -> bool
    ensures { result ≡ has_fcs_of (start_of start) }
{
    matches!(start, Start::Ethernet2Fcs)
}

/// The number of bytes of a packet that were not captured.
pub(crate) fn lost(packet: &Packet<'_>) -> usize
    ensures value { result ≡ lost_of packet.now }
    ensures within { result < 2 ^ 32 }
{
    (packet.original_len as usize).saturating_sub(packet.captured_len)
}

/// The decision of a truth that no missing bytes change.
pub(crate) fn decided(truth: bool) -> Decision
    ensures { result ≡ decided_of truth }
{
    if truth {
        Decision::Matches
    } else {
        Decision::Fails
    }
}

/// Decides a test of a field by the headers so far.
pub(crate) fn decide_field(
    test: FieldTest,
    packet: &Packet<'_>,
    opening: Option<Opening>,
) -> Decision
    ensures { (hs : List Header) (e : Ending) → Walk (start_of packet.now.start) packet.now.frame.now hs e
        → IsOpening packet.now e opening → Says packet.now hs e (Test (primitives.Field test)) result }
{
    let holds = matches_field(test, packet.start, packet.frame);
    if let Some(opening) = opening {
        if !is_known(test, holds, opening) {
            return Decision::Needs(opening.needed);
        }
    }
    decided(holds)
}

/// Whether it is known if a test of a field holds for an open packet. `holds` says whether it does for the headers so
/// far.
fn is_known(test: FieldTest, holds: bool, opening: Opening) -> bool
    ensures { (packet : Packet) (hs : List Header) (e : Ending) → Walk (start_of packet.start) packet.frame.now hs e
        → holds ≡ field_holds test hs → IsOpening packet e (Some opening)
        → IsTrue result ↔ IsFieldKnown packet hs e test }
{
    match opening.layer {
        Some(layer) => !can_tell(layer, test) || asks_any(test.relation) && holds,
        None => false,
    }
}

/// Whether a test of a field can depend on a unit of this layer, or on one after it. Fields with the numbers up to 3 are
/// of an Ethernet II header.
fn can_tell(layer: Layer, test: FieldTest) -> bool
    ensures { result ≡ can_tell_of layer test }
{
    match layer {
        Layer::Ethernet2Header => true,
        _ => test.field > 3,
    }
}

/// Whether a primitive asks about an Ethernet II header, whose fields have the numbers up to 3.
pub(crate) fn is_of_link(primitive: Primitive) -> bool
    ensures { result ≡ is_of_link_of primitive }
{
    match primitive {
        Primitive::Source(_)
        | Primitive::Destination(_)
        | Primitive::Host(_)
        | Primitive::Broadcast
        | Primitive::Multicast => true,
        Primitive::Field(test) => test.field <= 3,
        _ => false,
    }
}

/// Whether a test with this relation asks whether any value has it.
fn asks_any(relation: Relation) -> bool
    ensures { result ≡ asks_any_of relation }
{
    !matches!(relation, Relation::NotEqual)
}

/// The decision on two joined operands, in Kleene's logic.
pub(crate) fn joined_decision(operator: Operator, left: Decision, right: Decision) -> Decision
    ensures { result ≡ joined_decision_of operator left right }
{
    match operator {
        Operator::And => both(left, right),
        Operator::Or => either(left, right),
    }
}

/// .. by `and`.
fn both(left: Decision, right: Decision) -> Decision
    ensures { result ≡ joined_decision_of Operator.And left right }
{
    match (left, right) {
        (Decision::Needs(left), Decision::Needs(right)) => Decision::Needs(left.min(right)),
        (Decision::Needs(len), Decision::Matches) | (Decision::Matches, Decision::Needs(len)) => {
            Decision::Needs(len)
        }
        (Decision::Matches, Decision::Matches) => Decision::Matches,
        _ => Decision::Fails,
    }
}

/// .. by `or`.
fn either(left: Decision, right: Decision) -> Decision
    ensures { result ≡ joined_decision_of Operator.Or left right }
{
    match (left, right) {
        (Decision::Needs(left), Decision::Needs(right)) => Decision::Needs(left.min(right)),
        (Decision::Needs(len), Decision::Fails) | (Decision::Fails, Decision::Needs(len)) => {
            Decision::Needs(len)
        }
        (Decision::Fails, Decision::Fails) => Decision::Fails,
        _ => Decision::Matches,
    }
}

/// The decision on an expression after `not`.
pub(crate) fn negated_decision(decision: Decision) -> Decision
    ensures { result ≡ negated_decision_of decision }
{
    match decision {
        Decision::Matches => Decision::Fails,
        Decision::Fails => Decision::Matches,
        Decision::Needs(len) => Decision::Needs(len),
    }
}
