//! Whether a primitive matches a packet.
ghost use Rattle.std.specs.Prelude.{◌≡◌, ◌↔◌, List, Some, None, IfSome, IfNone, IsTrue};
ghost use Rattle.std.specs.Option.{option_map};
ghost use Rattle.etherparse.specs.Header.{Header};
ghost use Rattle.ether_peel.specs.Grammar.Stack.{Ending, Walk};
ghost use Rattle.ether_peel.specs.Walker.Start.{start_of};
ghost use Rattle.ether_filter.specs.declared.primitive.Primitive.{Primitive};
ghost use Rattle.ether_filter.specs.FieldTests.{frame_holds};
ghost use Rattle.ether_filter.specs.FilterProgram.{capture_truth, frame_test_of, primitive_numbered, primitive_of};
ghost use Rattle.ether_filter.specs.Primitives.{Matches, frame_of, walked};
ghost use Rattle.ether_filter.specs.Seen.{length_truth, Shows};

use crate::field_match::{matches_field, matches_frame};
use crate::instruction::{FRAME_KINDS, Instruction, LENGTH_KINDS};
use crate::packet::Packet;
use crate::seen::{Seen, is_seen};

/// Whether the primitive of an instruction matches a packet in which this was seen; `None` for an operator.
#[inline(always)]
pub(crate) fn matches_instruction(
    instruction: &Instruction,
    packet: &Packet<'_>,
    seen: &Seen,
    ids: &[u64],
) -> Option<bool>
    ensures none { IfNone result (primitive_of instruction.now ≡ None) }
    ensures some { IfSome result (λ truth. (p : Primitive) × (primitive_of instruction.now ≡ Some p)
        × ((hs : List Header) (e : Ending) → Walk (start_of packet.now.start) packet.now.frame.now hs e
        → Shows (walked packet.now hs e) seen.now ids.now → IsTrue truth ↔ Matches p (walked packet.now hs e))) }
{
    if let Some(matches) = is_seen(instruction, seen, ids) {
        return Some(matches);
    }
    if let Some(matches) = matches_capture(instruction, packet) {
        return Some(matches);
    }
    match instruction.field_test() {
        Some(test) => Some(matches_field(test, packet.start, packet.frame)),
        None => None,
    }
}

/// Whether the primitive of an instruction matches a packet, if it asks what the capture says of the packet; else
/// `None`.
#[inline(always)]
pub(crate) fn matches_capture(instruction: &Instruction, packet: &Packet<'_>) -> Option<bool>
    ensures { result ≡ capture_truth instruction.now (frame_of packet.now) }
{
    if instruction.kind < LENGTH_KINDS {
        return None;
    }
    if instruction.kind >= FRAME_KINDS {
        return matches_frame_test(instruction, *packet);
    }
    matches_lengths(instruction, packet)
}

/// .. if it tests a field of the capture's.
#[inline(never)]
fn matches_frame_test(instruction: &Instruction, packet: Packet<'_>) -> Option<bool>
    ensures { result ≡ option_map (λ t. frame_holds t (frame_of packet.entry)) (frame_test_of instruction.now) }
{
    match instruction.frame_test() {
        Some(test) => Some(matches_frame(test, &packet)),
        None => None,
    }
}

/// .. if it has a word of its own, as `cut`.
#[inline(always)]
fn matches_lengths(instruction: &Instruction, packet: &Packet<'_>) -> Option<bool>
    ensures { result ≡ length_truth (primitive_numbered instruction.now.kind instruction.now.operand)
        packet.now.captured_len packet.now.original_len }
{
    let len = (instruction.operand % (1 << 32)) as u32;
    match instruction.kind {
        12 => Some(packet.captured_len < packet.original_len as usize),
        13 => Some(packet.original_len <= len),
        14 => Some(packet.original_len >= len),
        _ => None,
    }
}
