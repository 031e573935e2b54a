//! Runs the instructions of a filter on packets: for filters that are kept in memory of the caller.
ghost use Rattle.std.specs.Prelude.{◌≡◌, ◌↔◌, ◌+◌, ◌<◌, ◌≤◌, ◌&&◌, ℕ, List, Bool, true, false, IsTrue, IfNone, IfSome, None, Some, length, reverse};
ghost use Rattle.arrayvec.specs.ArrayVec.{array_vec_len};
ghost use Rattle.etherparse.specs.Bytes.{IsBytes};
ghost use Rattle.etherparse.specs.Header.{Header};
ghost use Rattle.ether_peel.specs.Grammar.Stack.{Ending, Walk};
ghost use Rattle.ether_peel.specs.Walker.Start.{start_of};
ghost use Rattle.ether_filter.specs.declared.primitive.Primitive.{Primitive};
ghost use Rattle.ether_filter.specs.Primitives.{walked, Matches};
ghost use Rattle.ether_filter.specs.Jumps.{LeadsOn, Misses, MissesIds, MissesMore, MissesSeen};
ghost use Rattle.ether_filter.specs.Expressions.{Expression, Holds};
ghost use Rattle.ether_filter.specs.Postfix.{postfix, pushed};
ghost use Rattle.ether_filter.specs.FilterProgram.{IsProgramOf, primitive_of};
ghost use Rattle.ether_filter.specs.Certain.{AreCertain};
ghost use Rattle.ether_filter.specs.CutWalks.{FitsEnd};
ghost use Rattle.ether_filter.specs.Evaluation.{AreValues, IsOpening, IsValue};
ghost use Rattle.ether_filter.specs.Seen.{Shows};
ghost use Rattle.ether_filter.specs.Deciding.{Says};

use crate::certain::{Certain, decide_test, find_certain};
use crate::deciding::{Opening, find_opening, joined_decision, negated_decision};
use crate::decision::Decision;
use crate::filter::MAX_WORDS;
use crate::instruction::Instruction;
use crate::jumps::{HOLDS, jumps_of, past_tags};
use crate::matching::{matches_capture, matches_instruction};
use crate::node::Node;
use crate::packet::Packet;
use crate::seen::{Seen, Tags, look, tags_seen};
use crate::tag_marks::WORDS;
use arrayvec::ArrayVec;

/// Returns `true` if a packet matches the filter of these instructions, as [`Filter::matches`](crate::Filter::matches)
/// says.
///
/// If the instructions are not those of a filter, nothing is claimed of the result.
///
/// ```
/// let frame = [
///     0xFF, 0xFF, 0xFF, 0xFF, 0xFF, 0xFF, 0x02, 0x00, 0x00, 0x00, 0x00, 0x01, 0x81, 0x00, // Ethernet II
///     0x00, 0x05, 0x08, 0x06, // VLAN
/// ];
/// let packet = Packet {
///     start: Start::Ethernet2,
///     frame: &frame,
///     captured_len: 18,
///     original_len: 64,
///     time: None,
/// };
/// let filter = Filter::parse(b"vlan 5 and not ip")?;
/// assert!(rt; filter_program::matches(filter.instructions(), &packet));
/// ```
#[inline(always)]
pub fn matches(instructions: &[Instruction], packet: &Packet<'_>) -> bool
    ensures { (x : Expression) → IsProgramOf instructions.now x → (hs : List Header) (e : Ending)
        → Walk (start_of packet.now.start) packet.now.frame.now hs e → IsTrue result
        ↔ Holds x (walked packet.now hs e) }
{
    if let Some(matches) = matches_by_lengths(instructions, packet) {
        return matches;
    }
    let mut ids = [];
    let mut seen = Seen::new();
    look(packet.start, packet.frame, &mut seen, &mut ids);
    if seen.has_more {
        return matches_by_ids(instructions, *packet);
    }
    matches_seen(instructions, packet, &seen, &ids)
}

/// Whether a packet matches, if what the capture says of it decides this.
#[inline(always)]
fn matches_by_lengths(instructions: &[Instruction], packet: &Packet<'_>) -> Option<bool>
    ensures { (truth : Bool) → result ≡ Some truth → (x : Expression) → IsProgramOf instructions.now x
        → (hs : List Header) (e : Ending) → IsTrue truth ↔ Holds x (walked packet.now hs e) }
{
    let [first, ..] = instructions else {
        return None;
    };
    matches_capture(first, packet)?;
    jumps_by_lengths(instructions, *packet)
}

/// .. by the primitives from left to right, up to the first one that asks about headers.
#[inline(never)]
fn jumps_by_lengths(instructions: &[Instruction], packet: Packet<'_>) -> Option<bool>
    ensures { (truth : Bool) → result ≡ Some truth → (x : Expression) → IsProgramOf instructions.now x
        → (hs : List Header) (e : Ending) → IsTrue truth ↔ Holds x (walked packet.entry hs e) }
{
    let mut at = 0;
    while at < instructions.len() {
        let instruction = &instructions[at];
        let next = instruction
            .jump
            .after(matches_capture(instruction, &packet)?);
        if next <= at {
            return None; // not reached: each jump leads forward
        }
        at = past_more(instructions, next, packet.original_len);
    }
    Some(at == usize::from(HOLDS))
}

/// Where the evaluation goes on from the index `begin`, past primitives that ask for more bytes than these.
#[inline]
fn past_more(instructions: &[Instruction], begin: usize, len: u32) -> usize
    ensures forward { begin ≤ result }
    ensures reaches { (x : Expression) (p : IsProgramOf instructions.now x)
        → LeadsOn x p.jumps (MissesMore len) begin result }
{
    let mut at = begin;
    while at < instructions.len() && instructions[at].asks_more(len) {
        let next = instructions[at].jump.after(false);
        if next <= at {
            return at; // not reached: each jump leads forward
        }
        at = next;
    }
    at
}

/// Whether a packet matches, however many VLAN tags it has.
#[cold]
#[inline(never)]
fn matches_by_ids(instructions: &[Instruction], packet: Packet<'_>) -> bool
    ensures { (x : Expression) → IsProgramOf instructions.now x → (hs : List Header) (e : Ending)
        → Walk (start_of packet.entry.start) packet.entry.frame.now hs e → IsTrue result
        ↔ Holds x (walked packet.entry hs e) }
{
    let mut ids = [0; WORDS];
    let mut seen = Seen::new();
    look(packet.start, packet.frame, &mut seen, &mut ids);
    matches_seen(instructions, &packet, &seen, &ids)
}

/// Whether a packet matches in which this was seen.
#[inline(always)]
fn matches_seen(instructions: &[Instruction], packet: &Packet<'_>, seen: &Seen, ids: &[u64]) -> bool
    ensures { (x : Expression) → IsProgramOf instructions.now x → (hs : List Header) (e : Ending)
        → Walk (start_of packet.now.start) packet.now.frame.now hs e
        → Shows (walked packet.now hs e) seen.now ids.now → IsTrue result ↔ Holds x (walked packet.now hs e) }
{
    if let [instruction] = instructions {
        if let Some(matches) = matches_instruction(instruction, packet, seen, ids) {
            return matches;
        }
    }
    matches_by_jumps(instructions, packet, seen, ids)
}

/// .. by the primitives from left to right that decide this.
#[inline(always)]
fn matches_by_jumps(
    instructions: &[Instruction],
    packet: &Packet<'_>,
    seen: &Seen,
    ids: &[u64],
) -> bool
    ensures { (x : Expression) → IsProgramOf instructions.now x → (hs : List Header) (e : Ending)
        → Walk (start_of packet.now.start) packet.now.frame.now hs e
        → Shows (walked packet.now hs e) seen.now ids.now → IsTrue result ↔ Holds x (walked packet.now hs e) }
{
    let mut at = 0;
    while at < instructions.len() {
        let instruction = &instructions[at];
        let Some(matches) = matches_instruction(instruction, packet, seen, ids) else {
            return false; // not reached: each jump leads to a primitive
        };
        let next = instruction.jump.after(matches);
        if next <= at {
            return false; // not reached: each jump leads forward
        }
        at = past_misses(instructions, next, seen, ids);
    }
    at == usize::from(HOLDS)
}

/// Where the evaluation goes on from the index `begin`, past primitives that the VLAN tags that were seen don't match.
#[inline]
fn past_misses(instructions: &[Instruction], begin: usize, seen: &Seen, ids: &[u64]) -> usize
    ensures forward { begin ≤ result }
    ensures reaches { (x : Expression) (p : IsProgramOf instructions.now x)
        → LeadsOn x p.jumps (MissesSeen seen.now ids.now) begin result }
{
    match tags_seen(seen) {
        Tags::Untagged => past_all(instructions, begin),
        Tags::One(id) => past_others(instructions, begin, id),
        Tags::Many => past_unseen(instructions, begin, seen, ids),
    }
}

/// .. past primitives that ask for VLAN tags, if there are none.
#[inline(never)]
fn past_all(instructions: &[Instruction], begin: usize) -> usize
    ensures forward { begin ≤ result }
    ensures reaches { (x : Expression) (p : IsProgramOf instructions.now x)
        → LeadsOn x p.jumps (Misses Tags.Untagged) begin result }
{
    let mut at = begin;
    while at < instructions.len() && instructions[at].asks_tags() {
        let next = usize::from(instructions[at].past_tags);
        if next <= at {
            return at; // not reached: each jump leads forward
        }
        at = next;
    }
    at
}

/// .. past primitives that ask for another identifier than that of the only VLAN tag.
#[inline(never)]
fn past_others(instructions: &[Instruction], begin: usize, id: u16) -> usize
    ensures forward { begin ≤ result }
    ensures reaches { (x : Expression) (p : IsProgramOf instructions.now x)
        → LeadsOn x p.jumps (Misses (Tags.One id)) begin result }
{
    let mut at = begin;
    while at < instructions.len() && instructions[at].asks_other_id(id) {
        let next = instructions[at].jump.after(false);
        if next <= at {
            return at; // not reached: each jump leads forward
        }
        at = next;
    }
    at
}

/// .. past primitives that ask for an identifier that no VLAN tag has.
#[inline(never)]
fn past_unseen(instructions: &[Instruction], begin: usize, seen: &Seen, ids: &[u64]) -> usize
    ensures forward { begin ≤ result }
    ensures reaches { (x : Expression) (p : IsProgramOf instructions.now x)
        → LeadsOn x p.jumps (MissesIds seen.now ids.now) begin result }
{
    let seen = *seen;
    let mut at = begin;
    while at < instructions.len() && instructions[at].asks_unseen_id(&seen, ids) {
        let next = instructions[at].jump.after(false);
        if next <= at {
            return at; // not reached: each jump leads forward
        }
        at = next;
    }
    at
}

/// Decides whether a packet matches the filter of these instructions if some of its bytes may be missing, as
/// [`Filter::decide`](crate::Filter::decide) says.
///
/// If the instructions are not those of a filter, nothing is claimed of the result.
pub fn decide(instructions: &[Instruction], packet: &Packet<'_>) -> Decision
    ensures says { (x : Expression) → IsProgramOf instructions.now x → (hs : List Header) (e : Ending)
        → Walk (start_of packet.now.start) packet.now.frame.now hs e
        → (d : Decision) → (result ≡ d) ↔ Says packet.now hs e x d }
    ensures bytes { IsBytes packet.now.frame.now }
{
    let mut ids = [];
    let mut seen = Seen::new();
    let certain = find_certain(packet, &mut seen, &mut ids);
    if seen.has_more {
        return decide_by_ids(instructions, *packet);
    }
    decide_all(instructions, packet, certain, &seen, &ids)
}

/// .. however many VLAN tags the packet has.
#[cold]
#[inline(never)]
fn decide_by_ids(instructions: &[Instruction], packet: Packet<'_>) -> Decision
    ensures says { (x : Expression) → IsProgramOf instructions.now x → (hs : List Header) (e : Ending)
        → Walk (start_of packet.entry.start) packet.entry.frame.now hs e
        → (d : Decision) → (result ≡ d) ↔ Says packet.entry hs e x d }
    ensures bytes { IsBytes packet.entry.frame.now }
{
    let mut ids = [0; WORDS];
    let mut seen = Seen::new();
    let certain = find_certain(&packet, &mut seen, &mut ids);
    decide_all(instructions, &packet, certain, &seen, &ids)
}

/// .. if this is certain, and was seen in its certain headers.
fn decide_all(
    instructions: &[Instruction],
    packet: &Packet<'_>,
    certain: Certain<'_>,
    seen: &Seen,
    ids: &[u64],
) -> Decision
    requires fits { FitsEnd certain.end }
    ensures says { (x : Expression) → IsProgramOf instructions.now x → (hs : List Header) (e : Ending)
        → Walk (start_of packet.now.start) packet.now.frame.now hs e
        → AreCertain packet.now seen.now ids.now certain.entry
        → (d : Decision) → (result ≡ d) ↔ Says packet.now hs e x d }
    ensures bytes { IsBytes packet.now.frame.now }
{
    let opening = find_opening(packet);
    let mut values = ArrayVec::new();
    for instruction in instructions {
        if values.is_full() {
            return Decision::Fails; // not reached: a filter has at most as many instructions as there is room for
        }
        let Some(node) = instruction.node() else {
            return Decision::Fails; // not reached: each instruction has a node
        };
        decide_node(&mut values, node, packet, certain, seen, ids, opening);
    }
    values.pop().unwrap_or(Decision::Fails)
}

/// The instructions of an expression's nodes.
pub(crate) fn instructions_of(nodes: &[Node]) -> ArrayVec<Instruction, MAX_WORDS>
    requires { length nodes.now ≤ MAX_WORDS }
    ensures { (x : Expression) → nodes.now ≡ postfix x → IsProgramOf result.items x }
{
    let jumps = jumps_of(nodes);
    let past_tags = past_tags(nodes, &jumps);
    let mut instructions = ArrayVec::new();
    for (at, node) in nodes.iter().enumerate() {
        instructions.push(Instruction::of(*node, jumps[at], past_tags[at]));
    }
    instructions
}

/// Evaluates one postfix node: pops its operands' values and pushes its own.
fn decide_node(
    values: &mut ArrayVec<Decision, MAX_WORDS>,
    node: Node,
    packet: &Packet<'_>,
    certain: Certain<'_>,
    seen: &Seen,
    ids: &[u64],
    opening: Option<Opening>,
)
    requires fits { FitsEnd certain.end }
    requires room { array_vec_len values.old < MAX_WORDS }
    ensures len { array_vec_len values.new ≤ array_vec_len values.old + 1 }
    ensures values { (hs : List Header) (e : Ending) → Walk (start_of packet.now.start) packet.now.frame.now hs e
        → IsBytes packet.now.frame.now → AreCertain packet.now seen.now ids.now certain.entry
        → IsOpening packet.now e opening → (xs : List Expression)
        → AreValues (IsValue packet.now hs e) (reverse values.old.items) xs
        → AreValues (IsValue packet.now hs e) (reverse values.new.items) (pushed xs node) }
{
    match node {
        Node::Test(primitive) => {
            values.push(decide_test(primitive, packet, certain, seen, ids, opening));
        }
        Node::Not => {
            if let Some(value) = values.pop() {
                values.push(negated_decision(value));
            }
        }
        Node::Join(operator) => {
            let right = values.pop();
            let left = values.pop();
            if let (Some(left), Some(right)) = (left, right) {
                values.push(joined_decision(operator, left, right));
            }
        }
    }
}
