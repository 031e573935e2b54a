//! Applies filters that are kept in memory of the caller to captured packets.
ghost use Rattle.std.specs.Prelude.{◌≡◌, ◌↔◌, ◌<◌, Bool, Option, length, IsTrue};
ghost use Rattle.std.specs.Option.{option_map};
ghost use Rattle.ether_filter.specs.Expressions.{Expression};
ghost use Rattle.ether_filter.specs.FilterProgram.{IsProgramOf};
ghost use Rattle.ether_pcap.specs.CaptureViews.{captured_packet_view};
ghost use Rattle.ether_peel.specs.Walker.Start.{next_of};
ghost use Rattle.ether_content.specs.Selecting.{HoldsOf, IsAnswer, IsHeaderCut, IsOutcome, IsUndecided, Selects, asked_of, cooked_header_len, has_other_fcs, missing_len, packet_time as packet_time_of, time_of, with_fcs};

use crate::content::{Content, FCS_LEN, fcs_len, whole_len, without_fcs};
use ether_filter::{Decision, Instruction, Packet, PacketTime, filter_program};
use ether_pcap::{CapturedPacket, LinkType};
use ether_peel::Start;
use ether_sll2::LinuxSll2Header;
use etherparse::LinuxSllHeader;

/// Returns `true` if the filter of these instructions selects a packet, as [`selects`](crate::selects) says.
///
/// If the instructions are not those of a filter, nothing is claimed of the result.
#[inline(always)]
pub fn selects(instructions: &[Instruction], packet: &CapturedPacket<'_>) -> bool
    ensures { (x : Expression) → IsProgramOf instructions.now x → IsTrue result
        ↔ Selects x (captured_packet_view packet.now) }
{
    match Content::of(packet).frame() {
        Some((start, frame)) => holds(instructions, start, frame, packet),
        None => false,
    }
}

/// Whether a filter's expression holds of the walk of a packet.
#[inline(always)]
fn holds(
    instructions: &[Instruction],
    start: Start,
    frame: &[u8],
    packet: &CapturedPacket<'_>,
) -> bool
    ensures { (x : Expression) → IsProgramOf instructions.now x → IsTrue result
        ↔ HoldsOf x (next_of start) frame.now (length packet.now.packet.now) packet.now.original_len
        (time_of (captured_packet_view packet.now)) }
{
    filter_program::matches(instructions, &asked(start, frame, packet))
}

/// What a filter is applied to for a frame of a packet.
#[inline(always)]
fn asked<'a>(start: Start, frame: &'a [u8], packet: &CapturedPacket<'_>) -> Packet<'a>
    ensures { result ≡ asked_of start frame.entry packet.now }
{
    Packet {
        start,
        frame,
        captured_len: packet.packet.len(),
        original_len: packet.original_len,
        time: packet_time(packet),
    }
}

/// The time of a packet, as a filter has it.
#[inline(always)]
fn packet_time(packet: &CapturedPacket<'_>) -> Option<PacketTime>
    ensures { result ≡ option_map packet_time_of packet.now.time }
{
    match packet.time {
        Some(time) => Some(PacketTime {
            seconds: time.seconds,
            nanoseconds: time.nanoseconds,
        }),
        None => None,
    }
}

/// Returns `true` if the captured bytes of a packet do not decide whether the filter of these instructions selects it,
/// as [`is_undecided`](crate::is_undecided) says.
///
/// If the instructions are not those of a filter, nothing is claimed of the result.
#[inline(always)]
pub fn is_undecided(instructions: &[Instruction], packet: &CapturedPacket<'_>) -> bool
    ensures { (x : Expression) → IsProgramOf instructions.now x → IsTrue result
        ↔ IsUndecided x (captured_packet_view packet.now) }
{
    decide(instructions, packet).is_none()
}

/// Decides whether the filter of these instructions selects a packet, as [`decide`](crate::decide) says.
///
/// If the instructions are not those of a filter, nothing is claimed of the result.
#[inline(always)]
pub fn decide(instructions: &[Instruction], packet: &CapturedPacket<'_>) -> Option<bool>
    ensures { (x : Expression) → IsProgramOf instructions.now x → (outcome : Option Bool)
        → (result ≡ outcome) ↔ IsOutcome x (captured_packet_view packet.now) outcome }
{
    if missing_len(packet) == 0 {
        return Some(selects(instructions, packet));
    }
    decide_cut(instructions, packet)
}

/// .. whose bytes before the frame check sequence are not all there.
#[inline(never)]
fn decide_cut(instructions: &[Instruction], packet: &CapturedPacket<'_>) -> Option<bool>
    requires { 0 < missing_len (captured_packet_view packet.now) }
    ensures { (x : Expression) → IsProgramOf instructions.now x → (outcome : Option Bool)
        → (result ≡ outcome) ↔ IsOutcome x (captured_packet_view packet.now) outcome }
{
    if is_header_cut(packet) || has_other_fcs(packet) {
        return None;
    }
    match Content::of(packet).frame() {
        Some((start, frame)) => {
            decide_frame(instructions, with_fcs(start, packet), frame, packet)
        }
        None => Some(false),
    }
}

/// .. where the walk starts so in this frame.
fn decide_frame(
    instructions: &[Instruction],
    start: Start,
    frame: &[u8],
    packet: &CapturedPacket<'_>,
) -> Option<bool>
    ensures { (x : Expression) → IsProgramOf instructions.now x → (answer : Option Bool)
        → (result ≡ answer) ↔ IsAnswer x (asked_of start frame.entry packet.now) answer }
{
    match filter_program::decide(instructions, &asked(start, frame, packet)) {
        Decision::Matches => Some(true),
        Decision::Fails => Some(false),
        Decision::Needs(_) => None,
    }
}

/// The number of bytes that are missing before the frame check sequence.
#[inline(always)]
fn missing_len(packet: &CapturedPacket<'_>) -> usize
    ensures { result ≡ missing_len (captured_packet_view packet.now) }
{
    whole_len(packet) - without_fcs(packet).len()
}

/// Whether the header of cooked capture that says what is walked was cut.
fn is_header_cut(packet: &CapturedPacket<'_>) -> bool
    ensures { IsTrue result ↔ IsHeaderCut (captured_packet_view packet.now) }
{
    let header_len = cooked_header_len(packet.link_type);
    without_fcs(packet).len() < header_len && header_len <= whole_len(packet)
}

/// The length of the header of cooked capture; 0 for another link type.
fn cooked_header_len(link_type: LinkType) -> usize
    ensures { result ≡ cooked_header_len link_type.0 }
{
    match link_type {
        LinkType::LINUX_SLL => LinuxSllHeader::LEN,
        LinkType::LINUX_SLL2 => LinuxSll2Header::LEN,
        _ => 0,
    }
}

/// Whether the capture gives the length of a frame check sequence that Ethernet does not have.
fn has_other_fcs(packet: &CapturedPacket<'_>) -> bool
    ensures { result ≡ has_other_fcs (captured_packet_view packet.now) }
{
    let len = fcs_len(packet);
    len != 0 && !(packet.link_type == LinkType::ETHERNET && len == FCS_LEN)
}

/// How the walk starts, in a frame that ends in a check sequence if the capture gives its length.
fn with_fcs(start: Start, packet: &CapturedPacket<'_>) -> Start
    ensures { next_of result ≡ with_fcs (captured_packet_view packet.now) (next_of start) }
{
    if fcs_len(packet) == FCS_LEN {
        Start::Ethernet2Fcs
    } else {
        start
    }
}
