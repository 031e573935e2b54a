//! Decides whether a filter selects a frame, and how many of its bytes decide it.
ghost use Rattle.std.specs.Prelude.{◌≡◌, None, length};
ghost use Rattle.ether_filter.specs.Expressions.{Expression};
ghost use Rattle.ether_c.specs.Starts.{IsUnknown, IsUnknownStart, OfStart};
ghost use Rattle.ether_c.specs.Filters.{GivesDecision, IsFilterOf};

use crate::EtherFilter;
use crate::filtering::UNDECIDED;
use crate::numbers::start_of;
use crate::statuses::{DONE, UNKNOWN_START};
use ether_filter::{Decision, Packet, filter_program};

/// Writes whether a filter selects a frame, whatever its missing bytes are; and if they can change it, a number of bytes
/// such that fewer never decide, whatever they are.
#[unsafe(no_mangle)]
pub extern "C" fn etherpeel_filter_frame(
    filter: &EtherFilter,
    start: u32,
    ether_type: u16,
    bytes: &[u8],
    original_len: u32,
    decision: &mut u32,
    needed: &mut usize,
) -> u32
    ensures unknown { IsUnknown start ether_type
        → IsUnknownStart result ((decision.new ≡ decision.old) × (needed.new ≡ needed.old)) }
    ensures given { OfStart start ether_type (λ s. (x : Expression) → IsFilterOf filter.now x → GivesDecision x
        (record {
          start = s;
          frame = bytes.entry;
          captured_len = length bytes.now;
          original_len = original_len;
          time = None;
        })
        decision.new needed.new result) }
{
    let Some(start) = start_of(start, ether_type) else {
        return UNKNOWN_START;
    };
    let packet = Packet {
        start,
        frame: bytes,
        captured_len: bytes.len(),
        original_len,
        time: None,
    };
    (*decision, *needed) = match filter_program::decide(filter.program(), &packet) {
        Decision::Fails => (0, 0),
        Decision::Matches => (1, 0),
        Decision::Needs(len) => (UNDECIDED, len),
    };
    DONE
}
