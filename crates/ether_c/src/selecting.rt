//! Selects packets by a filter.
ghost use Rattle.ether_filter.specs.Expressions.{Expression};
ghost use Rattle.ether_filter.specs.FilterProgram.{IsProgramOf};
ghost use Rattle.ether_c.specs.Selection.{IsMark};
ghost use Rattle.ether_c.specs.Filters.{GivesSelection, PutsMarks};

use crate::statuses::{BAD_FILTER, DONE, NO_ROOM};
use crate::{EtherCaptured, EtherFilterError};
use ether_content::program::selects;
use ether_filter::{Filter, Instruction};

/// Writes for each packet 1 if a filter's expression holds for it, else 0.
///
/// For a packet of Linux cooked capture v2 the expression is about its payload. A packet whose link type the walk does
/// not know is never selected.
#[unsafe(no_mangle)]
pub extern "C" fn etherpeel_select(
    expression: &[u8],
    packets: &[EtherCaptured<'_>],
    matches: &mut [u8],
    error: &mut EtherFilterError,
) -> u32
    ensures { GivesSelection expression.now packets.now matches.old matches.new error.old error.new result }
{
    match Filter::parse(expression) {
        Ok(filter) => put_marks(filter.instructions(), packets, matches),
        Err(refusal) => {
            *error = EtherFilterError::of(&refusal);
            BAD_FILTER
        }
    }
}

/// Writes the mark of each packet to the front of an array, if it has room for all of them.
pub(crate) fn put_marks(
    instructions: &[Instruction],
    packets: &[EtherCaptured<'_>],
    matches: &mut [u8],
) -> u32
    ensures { (x : Expression) → IsProgramOf instructions.now x
        → PutsMarks x packets.now matches.old matches.new result }
{
    if matches.len() < packets.len() {
        return NO_ROOM;
    }
    for (at, packet) in packets.iter().enumerate() {
        matches[at] = mark(instructions, packet);
    }
    DONE
}

/// 1 if a filter selects a packet, else 0.
#[inline(always)]
pub(crate) fn mark(instructions: &[Instruction], packet: &EtherCaptured<'_>) -> u8
    ensures { (x : Expression) → IsProgramOf instructions.now x → IsMark x packet.now result }
{
    if selects(instructions, &packet.to_packet()) {
        1
    } else {
        0
    }
}
