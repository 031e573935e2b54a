//! Filters that are read once and then applied to many packets.
ghost use Rattle.ether_filter.specs.Expressions.{Expression};
ghost use Rattle.ether_c.specs.Selection.{IsMark, IsDecision};
ghost use Rattle.ether_c.specs.Filters.{GivesFilter, IsFilterOf, PutsMarks};

use crate::selecting::{mark, put_marks};
use crate::statuses::{BAD_FILTER, DONE};
use crate::{EtherCaptured, EtherFilter, EtherFilterError};
use ether_content::program::decide;
use ether_filter::Filter;

/// What is returned or written if the captured bytes of a packet do not decide whether a filter selects it.
pub(crate) const UNDECIDED: u32 = 2;

/// Reads the text of a filter into memory of the caller.
#[unsafe(no_mangle)]
pub extern "C" fn etherpeel_filter_parse(
    expression: &[u8],
    filter: &mut EtherFilter,
    error: &mut EtherFilterError,
) -> u32
    ensures { GivesFilter expression.now filter.old filter.new error.old error.new result }
{
    match Filter::parse(expression) {
        Ok(parsed) => {
            filter.put(&parsed);
            DONE
        }
        Err(refusal) => {
            *error = EtherFilterError::of(&refusal);
            BAD_FILTER
        }
    }
}

/// 1 if a filter selects a packet, else 0.
#[unsafe(no_mangle)]
pub extern "C" fn etherpeel_filter_matches(filter: &EtherFilter, packet: &EtherCaptured<'_>) -> u32
    ensures { (x : Expression) → IsFilterOf filter.now x → IsMark x packet.now result }
{
    u32::from(mark(filter.program(), packet))
}

/// 1 if a filter selects a packet, and 0 if it does not, whatever its missing bytes are; else 2.
#[unsafe(no_mangle)]
pub extern "C" fn etherpeel_filter_decide(filter: &EtherFilter, packet: &EtherCaptured<'_>) -> u32
    ensures { (x : Expression) → IsFilterOf filter.now x → IsDecision x packet.now result }
{
    match decide(filter.program(), &packet.to_packet()) {
        Some(is_selected) => u32::from(is_selected),
        None => UNDECIDED,
    }
}

/// Writes for each packet 1 if a filter selects it, else 0.
#[unsafe(no_mangle)]
pub extern "C" fn etherpeel_filter_select(
    filter: &EtherFilter,
    packets: &[EtherCaptured<'_>],
    matches: &mut [u8],
) -> u32
    ensures { (x : Expression) → IsFilterOf filter.now x → PutsMarks x packets.now matches.old matches.new result }
{
    put_marks(filter.program(), packets, matches)
}
