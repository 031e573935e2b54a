//! Completes the unit in which a frame ends.
ghost use Rattle.std.specs.Prelude.{◌≡◌};
ghost use Rattle.ether_peel.specs.Walker.Start.{start_of as start_meant, limited_start};
ghost use Rattle.ether_c.specs.Starts.{IsUnknown, IsUnknownStart, OfStart};
ghost use Rattle.ether_c.specs.Calls.{GivesCompletion, PutsBytes, fill_bytes};

use crate::numbers::start_of;
use crate::putting::put_bytes;
use crate::statuses::{DONE, UNKNOWN_START};
use arrayvec::ArrayVec;
use ether_peel::{completion, completion_limited};

/// Writes the fewest bytes that, appended to a frame cut short, make it accepted.
#[unsafe(no_mangle)]
pub extern "C" fn etherpeel_completion(
    start: u32,
    ether_type: u16,
    bytes: &[u8],
    fill: &mut [u8],
    len: &mut usize,
) -> u32
    ensures unknown { IsUnknown start ether_type
        → IsUnknownStart result ((fill.new ≡ fill.old) × (len.new ≡ len.old)) }
    ensures given { OfStart start ether_type
        (λ s. GivesCompletion (start_meant s) bytes.now fill.old fill.new result len.new) }
{
    let Some(start) = start_of(start, ether_type) else {
        return UNKNOWN_START;
    };
    let found = completion(start, bytes);
    let (status, needed) = put_fill(&found, fill);
    *len = needed;
    status
}

/// Does as [`etherpeel_completion`] for the walk that reads at most `limit` VLAN tags and MACsec SecTags.
#[unsafe(no_mangle)]
pub extern "C" fn etherpeel_completion_limited(
    start: u32,
    ether_type: u16,
    bytes: &[u8],
    limit: usize,
    fill: &mut [u8],
    len: &mut usize,
) -> u32
    ensures unknown { IsUnknown start ether_type
        → IsUnknownStart result ((fill.new ≡ fill.old) × (len.new ≡ len.old)) }
    ensures given { OfStart start ether_type
        (λ s. GivesCompletion (limited_start s limit) bytes.now fill.old fill.new result len.new) }
{
    let Some(start) = start_of(start, ether_type) else {
        return UNKNOWN_START;
    };
    let found = completion_limited(start, bytes, limit);
    let (status, needed) = put_fill(&found, fill);
    *len = needed;
    status
}

/// Writes the bytes of a completion to the front of a target, if there is a completion.
fn put_fill(found: &Option<ArrayVec<u8, 1028>>, target: &mut [u8]) -> (u32, usize)
    ensures { PutsBytes (fill_bytes found.now) target.old target.new result.0 result.1 }
{
    match found {
        Some(fill) => put_bytes(fill.as_slice(), target),
        None => (DONE, 0),
    }
}
