//! Writes headers back, and what follows them.
ghost use Rattle.std.specs.Prelude.{◌≡◌};
ghost use Rattle.ether_peel.specs.Walker.Start.{start_of as start_meant, limited_start};
ghost use Rattle.ether_c.specs.Starts.{IsUnknown, IsUnknownStart, OfStart};
ghost use Rattle.ether_c.specs.Calls.{GivesWriteBack, written_status, written_len};

use crate::numbers::start_of;
use crate::statuses::{DONE, NO_ROOM, UNKNOWN_START};
use ether_peel::{write_back, write_back_limited};
use etherparse::err::SliceWriteSpaceError;

/// Writes the headers of a frame, and the window after them, to the front of a target.
#[unsafe(no_mangle)]
pub extern "C" fn etherpeel_write_back(
    start: u32,
    ether_type: u16,
    bytes: &[u8],
    target: &mut [u8],
    len: &mut usize,
) -> u32
    ensures unknown { IsUnknown start ether_type
        → IsUnknownStart result ((target.new ≡ target.old) × (len.new ≡ len.old)) }
    ensures given { OfStart start ether_type
        (λ s. GivesWriteBack (start_meant s) bytes.now target.old target.new result len.new) }
{
    let Some(start) = start_of(start, ether_type) else {
        return UNKNOWN_START;
    };
    let (status, end) = answer(write_back(start, bytes, target));
    *len = end;
    status
}

/// Does as [`etherpeel_write_back`] for the walk that reads at most `limit` VLAN tags and MACsec SecTags.
#[unsafe(no_mangle)]
pub extern "C" fn etherpeel_write_back_limited(
    start: u32,
    ether_type: u16,
    bytes: &[u8],
    limit: usize,
    target: &mut [u8],
    len: &mut usize,
) -> u32
    ensures unknown { IsUnknown start ether_type
        → IsUnknownStart result ((target.new ≡ target.old) × (len.new ≡ len.old)) }
    ensures given { OfStart start ether_type
        (λ s. GivesWriteBack (limited_start s limit) bytes.now target.old target.new
        result len.new) }
{
    let Some(start) = start_of(start, ether_type) else {
        return UNKNOWN_START;
    };
    let (status, end) = answer(write_back_limited(start, bytes, target, limit));
    *len = end;
    status
}

/// Returns the status of the call, and a length: the number of bytes that were written, or that the target needs.
fn answer(written: Result<usize, SliceWriteSpaceError>) -> (u32, usize)
    ensures status { result.0 ≡ written_status written }
    ensures len { result.1 ≡ written_len written }
{
    match written {
        Ok(end) => (DONE, end),
        Err(error) => (NO_ROOM, error.required_len),
    }
}
