//! The whole walk through a frame in one call.
ghost use Rattle.std.specs.Prelude.{◌≡◌, ◌/◌, ◌<◌, length};
ghost use Rattle.ether_peel.specs.Walker.Start.{start_of as start_meant, limited_start};
ghost use Rattle.ether_peel.specs.Walker.Limits.{IsFrontOfUnlimited};
ghost use Rattle.ether_c.specs.Starts.{IsUnknown, IsUnknownStart, OfStart};
ghost use Rattle.ether_c.specs.Calls.{GivesSummary};

use crate::EtherFound;
use crate::numbers::start_of;
use crate::statuses::{DONE, UNKNOWN_START};
use ether_peel::{summary, summary_limited};

/// The result of the walk through a frame.
#[unsafe(no_mangle)]
pub extern "C" fn etherpeel_summary(
    start: u32,
    ether_type: u16,
    bytes: &[u8],
    found: &mut EtherFound,
) -> u32
    ensures unknown { IsUnknown start ether_type → IsUnknownStart result (found.new ≡ found.old) }
    ensures given { OfStart start ether_type
        (λ s. GivesSummary (start_meant s) bytes.now result found.new) }
{
    let Some(start) = start_of(start, ether_type) else {
        return UNKNOWN_START;
    };
    found.set(&summary(start, bytes));
    DONE
}

/// Does as [`etherpeel_summary`] for the walk that reads at most `limit` VLAN tags and MACsec SecTags.
#[unsafe(no_mangle)]
pub extern "C" fn etherpeel_summary_limited(
    start: u32,
    ether_type: u16,
    bytes: &[u8],
    limit: usize,
    found: &mut EtherFound,
) -> u32
    ensures unknown { IsUnknown start ether_type → IsUnknownStart result (found.new ≡ found.old) }
    ensures given { OfStart start ether_type
        (λ s. GivesSummary (limited_start s limit) bytes.now result found.new) }
    ensures front { OfStart start ether_type (λ s. IsFrontOfUnlimited s bytes.now limit) }
    ensures spare { OfStart start ether_type (λ s.
        length bytes.now / 4 < limit
        → GivesSummary (start_meant s) bytes.now result found.new) }
{
    let Some(start) = start_of(start, ether_type) else {
        return UNKNOWN_START;
    };
    found.set(&summary_limited(start, bytes, limit));
    DONE
}
