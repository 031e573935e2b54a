//! Feeds a walk with a frame piece by piece.
ghost use Rattle.std.specs.Prelude.{◌≡◌};
ghost use Rattle.ether_peel.specs.Walker.Start.{start_of as start_meant, limited_start};
ghost use Rattle.ether_c.specs.Starts.{IsUnknown, IsUnknownStart, OfStart};
ghost use Rattle.ether_c.specs.Calls.{GivesFeed};

use crate::EtherFed;
use crate::numbers::start_of;
use crate::statuses::{DONE, UNKNOWN_START};
use ether_peel::{feed, feed_limited};

/// What a reader takes of a frame if it asks each time for exactly the bytes that the walk needs next.
#[unsafe(no_mangle)]
pub extern "C" fn etherpeel_feed(
    start: u32,
    ether_type: u16,
    bytes: &[u8],
    fed: &mut EtherFed,
) -> u32
    ensures unknown { IsUnknown start ether_type → IsUnknownStart result (fed.new ≡ fed.old) }
    ensures given { OfStart start ether_type
        (λ s. GivesFeed (start_meant s) bytes.now result fed.new) }
{
    let Some(start) = start_of(start, ether_type) else {
        return UNKNOWN_START;
    };
    *fed = EtherFed::of(&feed(start, bytes));
    DONE
}

/// Does as [`etherpeel_feed`] for the walk that reads at most `limit` VLAN tags and MACsec SecTags.
#[unsafe(no_mangle)]
pub extern "C" fn etherpeel_feed_limited(
    start: u32,
    ether_type: u16,
    bytes: &[u8],
    limit: usize,
    fed: &mut EtherFed,
) -> u32
    ensures unknown { IsUnknown start ether_type → IsUnknownStart result (fed.new ≡ fed.old) }
    ensures given { OfStart start ether_type
        (λ s. GivesFeed (limited_start s limit) bytes.now result fed.new) }
{
    let Some(start) = start_of(start, ether_type) else {
        return UNKNOWN_START;
    };
    *fed = EtherFed::of(&feed_limited(start, bytes, limit));
    DONE
}
