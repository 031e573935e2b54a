//! Reads all headers of a packet in one call.
ghost use Rattle.std.specs.Prelude.{◌≡◌};
ghost use Rattle.ether_c.specs.Starts.{IsUnknown, IsUnknownStart, OfStart};
ghost use Rattle.ether_c.specs.Packet.{GivesPacket};

use crate::EtherHeaders;
use crate::numbers::start_of;
use crate::packet_facts::packet_facts;
use crate::statuses::{DONE, UNKNOWN_START};
use crate::walking::walked;
use ether_packet::PacketSlice;

/// Reads the headers of a packet, with at most three VLAN tags and SecTags, the window after them, the VLAN
/// identifiers and the least snap length.
#[unsafe(no_mangle)]
pub extern "C" fn etherpeel_packet(
    start: u32,
    ether_type: u16,
    bytes: &[u8],
    headers: &mut EtherHeaders,
) -> u32
    ensures unknown { IsUnknown start ether_type → IsUnknownStart result (headers.new ≡ headers.old) }
    ensures given { OfStart start ether_type
        (λ s. GivesPacket s bytes.now headers.old.units headers.new result) }
{
    let Some(start) = start_of(start, ether_type) else {
        return UNKNOWN_START;
    };
    let found = walked(
        start,
        bytes,
        Some(PacketSlice::LINK_EXTS_CAP),
        &mut headers.units,
    );
    headers.found.set(&found);
    let facts = packet_facts(&headers.units[..found.units]);
    let vlan_ids = facts.vlan_ids;
    headers.vlan_ids = vlan_ids;
    headers.vlan_count = facts.vlan_count;
    headers.min_snap_len = facts.min_snap_len;
    DONE
}
