//! Writes a row for each packet of a capture.
ghost use Rattle.ether_c.specs.Puts.{PutsEach};
ghost use Rattle.ether_c.specs.Rows.{HoldsRow};

use crate::statuses::{DONE, NO_ROOM};
use crate::{EtherCaptured, EtherRow};

/// Writes the row of each packet to the front of an array, if it has room for all of them.
#[unsafe(no_mangle)]
pub extern "C" fn etherpeel_rows(packets: &[EtherCaptured<'_>], rows: &mut [EtherRow]) -> u32
    ensures { PutsEach HoldsRow packets.now rows.old rows.new result }
{
    if rows.len() < packets.len() {
        return NO_ROOM;
    }
    for (at, packet) in packets.iter().enumerate() {
        rows[at] = EtherRow::of(packet);
    }
    DONE
}
