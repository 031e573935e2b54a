//! Packets of Linux cooked capture v2.
ghost use Rattle.ether_c.specs.CookedV2.{GivesLinuxSll2, GivesLinuxSll2Fields, linux_sll2_status};
ghost use Rattle.ether_sll2.specs.Views.{refusal_view};
ghost use Rattle.std.specs.Prelude.{◌≡◌};

use crate::field_putting::put_table;
use crate::statuses::{BAD_PACKET_TYPE, DONE, SHORT};
use crate::{EtherField, EtherLinuxSll2};
use ether_fields::{Part, Section, Sizes, places};
use ether_sll2::{LinuxSll2Error, LinuxSll2Slice};

/// Reads the header of a packet of Linux cooked capture v2, and how the walk of its payload starts.
#[unsafe(no_mangle)]
pub extern "C" fn etherpeel_linux_sll2(bytes: &[u8], header: &mut EtherLinuxSll2) -> u32
    ensures { GivesLinuxSll2 bytes.now header.new result }
{
    match LinuxSll2Slice::from_slice(bytes) {
        Ok(packet) => {
            *header = EtherLinuxSll2::of(&packet);
            DONE
        }
        Err(error) => {
            *header = EtherLinuxSll2::of_refusal(&error);
            refusal_status(&error)
        }
    }
}

/// Writes as many fields of the header of a packet of Linux cooked capture v2 as the array has room for, and the
/// number of all its fields.
#[unsafe(no_mangle)]
pub extern "C" fn etherpeel_linux_sll2_fields(
    bytes: &[u8],
    fields: &mut [EtherField],
    count: &mut usize,
) -> u32
    ensures { GivesLinuxSll2Fields bytes.now fields.old fields.new count.old count.new result }
{
    match LinuxSll2Slice::from_slice(bytes) {
        Ok(_) => {
            let table = places(Section::Sll2, &Part::Header(Sizes::NONE));
            *count = put_table(bytes, 0, 0, table.as_slice(), fields, 0);
            DONE
        }
        Err(error) => refusal_status(&error),
    }
}

/// The status for a header that is refused.
fn refusal_status(error: &LinuxSll2Error) -> u32
    ensures { result ≡ linux_sll2_status (refusal_view error.now) }
{
    match error {
        LinuxSll2Error::Len { .. } => SHORT,
        LinuxSll2Error::PacketType(_) => BAD_PACKET_TYPE,
    }
}
