//! The part of a captured packet that is walked.
ghost use Rattle.ether_content.specs.Content.{content_of};
ghost use Rattle.ether_c.specs.CapturedFrame.{GivesFrame};
ghost use Rattle.ether_c.specs.Selection.{packet_value};

use crate::statuses::{DONE, UNKNOWN_START};
use crate::{EtherCaptured, EtherFrame};
use ether_content::Content;

/// The frame that is walked of a captured packet, by its link type.
///
/// For Linux cooked capture v2 it is the payload, if the header can be read and an ether type announces the payload.
#[unsafe(no_mangle)]
pub extern "C" fn etherpeel_captured_frame<'a>(
    packet: &EtherCaptured<'a>,
    frame: &mut EtherFrame<'a>,
) -> u32
    ensures { GivesFrame (content_of (packet_value packet.now)) frame.old frame.new result }
{
    match EtherFrame::of(Content::of(&packet.to_packet())) {
        Some(found) => {
            *frame = found;
            DONE
        }
        None => UNKNOWN_START,
    }
}
