//! Memory for a packet that is edited.
ghost use Rattle.std.specs.Prelude.{◌≡◌, ◌≤◌, length, IfSome};
ghost use Rattle.std.specs.Option.{option_map};
ghost use Rattle.ether_pcap.specs.CaptureViews.{captured_packet_view};
ghost use Rattle.ether_content.specs.Editing.{Edits};
ghost use Rattle.ether_content.specs.EditingViews.{edit_view, edited_view};
ghost use Rattle.ether_stream.specs.Copying.{EditsIf};

use crate::{Grow, NoMemory};
use ether_content::{EditedPacket, PacketEdit, edit_packet};
use ether_pcap::CapturedPacket;

/// The least length of an [`EditBuffer`] in bytes: 4 more than the greatest of a captured packet.
const ROOM: usize = 262_148;

/// Memory for any packet of a capture that is edited.
#[derive(Drop)]
pub struct EditBuffer<B: Grow> {
    memory: B,
    ghost room: { 262148 ≤ length (B.items memory) },
}

impl<B: Grow> EditBuffer<B> {
    /// A buffer in this memory, which grows to 262,148 bytes at once. Returns [`NoMemory`] if that is refused.
    pub fn new(memory: B) -> Result<Self, NoMemory> {
        let mut memory = memory;
        memory.grow(ROOM)?;
        Ok(EditBuffer { memory })
    }

    /// Edits a packet, if there is an edit. Returns `None` if the packet is unchanged.
    pub(crate) fn edit(
        &mut self,
        edit: Option<PacketEdit>,
        packet: &CapturedPacket<'_>,
    ) -> Option<EditedPacket>
        requires { length packet.now.packet.now ≤ 262144 }
        ensures edits { EditsIf (option_map edit_view edit) (captured_packet_view packet.now)
            (option_map (edited_view (B.items self.new.memory)) result) }
        ensures within { IfSome result (λ e. (e.start ≤ e.end) × (e.end ≤ length (B.items self.new.memory))) }
    {
        match edit {
            Some(edit) => edit_in(self.memory.bytes_mut(), edit, packet),
            None => None,
        }
    }

    /// The captured bytes of a packet that was edited here.
    pub(crate) fn packet(&self, edited: &EditedPacket) -> &[u8]
        requires ordered { edited.now.start ≤ edited.now.end }
        requires within { edited.now.end ≤ length (B.items self.now.memory) }
        ensures { result.now ≡ (edited_view (B.items self.now.memory) edited.now).packet }
    {
        &self.memory.bytes()[edited.start..edited.end]
    }
}

/// Edits a packet in these bytes.
fn edit_in(bytes: &mut [u8], edit: PacketEdit, packet: &CapturedPacket<'_>) -> Option<EditedPacket>
    requires packet { length packet.now.packet.now ≤ 262144 }
    requires room { 262148 ≤ length bytes.old }
    ensures edits { Edits (edit_view edit) (captured_packet_view packet.now) (option_map (edited_view bytes.new) result) }
    ensures within { IfSome result (λ e. (e.start ≤ e.end) × (e.end ≤ length bytes.new)) }
    ensures len { length bytes.new ≡ length bytes.old }
{
    match edit_packet(edit, packet, bytes) {
        Ok(edited) => edited,
        Err(_) => unreachable!(),
    }
}
