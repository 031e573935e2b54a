//! Edits captured packets.
ghost use Rattle.std.specs.Prelude.{◌≡◌, ◌+◌, ◌<◌, ◌≤◌, length, take, slice_range, IfOk, IfSome, OnOk, OnErr, Some};
ghost use Rattle.std.specs.Option.{option_map};
ghost use Rattle.ether_peel.specs.Walker.Start.{next_of};
ghost use Rattle.ether_pcap.specs.CaptureViews.{captured_packet_view};
ghost use Rattle.ether_content.specs.Content.{content_of};
ghost use Rattle.ether_content.specs.Content as contents;
ghost use Rattle.ether_content.specs.Editing.{CutToHeaders, PopVlan, PushVlan, SetVlan, Edits, growth};
ghost use Rattle.ether_content.specs.EditingViews.{edit_view, edited_view};
ghost use Rattle.ether_content.specs.Texts.{no_room_text};

use crate::content::Content;
use crate::header_lengths::headers_len;
use ether_packet::{pop_vlan, push_vlan, replace_vlan_id};
use ether_pcap::CapturedPacket;
use ether_peel::Start;
use etherparse::{EtherType, SingleVlanHeader, VlanId, VlanPcp};
use std::error::Error;
use std::fmt;

/// An edit of captured packets.
#[derive(Clone, Copy, PartialEq, Eq, Debug)]
pub enum PacketEdit {
    /// Cuts a packet to its headers, as many bytes as [`headers_len`] returns.
    CutToHeaders,
    /// Takes off the VLAN tag directly after the link's header, as [`pop_vlan`](ether_packet::pop_vlan) does.
    PopVlan,
    /// Puts in a VLAN tag of priority 0 directly after the link's header, as [`push_vlan`](ether_packet::push_vlan)
    /// does. The TPID must be 0x8100, 0x88A8 or 0x9100; with any other, packets are unchanged.
    PushVlan {
        /// The ether type that announces the tag.
        tpid: EtherType,
        /// The identifier of the tag.
        vlan_id: VlanId,
    },
    /// Changes the identifier of the outermost VLAN tag that has the identifier `from`, as
    /// [`replace_vlan_id`](ether_packet::replace_vlan_id) does.
    SetVlan {
        /// The identifier that the tag has before.
        from: VlanId,
        /// The identifier that it has after.
        to: VlanId,
    },
}

impl PacketEdit {
    /// The most bytes that the edit adds to a packet. [`CopyMode::Changed`](ether_pcap::CopyMode::Changed) raises snap
    /// lengths by this number.
    pub fn growth(self) -> u32
        ensures { result ≡ growth (edit_view self) }
    {
        match self {
            PacketEdit::PushVlan { .. } => 4,
            _ => 0,
        }
    }
}

/// A packet after an edit.
#[derive(Clone, Copy, PartialEq, Eq, Debug)]
pub struct EditedPacket {
    /// The index in the buffer at which its captured bytes begin.
    pub start: usize,
    /// The index in the buffer at which they end.
    pub end: usize,
    /// Its length in bytes if it had not been cut.
    pub original_len: u64,
}

/// The buffer is too short for the packet that is to be edited.
#[derive(Clone, Copy, PartialEq, Eq, Debug)]
pub struct NoRoom;

impl fmt::Display for NoRoom {
    ghost output = { λ _. Some no_room_text };

    fn fmt<W: fmt::Write>(&self, f: &mut fmt::Formatter<W>) -> fmt::Result {
        f.write_str("The buffer has no room for the packet and four bytes more.")
    }
}

impl Error for NoRoom {}

/// The number of bytes that a buffer needs beyond those of the packet.
const FREE: usize = 4;

/// Edits a packet, whose new bytes are written to a buffer.
///
/// Returns `None`, leaving the packet alone, if there is nothing to cut, no matching VLAN tag to pop or set, or no
/// link's header to push after, or if the TPID does not announce a VLAN tag. The captured bytes of a frame check
/// sequence are unchanged, and don't fit the new frame.
///
/// # Errors
///
/// The buffer does not have four bytes more than were captured of the packet.
///
/// ```
/// let packet = CapturedPacket {
///     time: None,
///     interface: None,
///     direction: None,
///     comment: None,
///     original_len: 60,
///     link_type: LinkType::ETHERNET,
///     snap_len: 262_144,
///     fcs_len: None,
///     packet: &[
///         0xFF, 0xFF, 0xFF, 0xFF, 0xFF, 0xFF, 0x02, 0x00, 0x00, 0x00, 0x00, 0x01, 0x81, 0x00, // Ethernet II
///         0xB1, 0x23, 0x08, 0x00, // VLAN 291
///         0x45, 0x00,
///     ],
/// };
/// let mut buffer = [0; 24];
/// let edited = edit_packet(PacketEdit::PopVlan, &packet, &mut buffer)?;
/// assert_eq!(rt; edited, Some(EditedPacket { start: 8, end: 24, original_len: 56 }));
/// assert_eq!(rt; buffer[8..], [
///     0xFF, 0xFF, 0xFF, 0xFF, 0xFF, 0xFF, 0x02, 0x00, 0x00, 0x00, 0x00, 0x01, 0x08, 0x00, // Ethernet II
///     0x45, 0x00,
/// ]);
/// ```
pub fn edit_packet(
    edit: PacketEdit,
    packet: &CapturedPacket<'_>,
    buffer: &mut [u8],
) -> Result<Option<EditedPacket>, NoRoom>
    ensures ok { IfOk result (λ edited. Edits (edit_view edit) (captured_packet_view packet.now)
        (option_map (edited_view buffer.new) edited)) }
    ensures within { IfOk result (λ edited. IfSome edited (λ e. (e.start ≤ e.end) × (e.end ≤ length buffer.new))) }
    ensures len { length buffer.new ≡ length buffer.old }
    ensures room { OnOk result (length packet.now.packet.now + 4 ≤ length buffer.old) }
    ensures no_room { OnErr result (length buffer.old < length packet.now.packet.now + 4) }
{
    if buffer.len() < FREE || buffer.len() - FREE < packet.packet.len() {
        return Err(NoRoom);
    }
    match edit {
        PacketEdit::CutToHeaders => Ok(cut_to_headers(packet, buffer)),
        PacketEdit::PopVlan => Ok(pop(packet, buffer)),
        PacketEdit::PushVlan { tpid, vlan_id } => Ok(push(tpid, vlan_id, packet, buffer)),
        PacketEdit::SetVlan { from, to } => Ok(set(from, to, packet, buffer)),
    }
}

/// Cuts a packet to its headers.
fn cut_to_headers(packet: &CapturedPacket<'_>, buffer: &mut [u8]) -> Option<EditedPacket>
    requires { length packet.now.packet.now + 4 ≤ length buffer.old }
    ensures edits { Edits CutToHeaders (captured_packet_view packet.now) (option_map (edited_view buffer.new) result) }
    ensures within { IfSome result (λ e. (e.start ≤ e.end) × (e.end ≤ length buffer.new)) }
    ensures len { length buffer.new ≡ length buffer.old }
{
    let len = headers_len(packet);
    if packet.packet.len() <= len {
        return None;
    }
    let end = FREE + len;
    put_between(buffer, FREE, end, &packet.packet[..len]);
    Some(EditedPacket {
        start: FREE,
        end,
        original_len: u64::from(packet.original_len),
    })
}

/// Takes off the VLAN tag after the link's header of a packet, if the packet is a frame.
fn pop(packet: &CapturedPacket<'_>, buffer: &mut [u8]) -> Option<EditedPacket>
    requires { length packet.now.packet.now + 4 ≤ length buffer.old }
    ensures edits { Edits PopVlan (captured_packet_view packet.now) (option_map (edited_view buffer.new) result) }
    ensures within { IfSome result (λ e. (e.start ≤ e.end) × (e.end ≤ length buffer.new)) }
    ensures len { length buffer.new ≡ length buffer.old }
{
    match Content::of(packet) {
        Content::Frame(start, frame) => pop_frame(start, frame, packet, buffer),
        _ => None,
    }
}

/// Takes off the VLAN tag after the link's header of a packet that is a frame.
fn pop_frame(
    start: Start,
    frame: &[u8],
    packet: &CapturedPacket<'_>,
    buffer: &mut [u8],
) -> Option<EditedPacket>
    requires room { length packet.now.packet.now + 4 ≤ length buffer.old }
    requires frame { content_of (captured_packet_view packet.now) ≡ contents.Frame (next_of start) frame.now }
    ensures edits { Edits PopVlan (captured_packet_view packet.now) (option_map (edited_view buffer.new) result) }
    ensures within { IfSome result (λ e. (e.start ≤ e.end) × (e.end ≤ length buffer.new)) }
    ensures len { length buffer.new ≡ length buffer.old }
{
    let end = FREE + packet.packet.len();
    put_between(buffer, FREE, end, packet.packet);
    match pop_vlan(start, &mut buffer[FREE..FREE + frame.len()]) {
        Ok(_) => Some(EditedPacket {
            start: FREE + 4,
            end,
            original_len: u64::from(packet.original_len).saturating_sub(4),
        }),
        Err(_) => None,
    }
}

/// Puts in a VLAN tag after the link's header of a packet, if the packet is a frame.
fn push(
    tpid: EtherType,
    vlan_id: VlanId,
    packet: &CapturedPacket<'_>,
    buffer: &mut [u8],
) -> Option<EditedPacket>
    requires { length packet.now.packet.now + 4 ≤ length buffer.old }
    ensures edits { Edits (PushVlan tpid.0 vlan_id) (captured_packet_view packet.now)
        (option_map (edited_view buffer.new) result) }
    ensures within { IfSome result (λ e. (e.start ≤ e.end) × (e.end ≤ length buffer.new)) }
    ensures len { length buffer.new ≡ length buffer.old }
{
    match Content::of(packet) {
        Content::Frame(start, frame) => push_frame(tpid, vlan_id, start, frame, packet, buffer),
        _ => None,
    }
}

/// Puts in a VLAN tag after the link's header of a packet that is a frame.
fn push_frame(
    tpid: EtherType,
    vlan_id: VlanId,
    start: Start,
    frame: &[u8],
    packet: &CapturedPacket<'_>,
    buffer: &mut [u8],
) -> Option<EditedPacket>
    requires room { length packet.now.packet.now + 4 ≤ length buffer.old }
    requires frame { content_of (captured_packet_view packet.now) ≡ contents.Frame (next_of start) frame.now }
    ensures edits { Edits (PushVlan tpid.0 vlan_id) (captured_packet_view packet.now)
        (option_map (edited_view buffer.new) result) }
    ensures within { IfSome result (λ e. (e.start ≤ e.end) × (e.end ≤ length buffer.new)) }
    ensures len { length buffer.new ≡ length buffer.old }
{
    let end = FREE + packet.packet.len();
    put_between(buffer, 0, FREE, &[0; FREE]);
    put_between(buffer, FREE, end, packet.packet);
    let tag = SingleVlanHeader {
        pcp: VlanPcp::ZERO,
        drop_eligible_indicator: false,
        vlan_id,
        ether_type: EtherType(0),
    };
    match push_vlan(start, &mut buffer[..FREE + frame.len()], tag, tpid) {
        Ok(()) => Some(EditedPacket {
            start: 0,
            end,
            original_len: u64::from(packet.original_len) + 4,
        }),
        Err(_) => None,
    }
}

/// Changes the outermost VLAN tag with an identifier, if the packet is a frame.
fn set(
    from: VlanId,
    to: VlanId,
    packet: &CapturedPacket<'_>,
    buffer: &mut [u8],
) -> Option<EditedPacket>
    requires { length packet.now.packet.now + 4 ≤ length buffer.old }
    ensures edits { Edits (SetVlan from to) (captured_packet_view packet.now)
        (option_map (edited_view buffer.new) result) }
    ensures within { IfSome result (λ e. (e.start ≤ e.end) × (e.end ≤ length buffer.new)) }
    ensures len { length buffer.new ≡ length buffer.old }
{
    match Content::of(packet) {
        Content::Frame(start, frame) => set_in_frame(from, to, start, frame, packet, buffer),
        _ => None,
    }
}

/// Changes the outermost VLAN tag with an identifier in a packet that is a frame.
fn set_in_frame(
    from: VlanId,
    to: VlanId,
    start: Start,
    frame: &[u8],
    packet: &CapturedPacket<'_>,
    buffer: &mut [u8],
) -> Option<EditedPacket>
    requires room { length packet.now.packet.now + 4 ≤ length buffer.old }
    requires frame { content_of (captured_packet_view packet.now) ≡ contents.Frame (next_of start) frame.now }
    ensures edits { Edits (SetVlan from to) (captured_packet_view packet.now)
        (option_map (edited_view buffer.new) result) }
    ensures within { IfSome result (λ e. (e.start ≤ e.end) × (e.end ≤ length buffer.new)) }
    ensures len { length buffer.new ≡ length buffer.old }
{
    let end = FREE + packet.packet.len();
    put_between(buffer, FREE, end, packet.packet);
    match replace_vlan_id(start, &mut buffer[FREE..FREE + frame.len()], from, to) {
        Some(_) => Some(EditedPacket {
            start: FREE,
            end,
            original_len: u64::from(packet.original_len),
        }),
        None => None,
    }
}

/// Writes bytes to the buffer from the index `start` up to `end`. The bytes before are unchanged.
fn put_between(buffer: &mut [u8], start: usize, end: usize, bytes: &[u8])
    requires ordered { start + length bytes.now ≡ end }
    requires room { end ≤ length buffer.old }
    ensures bytes { slice_range buffer.new start end ≡ bytes.now }
    ensures before { take start buffer.new ≡ take start buffer.old }
    ensures len { length buffer.new ≡ length buffer.old }
{
    buffer[start..end].copy_from_slice(bytes);
}
