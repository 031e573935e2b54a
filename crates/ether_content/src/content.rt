//! The part of a captured packet that is walked.
ghost use Rattle.std.specs.Prelude.{◌≡◌, ℕ, List, IfSome, None};
ghost use Rattle.ether_base.specs.Formats.LinuxSllProtocolType.{told_ether_type};
ghost use Rattle.ether_sll2.specs.LinuxSll2.{AcceptsLinuxSll2, protocol_of_header};
ghost use Rattle.ether_pcap.specs.CaptureViews.{captured_packet_view};
ghost use Rattle.ether_peel.specs.Walker.Start.{next_of};
ghost use Rattle.ether_peel.specs.Grammar.Expectation.{Next};
ghost use Rattle.ether_content.specs.Content.{IsWalked, content_of, cooked_content, fcs_len, has_fcs, is_cut, is_unknown, whole_len, without_fcs};
ghost use Rattle.ether_content.specs.Content as contents;
ghost use Rattle.ether_content.specs.ContentViews.{content_view};

use crate::cooked::{CookedHeader, cooked_header};
use ether_pcap::{CapturedPacket, LinkType};
use ether_peel::Start;
use ether_sll2::LinuxSll2Slice;

/// The length in bytes of the frame check sequence of Ethernet.
pub(crate) const FCS_LEN: usize = 4;

/// The part of a packet that is walked, by its link type.
///
/// ```
/// let packet = CapturedPacket {
///     time: None,
///     interface: None,
///     direction: None,
///     comment: None,
///     original_len: 60,
///     link_type: LinkType::ETHERNET,
///     snap_len: 262_144,
///     fcs_len: None,
///     packet: &[0xFF; 14],
/// };
/// assert_eq!(rt; Content::of(&packet).frame(), Some((Start::Ethernet2, [0xFF; 14].as_slice())));
/// assert!(rt; is_cut(&packet));
/// ```
#[derive(Clone, Copy, Debug)]
pub enum Content<'a> {
    /// A frame, and how its walk starts. The frame has a frame check sequence only if the start says so.
    Frame(Start, &'a [u8]),
    /// A packet of Linux cooked capture v1 whose hardware type is not that of Ethernet, and gives protocol numbers no
    /// meaning of its own: the header, and the payload, which is walked with the protocol as its ether type.
    LinuxSll(CookedHeader, &'a [u8]),
    /// A packet of Linux cooked capture v2.
    LinuxSll2(&'a [u8]),
    /// Nothing: the walk does not know the link type.
    Unknown,
}

impl<'a> Content<'a> {
    /// The part of a packet that is walked, by its link type.
    ///
    /// A frame check sequence whose length the capture gives is left out, with one exception: one of four bytes
    /// remains part of an Ethernet frame that was not cut.
    #[inline(always)]
    pub fn of(packet: &CapturedPacket<'a>) -> Content<'a>
        ensures { content_view result ≡ content_of (captured_packet_view packet.now) }
    {
        if packet.link_type == LinkType::ETHERNET {
            if has_fcs(packet) {
                return Content::Frame(Start::Ethernet2Fcs, packet.packet);
            }
            return Content::Frame(Start::Ethernet2, without_fcs(packet));
        }
        if packet.link_type == LinkType::LINUX_SLL {
            return cooked_content(without_fcs(packet));
        }
        if packet.link_type == LinkType::LINUX_SLL2 {
            return Content::LinuxSll2(without_fcs(packet));
        }
        Content::Unknown
    }

    /// Returns `true` if nothing is walked.
    #[inline(always)]
    pub fn is_unknown(self) -> bool
        ensures { result ≡ is_unknown (content_view self.entry) }
    {
        matches!(self, Content::Unknown)
    }

    /// The frame, and how its walk starts. For a packet of cooked capture v1 that is not read as a frame, it is the
    /// payload. For one of v2 it is the payload, too, if the header can be read and an ether type announces the
    /// payload; else `None`.
    pub fn frame(self) -> Option<(Start, &'a [u8])>
        ensures some { IfSome result (λ frame. IsWalked (content_view self.entry) (next_of frame.0) frame.1.now) }
        ensures none { result ≡ None → (next : Next) (bytes : List ℕ) → IsWalked (content_view self.entry) next bytes
            → ⊥ }
    {
        match self {
            Content::Frame(start, bytes) => Some((start, bytes)),
            Content::LinuxSll(header, payload) => {
                Some((Start::EtherType(header.protocol), payload))
            }
            Content::LinuxSll2(bytes) => payload_of(bytes),
            Content::Unknown => None,
        }
    }
}

/// The part of a packet of cooked capture v1 that is walked.
fn cooked_content(bytes: &[u8]) -> Content<'_>
    ensures { content_view result ≡ cooked_content bytes.now }
{
    match cooked_header(bytes) {
        Some(header) => Content::LinuxSll(header, &bytes[CookedHeader::LEN..]),
        None => Content::Frame(Start::LinuxSll, bytes),
    }
}

/// The payload of a packet of cooked capture v2, and how its walk starts.
pub(crate) fn payload_of(bytes: &[u8]) -> Option<(Start, &[u8])>
    ensures some { IfSome result (λ frame. IsWalked (contents.LinuxSll2 bytes.now) (next_of frame.0) frame.1.now) }
    ensures none { result ≡ None → AcceptsLinuxSll2 bytes.now → told_ether_type (protocol_of_header bytes.now) ≡ None }
{
    let Ok(packet) = LinuxSll2Slice::from_slice(bytes) else {
        return None;
    };
    match packet.start() {
        Some(start) => Some((start, packet.payload_slice())),
        None => None,
    }
}

/// Returns `true` if some bytes of the packet were not captured.
#[inline(always)]
pub fn is_cut(packet: &CapturedPacket<'_>) -> bool
    ensures { result ≡ is_cut (captured_packet_view packet.now) }
{
    packet.packet.len() < packet.original_len as usize
}

/// The length of the frame check sequence at the end of the packet before it was cut; 0 if the capture does not give
/// it.
pub(crate) fn fcs_len(packet: &CapturedPacket<'_>) -> usize
    ensures { result ≡ fcs_len (captured_packet_view packet.now) }
{
    usize::from(packet.fcs_len.unwrap_or(0))
}

/// Whether an Ethernet frame was captured with its whole frame check sequence.
fn has_fcs(packet: &CapturedPacket<'_>) -> bool
    ensures { result ≡ has_fcs (captured_packet_view packet.now) }
{
    !is_cut(packet) && fcs_len(packet) == FCS_LEN
}

/// The captured bytes without those of the frame check sequence, if the capture gives its length.
///
/// ```
/// let packet = CapturedPacket {
///     time: None,
///     interface: None,
///     direction: None,
///     comment: None,
///     original_len: 18,
///     link_type: LinkType::ETHERNET,
///     snap_len: 262_144,
///     fcs_len: Some(4),
///     packet: &[0xFF; 16],
/// };
/// assert_eq!(rt; without_fcs(&packet), [0xFF; 14].as_slice());
/// ```
pub fn without_fcs<'a>(packet: &CapturedPacket<'a>) -> &'a [u8]
    ensures { result.now ≡ without_fcs (captured_packet_view packet.now) }
{
    &packet.packet[..whole_len(packet).min(packet.packet.len())]
}

/// The length of the packet before it was cut, without its frame check sequence.
pub(crate) fn whole_len(packet: &CapturedPacket<'_>) -> usize
    ensures { result ≡ whole_len (captured_packet_view packet.now) }
{
    let captured_len = packet.packet.len();
    captured_len
        .max(packet.original_len as usize)
        .saturating_sub(fcs_len(packet))
}
