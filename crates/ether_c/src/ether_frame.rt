//! The part of a captured packet that is walked, as a struct of C.
ghost use Rattle.std.specs.Prelude.{◌≡◌, ℕ, List, Some, None, IfSome};
ghost use Rattle.ether_peel.specs.Grammar.Expectation.{Next};
ghost use Rattle.ether_content.specs.Content.{IsWalked};
ghost use Rattle.ether_content.specs.ContentViews.{content_view};
ghost use Rattle.ether_c.specs.CapturedFrame.{HoldsFrame, frame_offset, first_ether_type};
ghost use Rattle.ether_c.specs.Numbers.{start_numbered};

use ether_content::{Content, CookedHeader};
use ether_peel::Start;
use ether_sll2::LinuxSll2Header;

/// The part of a captured packet that is walked: `etherpeel_frame` in C.
#[repr(C)]
#[derive(Clone, Copy)]
pub struct EtherFrame<'a> {
    /// The bytes of the frame, inside the packet.
    pub bytes: &'a [u8],
    /// The offset of the frame in bytes from the start of the packet.
    pub offset: usize,
    /// The number of the start of its walk.
    pub start: u32,
    /// The ether type that announces the frame, if its walk starts with an ether type; else 0.
    pub ether_type: u16,
}

// as c/etherpeel.h lays it out
const _: () = prove!(size_of::<EtherFrame<'_>>() == 32);

impl<'a> EtherFrame<'a> {
    /// The frame that is walked of a packet.
    pub(crate) fn of(content: Content<'a>) -> Option<EtherFrame<'a>>
        ensures some { IfSome result (HoldsFrame (content_view content.entry)) }
        ensures none { result ≡ None → (next : Next) (bytes : List ℕ)
            → IsWalked (content_view content.entry) next bytes → ⊥ }
    {
        let (start, bytes) = content.frame()?;
        let (start, ether_type) = numbers_of(start);
        Some(EtherFrame {
            bytes,
            offset: offset_of(content),
            start,
            ether_type,
        })
    }
}

/// The offset of a frame in its packet.
fn offset_of(content: Content<'_>) -> usize
    ensures { result ≡ frame_offset (content_view content.entry) }
{
    match content {
        Content::LinuxSll(..) => CookedHeader::LEN,
        Content::LinuxSll2(_) => LinuxSll2Header::LEN,
        Content::Frame(..) | Content::Unknown => 0,
    }
}

/// The number of a start, and its ether type.
fn numbers_of(start: Start) -> (u32, u16)
    ensures start { start_numbered result.0 result.1 ≡ Some start }
    ensures ether_type { result.1 ≡ first_ether_type start }
{
    match start {
        Start::Ethernet2 => (1, 0),
        Start::Ethernet2Fcs => (2, 0),
        Start::LinuxSll => (3, 0),
        Start::EtherType(ether_type) => (4, ether_type.0),
    }
}
