//! What a filter is applied to.
use ether_peel::Start;

/// When a packet was captured.
#[derive(Clone, Copy, PartialEq, Eq, Debug)]
pub struct PacketTime {
    /// The seconds since the beginning of 1970, UTC.
    pub seconds: u64,
    /// The nanoseconds after them.
    pub nanoseconds: u32,
}

/// A packet of a capture.
#[derive(Clone, Copy, PartialEq, Eq, Debug)]
pub struct Packet<'a> {
    /// What the frame begins with.
    pub start: Start,
    /// The captured bytes of the frame. They end in a frame check sequence only if `start` says so.
    pub frame: &'a [u8],
    /// The number of captured bytes. It exceeds the length of `frame` if the capture has a header of its own before
    /// the frame, or a frame check sequence after it.
    pub captured_len: usize,
    /// The number of bytes of the packet on the wire.
    pub original_len: u32,
    /// When the packet was captured, if the capture says it.
    pub time: Option<PacketTime>,
}
