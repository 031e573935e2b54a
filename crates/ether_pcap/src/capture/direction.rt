//! The direction of a packet.

/// Whether an interface received a packet or sent it, as the flags of the packet in a pcapng file say
/// (draft-ietf-opsawg-pcapng, section 4.3.1).
#[derive(Clone, Copy, PartialEq, Eq, Debug)]
pub enum Direction {
    /// The interface received the packet.
    Inbound,
    /// The interface sent the packet.
    Outbound,
}
