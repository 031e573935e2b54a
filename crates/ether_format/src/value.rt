//! The value of a field.
use crate::interval::Interval;

/// The value of a field.
#[derive(Clone, Copy)]
pub(crate) enum Value<'a> {
    /// The header does not have it.
    Nothing,
    /// A number.
    Number(u64),
    /// An ether type, or another protocol number.
    Protocol(u16),
    /// Whether something holds.
    Flag(bool),
    /// The bytes of a MAC address.
    Mac([u8; 6]),
    /// The four bytes of a frame check sequence.
    Four([u8; 4]),
    /// The eight bytes of a secure channel identifier.
    Eight([u8; 8]),
    /// The first of these bytes, as many as the number says, or all if it is greater than 8.
    Short([u8; 8], usize),
    /// The bytes of an address of any length.
    Bytes(&'a [u8]),
    /// The bytes of an address of IPv4.
    Dotted(&'a [u8]),
    /// A word.
    Word(&'static str),
    /// A text, which may hold any byte.
    Text(&'a [u8]),
}

/// What a packet itself has in a field. Its date is computed only where it is written.
#[derive(Clone, Copy)]
pub(crate) enum Shown<'a> {
    /// The time of the packet.
    Time,
    /// The minute, the hour or the day of that time.
    Within(Interval),
    /// Another value.
    Value(Value<'a>),
}
