//! Where a packet comes from.

/// Where a packet comes from: its file, and its number.
#[derive(Clone, Copy, PartialEq, Eq, Debug)]
pub struct Origin<'a> {
    /// The name of its file, which may hold any byte. `None` for a stream without a name.
    pub file: Option<&'a [u8]>,
    /// Its number, counted from 1.
    pub number: usize,
}
