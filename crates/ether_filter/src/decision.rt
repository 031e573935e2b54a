//! Whether a packet matches, as far as its captured bytes tell.

/// Whether a packet matches, as far as its captured bytes tell.
#[derive(Clone, Copy, PartialEq, Eq, Debug)]
pub enum Decision {
    /// It matches, whatever the missing bytes are.
    Matches,
    /// It does not match, whatever the missing bytes are.
    Fails,
    /// It is unknown whether it matches, and remains unknown while fewer bytes of the frame than these are captured.
    Needs(usize),
}

impl Default for Decision {
    fn default() -> Decision {
        Decision::Fails
    }
}
