//! What a run is asked for.

/// How frames are written.
#[derive(Clone, Copy, PartialEq, Eq, Debug)]
pub enum Form {
    /// As a capture.
    Capture,
    /// As lines of hexadecimal digits, one for each frame.
    Hex,
}

/// What a run is asked for.
#[derive(Clone, Copy, PartialEq, Eq, Debug)]
pub struct Settings {
    /// Whether frames of Ethernet are padded to 60 bytes.
    pub pad: bool,
    /// Whether frames of Ethernet get their check sequence.
    pub fcs: bool,
    /// How frames are written.
    pub form: Form,
    /// How many frames each line has; without it one for each combination of the numbers of its ranges.
    pub count: Option<u64>,
    /// What random numbers are drawn from.
    pub seed: u64,
    /// How many frames a second has.
    pub rate: Option<u64>,
}
