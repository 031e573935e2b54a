//! The time of a capture.
ghost use Rattle.std.specs.Prelude.{◌≡◌};
ghost use Rattle.ether_pcap.specs.Capture.{time_of};
ghost use Rattle.ether_pcap.specs.CaptureViews.{timestamp_view};

/// The time of a capture, counted from the beginning of 1970, UTC.
///
/// ```
/// let early = Timestamp {
///     seconds: 1_700_000_000,
///     nanoseconds: 5_000,
/// };
/// assert_eq!(rt; early.nanoseconds, 5_000);
/// ```
#[derive(Clone, Copy, PartialEq, Eq, Debug)]
pub struct Timestamp {
    /// The whole seconds.
    pub seconds: u64,
    /// The nanoseconds after them. Less than 1,000,000,000 in each time that a reader returns.
    pub nanoseconds: u32,
}

impl Timestamp {
    /// The time of a number of nanoseconds since the beginning of 1970, UTC.
    pub(crate) fn from_nanoseconds(nanoseconds: u64) -> Timestamp
        ensures { timestamp_view result ≡ time_of nanoseconds }
    {
        Timestamp {
            seconds: nanoseconds / 1_000_000_000,
            nanoseconds: (nanoseconds % 1_000_000_000) as u32,
        }
    }
}
