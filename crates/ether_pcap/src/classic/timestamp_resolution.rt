//! The resolution of the timestamps of a file.
ghost use Rattle.std.specs.Prelude.{◌≡◌, ◌≢◌, MatchOption};
ghost use Rattle.ether_pcap.specs.FileHeader.{Resolution, magic_of};
ghost use Rattle.ether_pcap.specs.Views.{resolution_of};

/// The resolution of a file's timestamps: the unit of the second number of each. The file's magic number gives it.
///
/// ```
/// assert_eq!(rt; TimestampResolution::of_magic(0xA1B2_3C4D), Some(TimestampResolution::Nanoseconds));
/// ```
#[derive(Clone, Copy, PartialEq, Eq, Debug)]
pub enum TimestampResolution {
    /// Microseconds, with the magic number 0xA1B2C3D4.
    Microseconds,
    /// Nanoseconds, with the magic number 0xA1B23C4D.
    Nanoseconds,
}

impl TimestampResolution {
    /// The resolution of a file with this magic number. `None` if the format does not have that magic number.
    pub fn of_magic(magic: u32) -> Option<TimestampResolution>
        ensures { MatchOption result ((r : Resolution) → magic ≢ magic_of r) (λ resolution. magic
            ≡ magic_of (resolution_of resolution)) }
    {
        match magic {
            0xA1B2_C3D4 => Some(TimestampResolution::Microseconds),
            0xA1B2_3C4D => Some(TimestampResolution::Nanoseconds),
            _ => None,
        }
    }

    /// The magic number of a file with this resolution.
    pub fn magic(self) -> u32
        ensures { result ≡ magic_of (resolution_of self) }
    {
        match self {
            TimestampResolution::Microseconds => 0xA1B2_C3D4,
            TimestampResolution::Nanoseconds => 0xA1B2_3C4D,
        }
    }
}
