//! How many packets there are, and how many bytes they had.
ghost use Rattle.std.specs.Prelude.{◌≡◌, Some};
ghost use Rattle.ether_capture.specs.KeyCounts.{one_packet, plus};

/// How many packets there are, and how many bytes they had.
#[derive(Clone, Copy, PartialEq, Eq, Debug)]
pub struct Count {
    /// How many packets.
    pub packets: usize,
    /// How many bytes these had.
    pub bytes: usize,
}

impl Count {
    /// The count of one packet that had `bytes` bytes.
    pub(crate) fn of_packet(bytes: usize) -> Count
        ensures { result ≡ one_packet bytes }
    {
        Count { packets: 1, bytes }
    }

    /// This count with more packets.
    pub(crate) fn with(self, more: Count) -> Count
        ensures { result ≡ plus (Some self) more }
    {
        Count {
            packets: self.packets.saturating_add(more.packets),
            bytes: self.bytes.saturating_add(more.bytes),
        }
    }
}
