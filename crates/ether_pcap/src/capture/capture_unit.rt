//! A unit of a capture file of either format.
use crate::CapturedPacket;

/// A unit of a capture file: the file header or a record of a classic file, or a block of a pcapng file.
#[derive(Clone, Copy, PartialEq, Eq, Debug)]
pub struct CaptureUnit<'a> {
    /// The length of the unit in bytes. The next unit begins after it.
    pub len: usize,
    /// The packet, if the unit has one.
    pub packet: Option<CapturedPacket<'a>>,
}
