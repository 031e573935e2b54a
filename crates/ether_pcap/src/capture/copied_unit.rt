//! What a copy has for a unit without a packet.

/// What a copy has for a unit without a packet: the bytes of these fields, in order.
#[derive(Clone, Copy, PartialEq, Eq, Debug)]
pub enum CopiedUnit<'a> {
    /// The unit, unchanged.
    Same(&'a [u8]),
    /// Nothing: the unit is a custom block that is not meant to be copied to another capture.
    LeftOut,
    /// A file header or an interface description with another snap length.
    SnapLen {
        /// The bytes before the snap length.
        front: &'a [u8],
        /// The new snap length, in the byte order of the file.
        snap_len: [u8; 4],
        /// The bytes after the snap length.
        rest: &'a [u8],
    },
    /// A section header without a section length: 8 bytes of 0xFF belong between the two fields.
    SectionLen {
        /// The bytes before the section length.
        front: &'a [u8],
        /// The bytes after the section length.
        rest: &'a [u8],
    },
}
