//! The header of a classic pcap file.
ghost use Rattle.std.specs.Prelude.{◌≡◌, ◌<◌, ◌≤◌, ℕ, List, length, ◌++◌, slice_range, IfOk, IfErr};
ghost use Rattle.ether_pcap.specs.FileHeader.{IsFileHeader, RefusesFile, HasMagic, fcs_len_of};
ghost use Rattle.ether_pcap.specs.Writing.{WritesFileHeader, HasFcsLen, link_word_of, zeros};
ghost use Rattle.ether_pcap.specs.Views.{order_of, resolution_of, file_header_view, file_refusal_view};

use crate::{ByteOrder, FileHeaderError, LinkType, TimestampResolution};

/// The header of a classic pcap file (draft-ietf-opsawg-pcap, section 4), 24 bytes: how the records after it are to be
/// read.
///
/// ```text
///  0       4       6       8            16         20         24
///  +-------+-------+-------+------------+----------+----------+
///  | magic | major | minor |  not read  | snap len |   link   |
///  +-------+-------+-------+------------+----------+----------+
/// ```
///
/// Each number is in the byte order of the machine that wrote the file, which the magic number shows. In the last
/// number the 16 lowest bits are the link type. If bit 26 is set (P; the lowest bit is bit 0), bits 28 to 31 are the
/// length of the frame check sequence in units of two bytes. Bits 16 to 25 and 27 are reserved and ignored.
///
/// ```
/// let bytes = [
///     0xD4, 0xC3, 0xB2, 0xA1, 0x02, 0x00, 0x04, 0x00, 0x00, 0x00, 0x00, 0x00, //
///     0x00, 0x00, 0x00, 0x00, 0xFF, 0xFF, 0x00, 0x00, 0x01, 0x00, 0x00, 0x24,
/// ];
/// let header = FileHeader::from_slice(&bytes)?;
/// assert_eq!(rt; header.byte_order, ByteOrder::LittleEndian);
/// assert_eq!(rt; header.resolution, TimestampResolution::Microseconds);
/// assert_eq!(rt; header.snap_len, 65535);
/// assert_eq!(rt; header.link_type, LinkType::ETHERNET);
/// assert_eq!(rt; header.fcs_len, Some(4));
/// assert_eq!(rt; header.to_bytes(), bytes);
/// ```
#[derive(Clone, Copy, PartialEq, Eq, Debug)]
pub struct FileHeader {
    /// The order of the bytes of each number in the file.
    pub byte_order: ByteOrder,
    /// The unit of the second number in each record's time.
    pub resolution: TimestampResolution,
    /// The length in bytes to which longer packets were cut when they were captured.
    pub snap_len: u32,
    /// What each packet begins with.
    pub link_type: LinkType,
    /// The length in bytes of the frame check sequence at the end of each packet, if the file gives it: an even number
    /// up to 30.
    pub fcs_len: Option<u8>,
}

impl FileHeader {
    /// The length of the header in bytes.
    pub const LEN: usize = 24;

    /// Reads the header at the front of a slice. The records begin after its 24 bytes.
    ///
    /// # Errors
    ///
    /// The first of these that holds:
    ///
    /// - `FileHeaderError::Len`: the slice has fewer than 24 bytes. `required_len` is 24, `len` the slice's length.
    /// - `FileHeaderError::Magic`: the first four bytes are neither 0xA1B2C3D4 nor 0xA1B23C4D, in either byte order.
    /// - `FileHeaderError::Version`: the version, which the error names, is not 2.4.
    #[tactic(auto, using(crate::specs::FileHeader::short, crate::specs::FileHeader::version))]
    pub fn from_slice(slice: &[u8]) -> Result<FileHeader, FileHeaderError>
        ensures header { IfOk result (λ h. IsFileHeader slice.now (file_header_view h)) }
        ensures refused { IfErr result (λ e. RefusesFile slice.now (file_refusal_view e)) }
    {
        if slice.len() < FileHeader::LEN {
            return Err(FileHeaderError::Len {
                required_len: FileHeader::LEN,
                len: slice.len(),
            });
        }
        let (byte_order, resolution) = magic(slice)?;
        let major = byte_order.u16_at(slice, 4);
        let minor = byte_order.u16_at(slice, 6);
        if (major, minor) != (2, 4) {
            return Err(FileHeaderError::Version { major, minor });
        }
        let link = byte_order.u32_at(slice, 20);
        Ok(FileHeader {
            byte_order,
            resolution,
            snap_len: byte_order.u32_at(slice, 16),
            link_type: LinkType((link % 0x1_0000) as u16),
            fcs_len: fcs_len(link),
        })
    }

    /// The 24 bytes of the header. Bytes that are not read, and reserved bits, are 0.
    ///
    /// `fcs_len` should be even and at most 30. Of any other number, half of it, rounded down and modulo 16, is
    /// written.
    pub fn to_bytes(&self) -> [u8; 24]
        ensures value { WritesFileHeader result (file_header_view self.now) }
        ensures len { length result ≡ 24 }
        ensures read_back { HasFcsLen self.now.fcs_len → (rest : List ℕ)
            → IsFileHeader (result ++ rest) (file_header_view self.now) }
    {
        let order = self.byte_order;
        joined(
            order.bytes_of_u32(self.resolution.magic()),
            order.bytes_of_u16(2),
            order.bytes_of_u16(4),
            order.bytes_of_u32(self.snap_len),
            order.bytes_of_u32(link_word(self.link_type, self.fcs_len)),
        )
    }
}

/// Three numbers, eight zeros, and two numbers, one after the other.
fn joined(
    magic: [u8; 4],
    major: [u8; 2],
    minor: [u8; 2],
    snap_len: [u8; 4],
    link: [u8; 4],
) -> [u8; 24]
    ensures magic { slice_range result 0 4 ≡ magic }
    ensures major { slice_range result 4 6 ≡ major }
    ensures minor { slice_range result 6 8 ≡ minor }
    ensures not_read { slice_range result 8 16 ≡ zeros 8 }
    ensures snap_len { slice_range result 16 20 ≡ snap_len }
    ensures link { slice_range result 20 24 ≡ link }
{
    let [m0, m1, m2, m3] = magic;
    let [a0, a1] = major;
    let [i0, i1] = minor;
    let [s0, s1, s2, s3] = snap_len;
    let [l0, l1, l2, l3] = link;
    [
        m0, m1, m2, m3, a0, a1, i0, i1, 0, 0, 0, 0, 0, 0, 0, 0, s0, s1, s2, s3, l0, l1, l2, l3,
    ]
}

/// The last number of the header.
fn link_word(link_type: LinkType, fcs_len: Option<u8>) -> u32
    ensures value { result ≡ link_word_of link_type.0 fcs_len }
    ensures fits { link_type.0 < 65536 }
{
    let link_type = u32::from(link_type.0);
    match fcs_len {
        None => link_type,
        Some(len) => u32::from(len / 2 % 16) * 0x1000_0000 + 0x400_0000 + link_type,
    }
}

/// The byte order and the resolution of times that the first four bytes show.
#[tactic(auto, using(crate::specs::FileHeader::magic))]
fn magic(slice: &[u8]) -> Result<(ByteOrder, TimestampResolution), FileHeaderError>
    requires { 24 ≤ length slice.now }
    ensures magic { IfOk result (λ m. HasMagic slice.now (order_of m.0) (resolution_of m.1)) }
    ensures refused { IfErr result (λ e. RefusesFile slice.now (file_refusal_view e)) }
{
    let number = ByteOrder::BigEndian.u32_at(slice, 0);
    if let Some(resolution) = TimestampResolution::of_magic(number) {
        return Ok((ByteOrder::BigEndian, resolution));
    }
    if let Some(resolution) = TimestampResolution::of_magic(ByteOrder::LittleEndian.u32_at(
        slice, 0,
    )) {
        return Ok((ByteOrder::LittleEndian, resolution));
    }
    Err(FileHeaderError::Magic(number))
}

/// The length in bytes of the frame check sequence, from the last number of the header.
fn fcs_len(link: u32) -> Option<u8>
    ensures { result ≡ fcs_len_of link }
{
    if link / 0x400_0000 % 2 == 1 {
        Some((link / 0x1000_0000) as u8 * 2)
    } else {
        None
    }
}
