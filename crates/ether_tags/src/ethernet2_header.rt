//! The Ethernet II header as a value.
ghost use Rattle.std.specs.Prelude.{ℕ, List, ◌≡◌, ◌≤◌, ◌<◌, ◌++◌, length, drop, slice_range, IfOk, IfErr, OnErr};
ghost use Rattle.std.specs.Borrow.{sem};
ghost use Rattle.ether_base.specs.declared.len_source.LenSource.TheVariants as sources;
ghost use Rattle.ether_base.specs.Bytes.{number};
ghost use Rattle.ether_base.specs.Formats.Ethernet2.{Ethernet2Value, IsEthernet2, ethernet2_bytes, FitsEthernet2};
ghost use Rattle.ether_base.specs.Formats.Header as headers;
ghost use Rattle.ether_base.specs.Formats.Header.{Means};
ghost use Rattle.ether_base.specs.Formats.Kind as kinds;
ghost use Rattle.ether_base.specs.Formats.Refusal.{Accepts};
ghost use Rattle.ether_base.specs.Formats.RefusedLen.{IsRefusedLen};
ghost use Rattle.ether_base.specs.WriteFront.{AnswersRest, LendsRest};
ghost use Rattle.ether_tags.specs.Ethernet2.{ethernet2_header_of, ethernet2_view, ethernet2_value};

use crate::{Ethernet2HeaderSlice, ethernet2_fields};
use ether_base::err::{Layer, LenError, SliceWriteSpaceError};
use ether_base::{EtherType, write_front};

/// The header of an Ethernet II frame (IEEE 802.3, 3.1.1), 14 bytes on the wire:
///
/// ```text
/// byte 0             6             12     14
///      +-------------+-------------+------+
///      | destination |   source    | type |
///      +-------------+-------------+------+
/// ```
///
/// If a frame has a length in place of the type, which is at most 1500 (IEEE 802.3, 3.2.6), `ether_type` is that
/// length, unchanged.
///
/// ```
/// let header = Ethernet2Header {
///     source: [2, 0, 0, 0, 0, 1],
///     destination: [0xFF; 6],
///     ether_type: EtherType::IPV4,
/// };
/// let bytes = [255, 255, 255, 255, 255, 255, 2, 0, 0, 0, 0, 1, 0x08, 0x00];
/// assert_eq!(rt; header.to_bytes(), bytes);
/// assert_eq!(rt; Ethernet2Header::from_bytes(bytes), header);
/// ```
#[derive(Clone, Copy, PartialEq, Eq, Debug, Default)]
pub struct Ethernet2Header {
    /// The source MAC address.
    pub source: [u8; 6],
    /// The destination MAC address.
    pub destination: [u8; 6],
    /// The protocol of what follows the header, or the length of what follows in an IEEE 802.3 frame.
    pub ether_type: EtherType,
}

impl Ethernet2Header {
    /// The length of the header in bytes.
    pub const LEN: usize = 14;

    /// The same as [`Ethernet2Header::LEN`], under its older name.
    pub const SERIALIZED_SIZE: usize = 14;

    /// Reads the header at the front of a slice, and returns it with the rest of the slice.
    ///
    /// # Errors
    ///
    /// The slice has fewer than 14 bytes: `required_len` is 14, `len` the slice's length, `len_source` is
    /// `LenSource::Slice`, `layer` is [`Layer::Ethernet2Header`] and `layer_start_offset` is 0.
    pub fn from_slice(slice: &[u8]) -> Result<(Ethernet2Header, &[u8]), LenError>
        ensures accepted { IfOk result (λ answer. Accepts sources.Slice slice.now kinds.Ethernet2) }
        ensures fields { IfOk result (λ answer. answer.0 ≡ ethernet2_header_of slice.now) }
        ensures value { IfOk result
            (λ answer. Means slice.now (headers.Ethernet2 (ethernet2_view answer.0))) }
        ensures rest { IfOk result
            (λ answer. answer.1.now ≡ slice_range slice.now 14 (length slice.now)) }
        ensures refused { IfErr result (IsRefusedLen slice.now kinds.Ethernet2) }
        ensures short { OnErr result (length slice.now < 14) }
    {
        let header = Ethernet2HeaderSlice::from_slice(slice)?.to_header();
        Ok((header, &slice[Ethernet2Header::LEN..]))
    }

    /// The same as [`Ethernet2Header::from_slice`], under its older name.
    ///
    /// # Errors
    ///
    /// Those of [`Ethernet2Header::from_slice`].
    pub fn read_from_slice(slice: &[u8]) -> Result<(Ethernet2Header, &[u8]), LenError>
        ensures accepted { IfOk result (λ answer. Accepts sources.Slice slice.now kinds.Ethernet2) }
        ensures fields { IfOk result (λ answer. answer.0 ≡ ethernet2_header_of slice.now) }
        ensures value { IfOk result
            (λ answer. Means slice.now (headers.Ethernet2 (ethernet2_view answer.0))) }
        ensures rest { IfOk result
            (λ answer. answer.1.now ≡ slice_range slice.now 14 (length slice.now)) }
        ensures refused { IfErr result (IsRefusedLen slice.now kinds.Ethernet2) }
        ensures short { OnErr result (length slice.now < 14) }
    {
        Ethernet2Header::from_slice(slice)
    }

    /// Reads the header from its 14 bytes. Any 14 bytes are a header.
    pub fn from_bytes(bytes: [u8; 14]) -> Ethernet2Header
        ensures fields { result ≡ ethernet2_header_of bytes }
        ensures value { IsEthernet2 bytes (ethernet2_view result) }
        ensures inverse { ethernet2_bytes (ethernet2_view result) ≡ bytes }
    {
        ethernet2_fields::header(&bytes)
    }

    /// The length of the header in bytes, which is [`Ethernet2Header::LEN`].
    pub fn header_len(&self) -> usize
        ensures { result ≡ 14 }
    {
        Ethernet2Header::LEN
    }

    /// The bytes of the header on the wire.
    pub fn to_bytes(&self) -> [u8; 14]
        ensures value { result ≡ ethernet2_bytes (ethernet2_view self.now) }
        ensures len { length result ≡ 14 }
        ensures fits { FitsEthernet2 (ethernet2_view self.now) }
        ensures inverse { (e : Ethernet2Value)
            → IsEthernet2 result e → e ≡ ethernet2_view self.now }
        ensures accepted { (more : List ℕ)
            → Accepts sources.Slice (result ++ more) kinds.Ethernet2 }
        ensures read_back { (more : List ℕ) → ethernet2_header_of (result ++ more) ≡ self.now }
        ensures same { ethernet2_header_of result ≡ self.now }
    {
        joined(&self.destination, &self.source, self.ether_type.0)
    }

    /// Writes the header to the front of a slice, and lends the rest of the slice for writing.
    ///
    /// # Errors
    ///
    /// The slice has fewer than 14 bytes, and is unchanged: `required_len` is 14, `len` the slice's length, `layer` is
    /// [`Layer::Ethernet2Header`] and `layer_start_offset` is 0.
    pub fn write_to_slice<'a>(
        &self,
        slice: &'a mut [u8],
    ) -> Result<&'a mut [u8], SliceWriteSpaceError>
        ensures* writes_back { sem 𝓛
            (LendsRest (ethernet2_bytes (ethernet2_view self.now)) slice.entry result) }
        ensures answers { AnswersRest 14 Layer.Ethernet2Header slice.old result }
    {
        let whole = self.put(slice);
        write_front::rest_from(whole, Ethernet2Header::LEN, Layer::Ethernet2Header)
    }

    /// Writes the header to the front of a slice, and returns the whole slice. One without room for it is unchanged.
    fn put<'a>(&self, slice: &'a mut [u8]) -> &'a mut [u8]
        ensures same_reference { result.ghost_name ≡ slice.entry.ghost_name }
        ensures wrote { 14 ≤ length slice.old
            → result.now ≡ ethernet2_bytes (ethernet2_view self.now) ++ drop 14 slice.old }
        ensures kept { length slice.old < 14 → result.now ≡ slice.old }
        ensures width { length (ethernet2_bytes (ethernet2_view self.now)) ≡ 14 }
    {
        write_front::put(self.to_bytes(), slice)
    }
}

/// The 14 bytes of a header with these two addresses of 6 bytes and this ether type.
fn joined(destination: &[u8], source: &[u8], ether_type: u16) -> [u8; 14]
    requires destination { length destination.now ≡ 6 }
    requires source { length source.now ≡ 6 }
    ensures destination { slice_range result 0 6 ≡ destination.now }
    ensures source { slice_range result 6 12 ≡ source.now }
    ensures ether_type { number (slice_range result 12 14) ≡ ether_type }
    ensures value { IsEthernet2 result (ethernet2_value destination.now source.now ether_type) }
    ensures bytes { result
        ≡ ethernet2_bytes (ethernet2_value destination.now source.now ether_type) }
{
    let d = destination;
    let s = source;
    let t = ether_type.to_be_bytes();
    [
        d[0], d[1], d[2], d[3], d[4], d[5], s[0], s[1], s[2], s[3], s[4], s[5], t[0], t[1],
    ]
}
