//! The fields of an Ethernet II header in bytes that begin with one (IEEE 802.3, 3.1.1): destination address, source
//! address and type, in this order.
ghost use Rattle.std.specs.Prelude.{◌≡◌, ◌==◌, ◌+◌, ◌≤◌, ◌<◌, length, slice_range};
ghost use Rattle.std.specs.Cmp.Lexicographic.{pointwise};
ghost use Rattle.ether_base.specs.Bytes.{IsBytes, spelled};
ghost use Rattle.ether_base.specs.Formats.Ethernet2.{ethernet2_of};
ghost use Rattle.ether_tags.specs.Ethernet2.{ethernet2_header_of, ethernet2_view};

use crate::Ethernet2Header;
use ether_base::EtherType;
use ether_base::big_endian::u16_in;
use std::ops::Range;

/// The bytes of the destination address.
const DESTINATION: Range<usize> = 0..6;

/// The bytes of the source address.
const SOURCE: Range<usize> = 6..12;

/// The bytes of the type.
const ETHER_TYPE: Range<usize> = 12..14;

/// The destination MAC address (IEEE 802.3, 3.2.4).
pub fn destination(bytes: &[u8]) -> [u8; 6]
    requires { 14 ≤ length bytes.now }
    ensures { result ≡ spelled 6 (ethernet2_of bytes.now).destination }
{
    address_at(bytes, DESTINATION)
}

/// The source MAC address (IEEE 802.3, 3.2.5).
pub fn source(bytes: &[u8]) -> [u8; 6]
    requires { 14 ≤ length bytes.now }
    ensures { result ≡ spelled 6 (ethernet2_of bytes.now).source }
{
    address_at(bytes, SOURCE)
}

/// The ether type, which is a length if it is at most 1500 (IEEE 802.3, 3.2.6).
pub fn ether_type(bytes: &[u8]) -> EtherType
    requires { 14 ≤ length bytes.now }
    ensures { result.0 ≡ (ethernet2_of bytes.now).ether_type }
{
    EtherType(u16_in(&bytes[ETHER_TYPE]))
}

/// The header with all its fields.
#[inline(always)]
pub fn header(bytes: &[u8]) -> Ethernet2Header
    requires { 14 ≤ length bytes.now }
    ensures fields { result ≡ ethernet2_header_of bytes.now }
    ensures value { ethernet2_view result ≡ ethernet2_of bytes.now }
    ensures bytes { IsBytes bytes.now }
{
    Ethernet2Header {
        source: address_at(bytes, SOURCE),
        destination: address_at(bytes, DESTINATION),
        ether_type: ether_type(bytes),
    }
}

/// Whether two headers have the same bytes. They are compared as arrays of 8, 4 and 2 bytes, each in one piece; slices
/// would be compared by a call.
pub fn are_same(a: &[u8], b: &[u8]) -> bool
    requires first { length a.now ≡ 14 }
    requires second { length b.now ≡ 14 }
    ensures { result ≡ pointwise ◌==◌ a.now b.now }
{
    [a[0], a[1], a[2], a[3], a[4], a[5], a[6], a[7]]
        == [b[0], b[1], b[2], b[3], b[4], b[5], b[6], b[7]]
        && [a[8], a[9], a[10], a[11]] == [b[8], b[9], b[10], b[11]]
        && [a[12], a[13]] == [b[12], b[13]]
}

/// The six bytes of an address, in their order on the wire.
fn address_at(bytes: &[u8], field: Range<usize>) -> [u8; 6]
    requires width { field.end ≡ field.start + 6 }
    requires within { field.end ≤ length bytes.now }
    ensures value { result ≡ slice_range bytes.now field.start field.end }
    ensures bytes { IsBytes result }
{
    let address = &bytes[field];
    [
        address[0], address[1], address[2], address[3], address[4], address[5],
    ]
}
