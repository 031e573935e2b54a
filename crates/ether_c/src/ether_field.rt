//! A field of a header, as a struct of C.
ghost use Rattle.std.specs.Prelude.{◌≡◌, ◌+◌, ◌*◌, ◌≤◌, length};
ghost use Rattle.ether_c.specs.FieldTables.{moved};
ghost use Rattle.ether_c.specs.Fields.{c_field};

use crate::field_value::field_value;
use ether_fields::FieldPlace;

/// A field of a header: `etherpeel_field` in C.
///
/// Each bit pattern is a value, so that C may pass memory that it has not written to.
#[repr(C)]
#[derive(Clone, Copy)]
pub struct EtherField {
    /// The offset of the field in bits from the start of the frame.
    pub bit_offset: usize,
    /// The number of its bits.
    pub bit_len: usize,
    /// Its value as a number, the first bit the most significant one; 0 if it has more than 64 bits.
    pub value: u64,
    /// The index of its unit.
    pub unit: u32,
    /// Its name: a number of `enum etherpeel_field_name` in C.
    pub name: u32,
}

// as c/etherpeel.h lays it out
const _: () = prove!(size_of::<EtherField>() == 32);

impl EtherField {
    /// The field at a place in the unit with this index, which starts at the offset `start`.
    pub(crate) fn of(bytes: &[u8], unit: usize, start: usize, place: FieldPlace) -> EtherField
        requires { 8 * start + (place.first + place.len) ≤ 8 * length bytes.now }
        ensures { result ≡ c_field bytes.now unit (moved start place) }
    {
        EtherField {
            bit_offset: start.wrapping_mul(8).wrapping_add(place.first),
            bit_len: place.len,
            value: field_value(bytes, start + place.first / 8, place.first % 8, place.len),
            unit: (unit % 0x1_0000_0000) as u32,
            name: place.number,
        }
    }
}
