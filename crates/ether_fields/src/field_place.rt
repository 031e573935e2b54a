//! The places of the fields in a part of a unit.
ghost use Rattle.std.specs.Prelude.{◌≡◌, ◌≤◌, IfSome, drop};
ghost use Rattle.ether_fields.specs.Fields.{section_rows};
ghost use Rattle.ether_fields.specs.Places.{bits_of, placed};

use crate::extent::Extent;
use crate::part::Part;
use crate::section::Section;
use arrayvec::ArrayVec;

/// The number and the place of a field in its part of a unit.
#[derive(Clone, Copy, PartialEq, Eq, Debug, Default)]
pub struct FieldPlace {
    /// Its number in `enum etherpeel_field_name` of C.
    pub number: u32,
    /// The offset of its first bit from the start of that part.
    pub first: usize,
    /// The number of its bits.
    pub len: usize,
}

/// The most fields that have bits in one header.
const ROOM: usize = 13;

/// The number of names that precede the fields of a header: its name and its place.
const PLACE_LEN: usize = 5;

/// The places of the fields in a part of a unit, in order. The first begins at bit 0, and each where the one before it
/// ends.
pub fn places(section: Section, part: &Part) -> ArrayVec<FieldPlace, ROOM>
    ensures { result.items ≡ placed part.now 0 (drop 5 (section_rows section)) }
{
    let mut places = ArrayVec::new();
    let mut first = 0;
    let fields = section.fields();
    for field in &fields[PLACE_LEN.min(fields.len())..] {
        if let Some(len) = bits(field.extent, part) {
            places.push(FieldPlace {
                number: field.number,
                first,
                len,
            });
            first += len;
        }
    }
    places
}

/// How many bits a field has in a part of a unit, if it is there.
fn bits(extent: Extent, part: &Part) -> Option<usize>
    ensures value { result ≡ bits_of part.now extent }
    ensures fits { IfSome result (λ len. len ≤ 65535) }
{
    let Part::Header(sizes) = part else {
        return if extent == Extent::CheckSequence {
            Some(32)
        } else {
            None
        };
    };
    match extent {
        Extent::Bits(len) => Some(usize::from(len)),
        Extent::HardwareAddress => Some(usize::from(sizes.hardware)),
        Extent::ProtocolAddress => Some(usize::from(sizes.protocol)),
        Extent::SecureChannel if sizes.has_sci => Some(64),
        Extent::PayloadType if sizes.has_payload_type => Some(16),
        _ => None,
    }
}
