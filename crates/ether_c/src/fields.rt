//! Writes the fields of a frame's headers to an array.
ghost use Rattle.std.specs.Prelude.{◌≡◌, ◌+◌, ◌*◌, ◌<◌, ◌≤◌, ◌^◌, length, slice_set};
ghost use Rattle.etherparse.specs.Header.{header_len, trailer_len};
ghost use Rattle.ether_peel.specs.Walker.Start.{start_of as start_meant};
ghost use Rattle.ether_c.specs.Starts.{IsUnknown, IsUnknownStart, OfStart};
ghost use Rattle.ether_peel.specs.Walker.UnitHeader.{unit_header};
ghost use Rattle.ether_fields.specs.Units.{header_fields, trailer_fields};
ghost use Rattle.ether_c.specs.Fields.{GivesFields, HasFields};
ghost use Rattle.ether_c.specs.FieldViews.{put_all, AreIn, c_table, c_placed_fields};

use crate::EtherField;
use crate::field_putting::put_table;
use crate::numbers::start_of;
use crate::statuses::{DONE, UNKNOWN_START};
use ether_fields::{Part, Section, places, section_of, sizes_of};
use ether_peel::{Peel, PeelUnit, Start};

/// Writes as many fields of a frame's headers as the array has room for, and the number of all its fields. An address
/// of length 0 is a field of 0 bits.
#[unsafe(no_mangle)]
pub extern "C" fn etherpeel_fields(
    start: u32,
    ether_type: u16,
    bytes: &[u8],
    fields: &mut [EtherField],
    count: &mut usize,
) -> u32
    ensures unknown { IsUnknown start ether_type
        → IsUnknownStart result ((fields.new ≡ fields.old) × (count.new ≡ count.old)) }
    ensures given { OfStart start ether_type
        (λ s. GivesFields (start_meant s) bytes.now fields.old fields.new result count.new) }
{
    let Some(start) = start_of(start, ether_type) else {
        return UNKNOWN_START;
    };
    *count = fields_walked(start, bytes, fields);
    DONE
}

/// The index of a unit, the offset at which it starts, and that at which its payload ends.
#[derive(Clone, Copy)]
struct NumberedUnit {
    index: usize,
    start: usize,
    payload_end: usize,
}

/// Writes the fields of the units of a walk, and returns the number of all of them.
fn fields_walked(start: Start, bytes: &[u8], fields: &mut [EtherField]) -> usize
    ensures { HasFields (start_meant start) bytes.now fields.old fields.new result }
{
    let mut peel = Peel::new(start, bytes);
    let mut count = 0;
    let mut index = 0;
    loop {
        let start = peel.offset();
        match peel.next() {
            Some(Ok(unit)) => {
                let place = NumberedUnit {
                    index,
                    start,
                    payload_end: peel.offset() + peel.rest().len(),
                };
                count = put_unit(bytes, &unit, place, fields, count);
                index += 1;
            }
            Some(Err(_)) => return count,
            None => return count,
        }
    }
}

/// Writes the fields of a unit to an array from an index on, and returns the index after them.
fn put_unit(
    bytes: &[u8],
    unit: &PeelUnit<'_>,
    place: NumberedUnit,
    fields: &mut [EtherField],
    at: usize,
) -> usize
    requires header { place.start + header_len (unit_header unit.now) ≤ length bytes.now }
    requires trailer { place.payload_end + trailer_len (unit_header unit.now) ≤ length bytes.now }
    requires room { at + length (header_fields (unit_header unit.now)) + length (trailer_fields (unit_header unit.now))
        < 2 ^ 64 }
    ensures fields { fields.new ≡ put_all fields.old at
        (c_placed_fields bytes.now place.index place.start place.payload_end (unit_header unit.now)) }
    ensures next { result ≡ at + length (header_fields (unit_header unit.now))
        + length (trailer_fields (unit_header unit.now)) }
{
    let next = put_header(bytes, unit, place, fields, at);
    match unit {
        PeelUnit::Ethernet2(frame) if frame.fcs().is_some() => {
            let table = places(Section::Eth, &Part::Trailer);
            put_table(
                bytes,
                place.index,
                place.payload_end,
                table.as_slice(),
                fields,
                next,
            )
        }
        _ => next,
    }
}

/// Writes the fields of a unit's header.
fn put_header(
    bytes: &[u8],
    unit: &PeelUnit<'_>,
    place: NumberedUnit,
    fields: &mut [EtherField],
    at: usize,
) -> usize
    requires header { place.start + header_len (unit_header unit.now) ≤ length bytes.now }
    requires room { at + length (header_fields (unit_header unit.now)) < 2 ^ 64 }
    ensures fields { fields.new ≡ put_all fields.old at
        (c_table bytes.now place.index place.start (header_fields (unit_header unit.now))) }
    ensures next { result ≡ at + length (header_fields (unit_header unit.now)) }
{
    let table = places(section_of(unit), &Part::Header(sizes_of(unit)));
    put_table(
        bytes,
        place.index,
        place.start,
        table.as_slice(),
        fields,
        at,
    )
}
