//! Writes fields to an array.
ghost use Rattle.std.specs.Prelude.{◌≡◌, ◌+◌, ◌<◌, ◌^◌, length, slice_set};
ghost use Rattle.ether_c.specs.FieldViews.{put_all, AreIn, c_table};

use crate::EtherField;
use ether_fields::FieldPlace;

/// Writes the fields of a table, in what starts at a byte of the frame, to an array from an index on, and returns the
/// index after them.
pub(crate) fn put_table(
    bytes: &[u8],
    unit: usize,
    start: usize,
    table: &[FieldPlace],
    fields: &mut [EtherField],
    at: usize,
) -> usize
    requires within { AreIn bytes.now start table.now }
    requires room { at + length table.now < 2 ^ 64 }
    ensures fields { fields.new ≡ put_all fields.old at (c_table bytes.now unit start table.now) }
    ensures next { result ≡ at + length table.now }
{
    let mut next = at;
    for place in table {
        put(fields, next, EtherField::of(bytes, unit, start, *place));
        next += 1;
    }
    next
}

/// Writes a field to the index `at`, if the array has that index.
#[inline(always)]
fn put(fields: &mut [EtherField], at: usize, field: EtherField)
    ensures { fields.new ≡ slice_set fields.old at field }
{
    if at < fields.len() {
        fields[at] = field;
    }
}
