//! What fields and numbers are called.
ghost use Rattle.std.specs.Prelude.{◌≡◌};
ghost use Rattle.std.specs.Option.{option_map};
ghost use Rattle.ether_c.specs.FieldTexts.{PutsIfAny, field_kind as kind_meant, field_text, number_name};

use crate::numbers::{field_kind, field_kind_of};
use crate::putting::put_bytes;
use crate::statuses::NO_TEXT;
use ether_fields::{Field, name_of};

/// Writes a part of the row of a field: its name as a column, its title or its abbreviation.
#[unsafe(no_mangle)]
pub extern "C" fn etherpeel_field_text(
    name: u32,
    part: u32,
    text: &mut [u8],
    len: &mut usize,
) -> u32
    ensures { PutsIfAny (field_text name part) text.old text.new result len.new }
{
    let (status, needed) = put_if_any(part_of(name, part), text);
    *len = needed;
    status
}

/// The number of what the value of a field is; 0 if no field has the number.
#[unsafe(no_mangle)]
pub extern "C" fn etherpeel_field_kind(name: u32) -> u32
    ensures { result ≡ kind_meant name }
{
    match Field::of_number(name) {
        Some((_, field)) => field_kind(field.kind),
        None => 0,
    }
}

/// Writes the name of a number.
#[unsafe(no_mangle)]
pub extern "C" fn etherpeel_number_name(
    kind: u32,
    number: u64,
    text: &mut [u8],
    len: &mut usize,
) -> u32
    ensures { PutsIfAny (number_name kind number) text.old text.new result len.new }
{
    let (status, needed) = put_if_any(name_in(kind, number), text);
    *len = needed;
    status
}

/// A part of the row of a field.
fn part_of(name: u32, part: u32) -> Option<&'static str>
    ensures { option_map (λ s. s.now) result ≡ field_text name part }
{
    let (_, field) = Field::of_number(name)?;
    match part {
        1 => Some(field.column),
        2 => Some(field.title),
        3 => Some(field.abbreviation),
        _ => None,
    }
}

/// The name of a number of the kind with this number.
fn name_in(kind: u32, number: u64) -> Option<&'static str>
    ensures { option_map (λ s. s.now) result ≡ number_name kind number }
{
    name_of(field_kind_of(kind)?, number)
}

/// Writes a text to the front of a target, if there is one.
fn put_if_any(text: Option<&'static str>, target: &mut [u8]) -> (u32, usize)
    ensures { PutsIfAny (option_map (λ s. s.now) text.entry) target.old target.new result.0 result.1 }
{
    match text {
        Some(text) => put_bytes(text.as_bytes(), target),
        None => (NO_TEXT, 0),
    }
}
