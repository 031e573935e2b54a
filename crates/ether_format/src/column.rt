//! Columns. Each shows one field of one section of a packet.
ghost use Rattle.std.specs.Prelude.{◌≡◌, ◌≢◌, ◌&&◌, ◌<◌, [], IfNone, IfSome, length, map, slice_index_or};
ghost use Rattle.std.specs.Str.{bytes_eq};
ghost use Rattle.std.specs.Option.{option_map};
ghost use Rattle.std.specs.List.{IsAmong};
ghost use Rattle.ether_fields.specs.Fields.{field_view, column_names};
ghost use Rattle.ether_output.specs.OutputBuffer.{Takes};
ghost use Rattle.ether_format.specs.Columns.{ColumnValue, IsColumn, column_name, column_view};
ghost use Rattle.ether_format.specs.Found.{found_told};
ghost use Rattle.ether_format.specs.Values.{header_shown, if_any, value_view};

use crate::found::Found;
use crate::split::split_at;
use crate::value::Value;
use ether_fields::{Field, Section};
use ether_output::{OutputBuffer, Sink};

/// A column: a field of a section.
#[derive(Clone, Copy, PartialEq, Eq, Debug)]
pub struct Column {
    /// The section.
    pub(crate) section: Section,
    /// The index of the field in its section, counted from 0.
    pub(crate) index: u8,
}

impl Column {
    /// The column with this name, as `vlan.vid`. Returns `None` if no column has it.
    pub(crate) fn of_name(name: &[u8]) -> Option<Column>
        ensures some { IfSome result (λ it. IsColumn (column_view it) × (column_name (column_view it) ≡ name.now)) }
        ensures none { IfNone result ((it : ColumnValue) → IsColumn it → column_name it ≢ name.now) }
    {
        let (section, member) = split_at(b'.', name)?;
        let section = Section::of_name(section)?;
        let index = index_of(section.fields(), member)?;
        Some(Column {
            section,
            index: index as u8,
        })
    }

    /// Writes the name, as `vlan.vid`.
    pub(crate) fn write_name<W: Sink>(self, out: &mut OutputBuffer<'_, W>)
        ensures { Takes W.contents W.can_fail out.old (column_name (column_view self)) out.new }
    {
        out.append(self.section.name().as_bytes());
        out.append(b".");
        if let Some(field) = self.section.fields().get(usize::from(self.index)) {
            out.append(field.name.as_bytes());
        }
    }

    /// Its value in a header.
    #[inline(always)]
    pub(crate) fn in_found<'a>(self, found: &'a Found<'_>) -> Option<Value<'a>>
        ensures { if_any (option_map value_view result) ≡ header_shown (column_view self) (found_told found.now) }
    {
        let index = usize::from(self.index);
        if self.section == found.section {
            return found.value(index);
        }
        if self.section == Section::Headers {
            return found.placed(index);
        }
        None
    }
}

/// The index of the member with this name among fields.
fn index_of(fields: &[Field], name: &[u8]) -> Option<usize>
    ensures some { IfSome result (λ at. (slice_index_or (map (λ f. f.name.now) fields.now) at [] ≡ name.now)
        × IsAmong (column_names (map field_view fields.now)) name.now × (at < length fields.now)) }
    ensures none { IfNone result (¬ (IsAmong (column_names (map field_view fields.now)) name.now)) }
{
    for (index, field) in fields.iter().enumerate() {
        if is_named(field, name) {
            return Some(index);
        }
    }
    None
}

/// Whether a field is the member with this name.
fn is_named(field: &Field, name: &[u8]) -> bool
    ensures { result ≡ (field.now.is_column && bytes_eq field.now.name.now name.now) }
{
    field.is_column && field.name.as_bytes() == name
}
