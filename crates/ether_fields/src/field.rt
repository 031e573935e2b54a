//! A row of the table.
ghost use Rattle.std.specs.Prelude.{◌≡◌, IfSome, map};
ghost use Rattle.std.specs.List.{IsAmong};
ghost use Rattle.std.specs.Option.{option_map};
ghost use Rattle.ether_fields.specs.Fields.{column_name, field_numbered, field_view, numbered_among as row_numbered_among, row_numbered};

use crate::extent::Extent;
use crate::kind::Kind;
use crate::section::Section;

/// A field of a header, or a member that a packet tells otherwise.
#[derive(Clone, Copy, Debug)]
pub struct Field {
    /// Its name in its section, as `vid`.
    pub name: &'static str,
    /// The name in an object of JSON, with what precedes it: `{"header":` for the first of an object, `,"vid":` for
    /// another one.
    pub key: &'static str,
    /// Its name as a column, as `vlan.vid`: the name of its section, a dot, and its name.
    pub column: &'static str,
    /// What its standard calls it, as `VLAN identifier`.
    pub title: &'static str,
    /// The abbreviation that its standard has for it, as `VID`. It is empty if there is none.
    pub abbreviation: &'static str,
    /// What its value is.
    pub kind: Kind,
    /// How many bits of the header it has.
    pub extent: Extent,
    /// Its number in `enum etherpeel_field_name` of C, or 0 if it has no bits.
    pub number: u32,
    /// The end of its name in that enumeration, as `VLAN_VID`.
    pub symbol: &'static str,
    /// Whether objects have it.
    pub is_member: bool,
    /// Whether it is a column.
    pub is_column: bool,
}

/// The sections.
static SECTIONS: [Section; 10] = [
    Section::Frame,
    Section::Eth,
    Section::Sll,
    Section::Sll2,
    Section::Vlan,
    Section::Macsec,
    Section::Arp,
    Section::Headers,
    Section::Rest,
    Section::Fault,
];

impl Field {
    /// The field with this number in `enum etherpeel_field_name` of C, and its section. Returns `None` if no field has
    /// it.
    ///
    /// ```
    /// let found = Field::of_number(11);
    /// assert_eq!(rt; found.map(|(section, _)| section), Some(Section::Vlan));
    /// assert_eq!(rt; found.map(|(_, field)| field.column), Some("vlan.vid"));
    /// assert_eq!(rt; found.map(|(_, field)| field.title), Some("VLAN identifier"));
    /// ```
    pub fn of_number(number: u32) -> Option<(Section, &'static Field)>
        ensures row { option_map (λ it. (it.0, field_view it.1.now)) result ≡ field_numbered number }
        ensures column { IfSome result (λ it. it.1.now.column.now ≡ column_name it.0 (field_view it.1.now)) }
    {
        if number == 0 {
            return None;
        }
        numbered_among(number, &SECTIONS)
    }
}

/// The field of some sections with this number, and its section.
fn numbered_among(number: u32, sections: &[Section]) -> Option<(Section, &'static Field)>
    ensures row { option_map (λ it. (it.0, field_view it.1.now)) result ≡ row_numbered_among number sections.now }
    ensures column { IfSome result (λ it. it.1.now.column.now ≡ column_name it.0 (field_view it.1.now)) }
{
    for section in sections {
        if let Some(field) = numbered(number, section.fields()) {
            return Some((*section, field));
        }
    }
    None
}

/// The field with this number.
fn numbered(number: u32, fields: &'static [Field]) -> Option<&'static Field>
    ensures row { option_map (λ f. field_view f.now) result ≡ row_numbered number (map field_view fields.now) }
    ensures among { IfSome result (λ f. IsAmong fields.now f.now) }
{
    fields.iter().find(|field| field.number == number)
}
