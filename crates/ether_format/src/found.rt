//! A header that is found in a packet, and where it is.
ghost use Rattle.std.specs.Prelude.{◌≡◌, ◌++◌};
ghost use Rattle.std.specs.Option.{option_map};
ghost use Rattle.ether_fields.specs.Fields.{section_name};
ghost use Rattle.ether_format.specs.FoundHeaders.{found_section, found_values};
ghost use Rattle.ether_format.specs.Told.{place_values};
ghost use Rattle.ether_format.specs.Values.{value_at, value_view};

use crate::found_header::FoundHeader;
use crate::place::Place;
use crate::value::Value;
use crate::values::place_value;
use ether_fields::Section;
use ether_peel::PeelUnit;
use etherparse::SingleVlanSlice;

/// The number of fields that each header has before its own: its name and its place.
pub(crate) const PLACE_LEN: usize = 5;

/// A header that is found in a packet, and where it is.
#[derive(Drop)]
pub(crate) struct Found<'a> {
    /// Its section of fields.
    pub(crate) section: Section,
    pub(crate) place: Place,
    pub(crate) header: FoundHeader<'a>,
    ghost own: { section ≡ found_section header },
}

/// A VLAN tag of zeros at offset 0, as the unused places of a list of a fixed capacity hold it.
impl<'a> Default for Found<'a> {
    fn default() -> Found<'a> {
        match SingleVlanSlice::from_slice(&[0; 4]) {
            Ok(tag) => Found {
                section: Section::Vlan,
                place: Place {
                    start: 0,
                    header_end: 0,
                    payload_end: 0,
                    closed: false,
                },
                header: FoundHeader::Walked(PeelUnit::Vlan(tag)),
            },
            Err(_) => unreachable!(),
        }
    }
}

impl Found<'_> {
    /// The value of a field of its section.
    #[inline(always)]
    pub(crate) fn value(&self, index: usize) -> Option<Value<'_>>
        ensures { option_map value_view result
            ≡ value_at (place_values (section_name self.now.section) self.now.place ++ found_values self.now.header)
            index }
    {
        if index < PLACE_LEN {
            return self.placed(index);
        }
        self.header.own_value(index - PLACE_LEN)
    }

    /// The value of a field of its name and its place.
    #[inline(never)]
    pub(crate) fn placed(&self, index: usize) -> Option<Value<'static>>
        ensures { option_map value_view result
            ≡ value_at (place_values (section_name self.now.section) self.now.place) index }
    {
        place_value(self.section, self.place, index)
    }
}
