//! A header that is found in a packet.
ghost use Rattle.std.specs.Prelude.{◌≡◌};
ghost use Rattle.std.specs.Option.{option_map};
ghost use Rattle.ether_content.specs.ContentViews.{cooked_view};
ghost use Rattle.ether_sll2.specs.LinuxSll2.{linux_sll2_of};
ghost use Rattle.ether_format.specs.FoundHeaders.{found_values};
ghost use Rattle.ether_format.specs.Members.{linux_sll2_values, linux_sll_values};
ghost use Rattle.ether_format.specs.Values.{value_at, value_view};

use crate::value::Value;
use crate::values::{cooked_value, linux_sll2_value, unit_value};
use ether_content::CookedHeader;
use ether_peel::PeelUnit;
use ether_sll2::LinuxSll2Slice;

/// A header that is found in a packet.
#[derive(Drop)]
pub(crate) enum FoundHeader<'a> {
    /// One of the walk.
    Walked(PeelUnit<'a>),
    /// One of cooked capture v1 that is not walked.
    Cooked(CookedHeader),
    /// One of cooked capture v2.
    CookedV2(LinuxSll2Slice<'a>),
}

impl FoundHeader<'_> {
    /// The value of one of its own fields.
    #[inline(always)]
    pub(crate) fn own_value(&self, index: usize) -> Option<Value<'_>>
        ensures { option_map value_view result ≡ value_at (found_values self.now) index }
    {
        match self {
            FoundHeader::Walked(unit) => unit_value(unit, index),
            FoundHeader::Cooked(header) => cooked_column(header, index),
            FoundHeader::CookedV2(packet) => linux_sll2_column(packet, index),
        }
    }
}

/// [`cooked_value`] as a call.
#[inline(never)]
fn cooked_column(header: &CookedHeader, index: usize) -> Option<Value<'_>>
    ensures { option_map value_view result ≡ value_at (linux_sll_values (cooked_view header.now)) index }
{
    cooked_value(header, index)
}

/// [`linux_sll2_value`] as a call.
#[inline(never)]
fn linux_sll2_column<'a>(packet: &'a LinuxSll2Slice<'_>, index: usize) -> Option<Value<'a>>
    ensures { option_map value_view result ≡ value_at (linux_sll2_values (linux_sll2_of packet.now)) index }
{
    linux_sll2_value(packet, index)
}
