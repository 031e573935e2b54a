//! Writes the options of a unit of a capture file to an array.
ghost use Rattle.std.specs.Prelude.{◌≡◌, List, None, IfSome, slice_set};
ghost use Rattle.ether_pcap.specs.Options.{OptionValue, HasOptions};
ghost use Rattle.ether_pcap.specs.Views.{order_of};
ghost use Rattle.ether_c.specs.Reading.{state_of};
ghost use Rattle.ether_c.specs.Tags.{bad_field};
ghost use Rattle.ether_c.specs.UnitOptions.{GivesOptions, PutsAll};

use crate::statuses::{BAD_FIELD, DONE};
use crate::{EtherOption, EtherReader};
use ether_pcap::PcapngOptions;

/// Writes as many options of a unit as the array has room for, and the number of all of them.
#[unsafe(no_mangle)]
pub extern "C" fn etherpeel_reader_options<'a>(
    reader: &EtherReader,
    unit: &'a [u8],
    options: &mut [EtherOption<'a>],
    count: &mut usize,
) -> u32
    ensures unfit { state_of reader.now ≡ None
        → (result ≡ bad_field) × (options.new ≡ options.old) × (count.new ≡ count.old) }
    ensures given { IfSome (state_of reader.now) (λ state.
        GivesOptions unit.now state options.old options.new count.new result) }
{
    let Some(state) = reader.to_state() else {
        return BAD_FIELD;
    };
    *count = match state.options(unit) {
        Some(found) => put_options(found, options),
        None => 0,
    };
    DONE
}

/// Writes as many options as the array has room for. Returns the number of all of them.
fn put_options<'a>(found: PcapngOptions<'a>, options: &mut [EtherOption<'a>]) -> usize
    ensures { (all : List OptionValue) → HasOptions (order_of found.entry.byte_order) found.entry.rest all
        → PutsAll all options.old options.new result }
{
    let mut count = 0;
    for option in found {
        put(options, count, EtherOption::of(&option));
        count += 1;
    }
    count
}

/// Writes an option to the index `at`, if the array has that index.
fn put<'a>(options: &mut [EtherOption<'a>], at: usize, option: EtherOption<'a>)
    ensures { options.new ≡ slice_set options.old at option.entry }
{
    if at < options.len() {
        options[at] = option;
    }
}
