//! The frames of an object with ranges.
ghost use Rattle.std.specs.Prelude.{◌≡◌, ◌≤◌, ◌+◌, ◌%◌, length, map};
ghost use Rattle.std.specs.Option.{option_map};
ghost use Rattle.rand_xoshiro.specs.SplitMix64.{mix_u64};
ghost use Rattle.serde_json.specs.Find.{as_array};
ghost use Rattle.serde_json.specs.View.{view};
ghost use Rattle.ether_make.specs.Bits.{bits_of};
ghost use Rattle.ether_make.specs.FrameViews.{template_view};
ghost use Rattle.ether_make.specs.Lines.{longest};
ghost use Rattle.ether_make.specs.Refusals.{Tells};
ghost use Rattle.ether_make.specs.SlotViews.{found_view};
ghost use Rattle.ether_make.specs.Slots.{after_headers, nothing};
ghost use Rattle.ether_make.specs.Templates.{all_drawn, all_filled, drawn as drawn_in, filled, header_objects, listed_in, number_of as number_in, numbered, template_meaning};

use crate::bits::set_bits;
use crate::frame::{Frame, make_frame};
use crate::objects::given;
use crate::refusal::Fault;
use crate::slot::{Found, Slot, slots_of};
use rand_core::utils::NextWord;
use rand_xoshiro::SplitMix64;
use serde_json::Value;
use std::alloc::Global;

/// The first frame of an object, and what ranges it has.
#[derive(Drop, Debug)]
pub struct Template {
    /// The frame with the first number of each range.
    pub frame: Frame,
    /// The places of the ranges.
    pub found: Found,
}

/// The frames that an object means. A refusal borrows the name of a member from the object.
pub fn make_template<'v>(alloc: Global, object: &'v Value) -> Result<Template, Fault<'v>>
    ensures { Tells template_view (template_meaning (view object.now)) result }
{
    let frame = match make_frame(alloc, object) {
        Ok(frame) => frame,
        Err(fault) => return Err(fault),
    };
    match object_slots(alloc, object) {
        Ok(found) => Ok(Template { frame, found }),
        Err(fault) => Err(fault),
    }
}

/// The places of the ranges of an object.
fn object_slots<'v>(alloc: Global, object: &'v Value) -> Result<Found, Fault<'v>>
    ensures { Tells found_view (after_headers 0 (header_objects (view object.now)) nothing) result }
{
    match given(object, "headers") {
        Some(headers) => array_slots(alloc, headers),
        None => slots_of(alloc, &[]),
    }
}

/// .. of a value that should be an array.
fn array_slots<'v>(alloc: Global, headers: &'v Value) -> Result<Found, Fault<'v>>
    ensures { Tells found_view (after_headers 0 (listed_in (as_array (view headers.now))) nothing) result }
{
    match headers.as_array() {
        Some(objects) => slots_of(alloc, objects.as_slice()),
        None => slots_of(alloc, &[]),
    }
}

/// Gives each range of a frame its number. The frame has at most 262,144 bytes.
pub fn number_ranges(bytes: &mut [u8], slots: &[Slot], index: u64, generator: &mut SplitMix64)
    requires { length bytes.old ≤ longest }
    ensures bytes { bytes.new ≡ numbered index generator.old slots.now bytes.old }
    ensures len { length bytes.new ≡ length bytes.old }
    ensures drawn { generator.new ≡ all_drawn slots.now generator.old }
{
    fill_all(bytes, slots, index, generator);
}

/// .. in its bits.
fn fill_all(bytes: &mut [u8], slots: &[Slot], index: u64, generator: &mut SplitMix64)
    requires { length bytes.old ≤ longest }
    ensures bits { bits_of bytes.new ≡ all_filled index generator.old slots.now (bits_of bytes.old) }
    ensures len { length bytes.new ≡ length bytes.old }
    ensures drawn { generator.new ≡ all_drawn slots.now generator.old }
{
    for slot in slots {
        let number = next_number(slot, index, generator);
        fill(bytes, slot, number);
    }
}

/// The number of a range.
fn next_number(slot: &Slot, index: u64, generator: &mut SplitMix64) -> u64
    ensures number { result ≡ number_in index (mix_u64 generator.old).0 slot.now }
    ensures drawn { generator.new ≡ drawn_in slot.now generator.old }
{
    let range = &slot.range;
    let place = if range.is_random {
        generator.next_word()
    } else {
        index.checked_div(slot.below).unwrap_or(0)
    };
    let steps = range.step.wrapping_mul(remainder(place, range.last));
    range.from.wrapping_add(steps)
}

/// The remainder of a division by a number and one more.
fn remainder(number: u64, last: u64) -> u64
    ensures { result ≡ number % (last + 1) }
{
    match last.checked_add(1) {
        Some(count) => number % count,
        None => number,
    }
}

/// Writes the number of a range over its bits.
fn fill(bytes: &mut [u8], slot: &Slot, number: u64)
    requires { length bytes.old ≤ longest }
    ensures bits { bits_of bytes.new ≡ filled slot.now number (bits_of bytes.old) }
    ensures len { length bytes.new ≡ length bytes.old }
{
    let bits = 8 * bytes.len();
    if slot.at <= bits && slot.len <= bits - slot.at {
        set_bits(bytes, slot.at, slot.len, number);
    }
}
