//! How many bits a header has in the fields whose length is not the same in each header.
ghost use Rattle.std.specs.Prelude.{◌≡◌, ◌/◌, ◌+◌, length};
ghost use Rattle.std.specs.Option.{option_and_then};
ghost use Rattle.serde_json.specs.View.{view};
ghost use Rattle.ether_make.specs.Objects.{first_given as first_given_in, number_of as number_in};
ghost use Rattle.ether_fields.specs.Places.{bits_of};
ghost use Rattle.ether_fields.specs.declared.part.Part.TheVariants.{Header};
ghost use Rattle.ether_make.specs.Sizes.{text_size as text_size_in, address_size as address_size_in, given_size as given_size_in, size as size_in, is_zero as is_zero_in, has_sci as has_sci_in, sizes_of as sizes_of_in, address_len as address_len_in, lengths_of as lengths_of_in};

use crate::field_bits::has_dot;
use crate::objects::{first_given, number_of};
use ether_fields::{Extent, Sizes};
use serde_json::Value;

/// What an object says of the lengths of the fields of its header.
#[derive(Clone, Copy, PartialEq, Eq, Debug)]
pub struct Lengths {
    /// The bits of the fields that do not have the same number of bits in each header.
    pub sizes: Sizes,
    /// The length of the address of a cooked capture, in bytes. May exceed the 8 bytes of its field.
    pub address: u64,
}

/// Those of the header that an object means.
pub fn lengths_of(object: &Value) -> Lengths
    ensures { result ≡ lengths_of_in (view object.now) }
{
    Lengths {
        sizes: sizes_of(object),
        address: address_len(object),
    }
}

/// The length of the address of a cooked capture.
fn address_len(object: &Value) -> u64
    ensures { result ≡ address_len_in (view object.now) }
{
    if let Some(len) = given_number(object, "addr_len") {
        return len;
    }
    match address_size(object, "addr") {
        Some(size) => u64::from(size),
        None => 6,
    }
}

/// A number that is given.
fn given_number(object: &Value, name: &str) -> Option<u64>
    ensures { result ≡ option_and_then number_in (first_given_in name.now (view object.now)) }
{
    number_of(first_given(object, name)?)
}

/// Whether a SecTag has an SCI: if its SC bit says so, or if that bit is missing and an SCI is given.
fn has_sci(object: &Value) -> bool
    ensures { result ≡ has_sci_in (view object.now) }
{
    if first_given(object, "sc").is_some() {
        !is_zero(object, "sc")
    } else {
        first_given(object, "sci").is_some()
    }
}

/// The bits of the fields that do not have the same number of bits in each header.
fn sizes_of(object: &Value) -> Sizes
    ensures { result ≡ sizes_of_in (view object.now) }
{
    Sizes {
        hardware: 8 * u16::from(size(object, "hln", "sha", "tha", 6)),
        protocol: 8 * u16::from(size(object, "pln", "spa", "tpa", 4)),
        has_sci: has_sci(object),
        has_payload_type: is_zero(object, "e") && is_zero(object, "c"),
    }
}

/// Whether a flag is missing, or no number but 0.
fn is_zero(object: &Value, name: &str) -> bool
    ensures { result ≡ is_zero_in name.now (view object.now) }
{
    match first_given(object, name) {
        Some(value) => number_of(value) == Some(0),
        None => true,
    }
}

/// The size of an address: the one that is given, or that of the first of two addresses that is given.
fn size(object: &Value, count: &str, first: &str, second: &str, usual: u8) -> u8
    ensures { result ≡ size_in count.now first.now second.now usual (view object.now) }
{
    if let Some(size) = given_size(object, count) {
        return size;
    }
    if let Some(size) = address_size(object, first) {
        return size;
    }
    address_size(object, second).unwrap_or(usual)
}

/// A size that is given.
fn given_size(object: &Value, name: &str) -> Option<u8>
    ensures { result ≡ given_size_in name.now (view object.now) }
{
    let number = number_of(first_given(object, name)?)?;
    if number < 256 {
        Some(number as u8)
    } else {
        None
    }
}

/// The size of an address that is given.
fn address_size(object: &Value, name: &str) -> Option<u8>
    ensures { result ≡ address_size_in name.now (view object.now) }
{
    text_size(first_given(object, name)?.as_str()?.as_bytes())
}

/// How many bytes a text spells.
fn text_size(text: &[u8]) -> Option<u8>
    ensures { result ≡ text_size_in text.now }
{
    if has_dot(text) {
        return Some(4);
    }
    let len = text.len().div_ceil(3);
    if len < 256 { Some(len as u8) } else { None }
}

/// How many bits a field has, if it is there.
pub fn len_of(extent: Extent, sizes: &Sizes) -> Option<usize>
    ensures { result ≡ bits_of (Header sizes.now) extent }
{
    match extent {
        Extent::Bits(len) => Some(usize::from(len)),
        Extent::HardwareAddress => Some(usize::from(sizes.hardware)),
        Extent::ProtocolAddress => Some(usize::from(sizes.protocol)),
        Extent::SecureChannel if sizes.has_sci => Some(64),
        Extent::PayloadType if sizes.has_payload_type => Some(16),
        _ => None,
    }
}
