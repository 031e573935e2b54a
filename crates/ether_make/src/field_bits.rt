//! The bits of a field.
ghost use Rattle.std.specs.Prelude.{◌≡◌, ◌^◌, ◌*◌, IfOk, Some, length, nat_eq, nat_lt};
ghost use Rattle.std.specs.Option.{option_map};
ghost use Rattle.serde_json.specs.View.{view};
ghost use Rattle.ether_make.specs.Bits.{bits};
ghost use Rattle.ether_make.specs.Refusals.{result_map};
ghost use Rattle.ether_make.specs.FieldBits.{number_bits as number_bits_in, has_dot as has_dot_in, text_bytes as text_bytes_in, bytes_bits as bytes_bits_in, is_text as is_text_in, given_bits as given_bits_in, field_bits as field_bits_in};

use crate::bits::{push_bits, push_bytes};
use crate::objects::number_of;
use crate::refusal::Reason;
use crate::texts::{colon_bytes, dotted_bytes};
use ether_fields::{Extent, Kind};
use serde_json::Value;
use std::alloc::{AllocError, Global};

/// The bits of a field of a header, or why its value is refused. If no value is given, they are those of the rule's
/// number. A text spells the whole field, or the first `part` bits.
pub fn field_bits(
    alloc: Global,
    kind: Kind,
    extent: Extent,
    len: Option<usize>,
    part: Option<usize>,
    value: Option<&Value>,
    rule: u64,
) -> Result<Result<Vec<bool>, Reason>, AllocError>
    ensures { IfOk result (λ r. result_map (λ v. v.items) r
        ≡ field_bits_in kind extent len part (option_map (λ v. view v.now) value.entry) rule) }
{
    match (len, value) {
        (Some(len), Some(value)) => given_bits(alloc, kind, len, part.unwrap_or(len), value),
        (Some(len), None) => Ok(Ok(bits_of_number(alloc, len, rule)?)),
        (None, Some(_)) if extent != Extent::Computed => Ok(Err(Reason::Absent)),
        (None, _) => Ok(Ok(Vec::new(alloc))),
    }
}

/// The bits of a value that is given.
fn given_bits(
    alloc: Global,
    kind: Kind,
    len: usize,
    spelled: usize,
    value: &Value,
) -> Result<Result<Vec<bool>, Reason>, AllocError>
    ensures { IfOk result (λ r. result_map (λ v. v.items) r ≡ given_bits_in kind len spelled (view value.now)) }
{
    if is_text(kind) {
        match value.as_str() {
            Some(text) => text_bits(alloc, kind, len, spelled, text.as_bytes()),
            None => Ok(Err(Reason::NotAText)),
        }
    } else {
        match number_of(value) {
            Some(number) => number_bits(alloc, len, number),
            None => Ok(Err(Reason::NotANumber)),
        }
    }
}

/// Whether bytes are given, as a text.
pub(crate) fn is_text(kind: Kind) -> bool
    ensures { result ≡ is_text_in kind }
{
    matches!(kind, Kind::Bytes | Kind::ProtocolAddress)
}

/// The bits of the bytes that a text spells, and zeros in the rest of the field.
fn text_bits(
    alloc: Global,
    kind: Kind,
    len: usize,
    spelled: usize,
    text: &[u8],
) -> Result<Result<Vec<bool>, Reason>, AllocError>
    ensures { IfOk result (λ r. result_map (λ v. v.items) r
        ≡ bytes_bits_in len spelled (text_bytes_in kind text.now)) }
{
    let Some(bytes) = text_bytes(alloc, kind, text)? else {
        return Ok(Err(Reason::NotBytes));
    };
    if !is_as_long(&bytes, spelled) {
        return Ok(Err(Reason::OtherLength));
    }
    let mut bits = Vec::with_capacity(alloc, len)?;
    push_bytes(&mut bits, &bytes)?;
    push_bits(&mut bits, len.saturating_sub(spelled), 0)?;
    Ok(Ok(bits))
}

/// Whether bytes have as many bits.
pub(crate) fn is_as_long(bytes: &[u8], len: usize) -> bool
    ensures { result ≡ nat_eq (8 * length bytes.now) len }
{
    len % 8 == 0 && bytes.len() == len / 8
}

/// The bytes that a text spells.
pub(crate) fn text_bytes(
    alloc: Global,
    kind: Kind,
    text: &[u8],
) -> Result<Option<Vec<u8>>, AllocError>
    ensures { IfOk result (λ o. option_map (λ v. v.items) o ≡ text_bytes_in kind text.now) }
{
    if kind == Kind::ProtocolAddress && has_dot(text) {
        dotted_bytes(alloc, text)
    } else {
        colon_bytes(alloc, text)
    }
}

/// Whether a text has a dot.
pub fn has_dot(text: &[u8]) -> bool
    ensures { result ≡ has_dot_in text.now }
{
    for c in text {
        if *c == b'.' {
            return true;
        }
    }
    false
}

/// The bits of a number that fits.
fn number_bits(
    alloc: Global,
    len: usize,
    number: u64,
) -> Result<Result<Vec<bool>, Reason>, AllocError>
    ensures { IfOk result (λ r. result_map (λ v. v.items) r ≡ number_bits_in len (Some number)) }
{
    if fits(number, len) {
        Ok(Ok(bits_of_number(alloc, len, number)?))
    } else {
        Ok(Err(Reason::TooBig))
    }
}

/// Whether a number has no more bits.
pub(crate) fn fits(number: u64, len: usize) -> bool
    ensures { result ≡ nat_lt number (2 ^ len) }
{
    if len >= 64 {
        return true;
    }
    number < 1 << len
}

/// The last bits of a number.
fn bits_of_number(alloc: Global, len: usize, number: u64) -> Result<Vec<bool>, AllocError>
    ensures { IfOk result (λ v. v.items ≡ bits len number) }
{
    let mut bits = Vec::with_capacity(alloc, len)?;
    push_bits(&mut bits, len, number)?;
    Ok(bits)
}
