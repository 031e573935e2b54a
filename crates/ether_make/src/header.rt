//! The bytes of a header that an object means.
ghost use Rattle.std.specs.Prelude.{◌≡◌, map};
ghost use Rattle.serde_json.specs.View.{view};
ghost use Rattle.ether_fields.specs.Fields.{field_view};
ghost use Rattle.ether_make.specs.Headers.{section_named as section_named_in, section_in as section_in_object, next_in, announced as announced_in, rule as rule_in, part as part_in, field_meaning as field_meaning_in, fields_meaning as fields_meaning_in, header_bits as header_bits_in, header_bytes as header_bytes_in, headers_bytes as headers_bytes_in};
ghost use Rattle.ether_make.specs.Bits.{packed};
ghost use Rattle.ether_make.specs.Refusals.{Tells, result_map};

use crate::bits::pack;
use crate::field_bits::field_bits;
use crate::objects::{first_given, given, unknown_member};
use crate::refusal::{Fault, Reason, Refusal};
use crate::sizes::{Lengths, len_of, lengths_of};
use ether_fields::{Field, Section};
use serde_json::Value;
use std::alloc::Global;

/// The headers that are made.
static MADE: [Section; 6] = [
    Section::Eth,
    Section::Sll,
    Section::Sll2,
    Section::Vlan,
    Section::Macsec,
    Section::Arp,
];

/// The header that an object names.
pub fn section_in(object: &Value) -> Result<Section, Reason>
    ensures { result ≡ section_in_object (view object.now) }
{
    let Some(value) = given(object, "header") else {
        return Err(Reason::Missing);
    };
    let Some(name) = value.as_str() else {
        return Err(Reason::NotAText);
    };
    match section_named(name) {
        Some(section) => Ok(section),
        None => Err(Reason::NotAHeader),
    }
}

/// The header with this name.
fn section_named(name: &str) -> Option<Section>
    ensures { result ≡ section_named_in name.now }
{
    MADE.iter().copied().find(|section| section.name() == name)
}

/// The header that the first of some objects names.
pub fn next_section(objects: &[Value]) -> Option<Section>
    ensures { result ≡ next_in (map view objects.now) }
{
    section_in(objects.first()?).ok()
}

/// The ether type that announces a header.
fn announced(next: Option<Section>) -> u64
    ensures { result ≡ announced_in next }
{
    match next {
        Some(Section::Vlan) => 0x8100,
        Some(Section::Macsec) => 0x88E5,
        Some(Section::Arp) => 0x0806,
        _ => 0,
    }
}

/// The value of a field that is not given.
fn rule(lengths: &Lengths, next: Option<Section>, row: u32) -> u64
    ensures { result ≡ rule_in lengths.now next row }
{
    match row {
        3 | 8 | 12 | 24 | 35 => announced(next),
        5 | 25 | 29 | 38 => 1,
        6 | 40 => lengths.address,
        15 => u64::from(lengths.sizes.has_sci),
        26 => 0x0800,
        27 => u64::from(lengths.sizes.hardware / 8),
        28 => u64::from(lengths.sizes.protocol / 8),
        _ => 0,
    }
}

/// How many bits of a field a text spells, if these are not all.
pub(crate) fn part(lengths: &Lengths, row: u32) -> Option<usize>
    ensures { result ≡ part_in lengths.now row }
{
    match row {
        7 | 41 => Some(8 * lengths.address.min(8) as usize),
        _ => None,
    }
}

/// The bits of a field.
fn field_meaning<'v>(
    alloc: Global,
    at: usize,
    lengths: &Lengths,
    next: Option<Section>,
    object: &'v Value,
    field: &'static Field,
) -> Result<Vec<bool>, Fault<'v>>
    ensures { Tells (λ v. v.items) (field_meaning_in at lengths.now next (view object.now) (field_view field.now)) result }
{
    let value = first_given(object, field.name);
    let len = len_of(field.extent, &lengths.sizes);
    match field_bits(
        alloc,
        field.kind,
        field.extent,
        len,
        part(lengths, field.number),
        value,
        rule(lengths, next, field.number),
    ) {
        Ok(Ok(bits)) => Ok(bits),
        Ok(Err(reason)) => Err(Fault::Refused(Refusal {
            header: Some(at),
            member: field.name,
            reason,
        })),
        Err(_) => Err(Fault::Memory),
    }
}

/// The bits of fields, one field after the other.
fn fields_meaning<'v>(
    alloc: Global,
    at: usize,
    lengths: &Lengths,
    next: Option<Section>,
    object: &'v Value,
    fields: &'static [Field],
) -> Result<Vec<bool>, Fault<'v>>
    ensures { Tells (λ v. v.items)
        (fields_meaning_in at lengths.now next (view object.now) (map field_view fields.now)) result }
{
    let mut bits = Vec::new(alloc);
    for field in fields {
        match field_meaning(alloc, at, lengths, next, object, field) {
            Ok(more) => {
                if bits.extend_from_slice(&more).is_err() {
                    return Err(Fault::Memory);
                }
            }
            Err(fault) => return Err(fault),
        }
    }
    Ok(bits)
}

/// The bits of a header.
fn header_bits<'v>(
    alloc: Global,
    at: usize,
    next: Option<Section>,
    object: &'v Value,
    section: Section,
) -> Result<Vec<bool>, Fault<'v>>
    ensures { Tells (λ v. v.items) (header_bits_in at next (view object.now) section) result }
{
    if let Some(member) = unknown_member(object, section.fields(), &[]) {
        return Err(Fault::Refused(Refusal {
            header: Some(at),
            member,
            reason: Reason::Unknown,
        }));
    }
    fields_meaning(
        alloc,
        at,
        &lengths_of(object),
        next,
        object,
        section.fields(),
    )
}

/// The bytes of a header.
fn header_bytes<'v>(
    alloc: Global,
    at: usize,
    next: Option<Section>,
    object: &'v Value,
) -> Result<Vec<u8>, Fault<'v>>
    ensures { Tells (λ v. v.items) (header_bytes_in at next (view object.now)) result }
{
    let section = match section_in(object) {
        Ok(section) => section,
        Err(reason) => {
            return Err(Fault::Refused(Refusal {
                header: Some(at),
                member: "header",
                reason,
            }));
        }
    };
    match header_bits(alloc, at, next, object, section) {
        Ok(bits) => packed_bytes(alloc, &bits),
        Err(fault) => Err(fault),
    }
}

/// The bytes of bits.
fn packed_bytes<'v>(alloc: Global, bits: &[bool]) -> Result<Vec<u8>, Fault<'v>>
    ensures { Tells (λ v. v.items) (Ok (packed bits.now)) result }
{
    let mut bytes = Vec::new(alloc);
    match pack(&mut bytes, bits) {
        Ok(()) => Ok(bytes),
        Err(_) => Err(Fault::Memory),
    }
}

/// The bytes of headers, one header after the other.
pub fn headers_bytes<'v>(alloc: Global, objects: &'v [Value]) -> Result<Vec<u8>, Fault<'v>>
    ensures { Tells (λ v. v.items) (headers_bytes_in 0 (map view objects.now)) result }
{
    let mut bytes = Vec::new(alloc);
    for (at, object) in objects.iter().enumerate() {
        let next = next_section(&objects[at + 1..]);
        match header_bytes(alloc, at, next, object) {
            Ok(more) => {
                if bytes.extend_from_slice(&more).is_err() {
                    return Err(Fault::Memory);
                }
            }
            Err(fault) => return Err(fault),
        }
    }
    Ok(bytes)
}
