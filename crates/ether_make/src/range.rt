//! Ranges of numbers.
ghost use Rattle.std.specs.Prelude.{◌≡◌, ◌≤◌, IfOk, IfSome, codes, length, map};
ghost use Rattle.std.specs.Option.{option_and_then, option_map};
ghost use Rattle.serde_json.specs.View.{view};
ghost use Rattle.ether_base.specs.Bytes.{number as number_in};
ghost use Rattle.ether_make.specs.FieldBits.{text_bytes as text_bytes_in};
ghost use Rattle.ether_make.specs.Objects.{given as given_in};
ghost use Rattle.ether_make.specs.Ranges.{bound as bound_in, counted as counted_in, random as random_in, range as range_of_value, range_in, small_number as small_number_in, spelled_number as spelled_number_in, step as step_in};

use crate::field_bits::{fits, is_as_long, is_text, text_bytes};
use crate::objects::{given, number_of, unknown_member};
use ether_fields::Kind;
use serde_json::Value;
use std::alloc::{AllocError, Global};

/// The numbers `from`, `from + step`, `from + 2 * step`, .., `from + last * step`.
#[derive(Clone, Copy, PartialEq, Eq, Debug)]
pub struct NumberRange {
    /// The first number.
    pub from: u64,
    /// What is between two numbers; not 0.
    pub step: u64,
    /// How many numbers follow the first one.
    pub last: u64,
    /// Whether a number is drawn for each frame.
    pub is_random: bool,
}

/// The range of a field with as many bits that an object means.
pub fn range_of(
    alloc: Global,
    kind: Kind,
    len: usize,
    object: &Value,
) -> Result<Option<NumberRange>, AllocError>
    ensures { IfOk result (λ o. o ≡ range_of_value kind len (view object.now)) }
{
    let names = ["from", "to", "step", "random"];
    if len > 64 || unknown_member(object, &[], &names).is_some() {
        return Ok(None);
    }
    range_inside(alloc, kind, len, object)
}

/// .. if its members have the right names.
fn range_inside(
    alloc: Global,
    kind: Kind,
    len: usize,
    object: &Value,
) -> Result<Option<NumberRange>, AllocError>
    requires { len ≤ 64 }
    ensures { IfOk result (λ o. o ≡ range_in kind len (view object.now)) }
{
    let Some(from) = bound(alloc, kind, len, given(object, "from"))? else {
        return Ok(None);
    };
    let Some(to) = bound(alloc, kind, len, given(object, "to"))? else {
        return Ok(None);
    };
    let Some(step) = step(given(object, "step")) else {
        return Ok(None);
    };
    let Some(is_random) = random(given(object, "random")) else {
        return Ok(None);
    };
    Ok(counted(from, to, step, is_random))
}

/// The numbers from one to another.
fn counted(from: u64, to: u64, step: u64, is_random: bool) -> Option<NumberRange>
    requires { 1 ≤ step }
    ensures { result ≡ counted_in from to step is_random }
{
    if from > to {
        return None;
    }
    Some(NumberRange {
        from,
        step,
        last: (to - from) / step,
        is_random,
    })
}

/// The number of a value, if it has as many bits.
fn bound(
    alloc: Global,
    kind: Kind,
    len: usize,
    value: Option<&Value>,
) -> Result<Option<u64>, AllocError>
    requires { len ≤ 64 }
    ensures { IfOk result (λ o. o
        ≡ option_and_then (bound_in kind len) (option_map (λ v. view v.now) value.entry)) }
{
    let Some(value) = value else {
        return Ok(None);
    };
    if is_text(kind) {
        let Some(text) = value.as_str() else {
            return Ok(None);
        };
        return spelled_number(alloc, kind, len, text.as_bytes());
    }
    Ok(small_number(len, number_of(value)))
}

/// The number whose bytes a text spells, if they have as many bits.
fn spelled_number(
    alloc: Global,
    kind: Kind,
    len: usize,
    text: &[u8],
) -> Result<Option<u64>, AllocError>
    requires { len ≤ 64 }
    ensures { IfOk result (λ o. o ≡ spelled_number_in len (text_bytes_in kind text.now)) }
{
    let Some(bytes) = text_bytes(alloc, kind, text)? else {
        return Ok(None);
    };
    if !is_as_long(&bytes, len) {
        return Ok(None);
    }
    Ok(Some(number(&bytes)))
}

/// The number that bytes spell.
fn number(bytes: &[u8]) -> u64
    requires { length bytes.now ≤ 8 }
    ensures { result ≡ number_in bytes.now }
{
    let mut number = 0;
    for byte in bytes {
        number = number * 256 + u64::from(*byte);
    }
    number
}

/// A number, if it has no more bits.
fn small_number(len: usize, number: Option<u64>) -> Option<u64>
    ensures { result ≡ small_number_in len number }
{
    let number = number?;
    if fits(number, len) {
        Some(number)
    } else {
        None
    }
}

/// What is between two numbers.
fn step(value: Option<&Value>) -> Option<u64>
    ensures value { result ≡ step_in (option_map (λ v. view v.now) value.entry) }
    ensures some { IfSome result (λ n. 1 ≤ n) }
{
    let Some(value) = value else {
        return Some(1);
    };
    let step = number_of(value)?;
    if step == 0 { None } else { Some(step) }
}

/// Whether numbers are drawn.
fn random(value: Option<&Value>) -> Option<bool>
    ensures { result ≡ random_in (option_map (λ v. view v.now) value.entry) }
{
    match value {
        Some(value) => value.as_bool(),
        None => Some(false),
    }
}
