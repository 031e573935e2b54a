//! Members of an object.
ghost use Rattle.std.specs.Prelude.{◌≡◌, ◌++◌, map};
ghost use Rattle.std.specs.Option.{option_map};
ghost use Rattle.serde_json.specs.View.{view, members_view};
ghost use Rattle.ether_fields.specs.Fields.{field_view};
ghost use Rattle.ether_make.specs.Objects.{first_given as first_given_in, given as given_in, number_of as number_in, is_among, unknown_in, unknown_member as unknown_member_in};

use ether_fields::Field;
use serde_json::{Map, Value};

/// The value of a member. `null` is a value that is missing.
pub fn given<'v>(object: &'v Value, name: &str) -> Option<&'v Value>
    ensures { option_map (λ v. view v.now) result ≡ given_in name.now (view object.now) }
{
    let value = object.get(name)?;
    if value.is_null() { None } else { Some(value) }
}

/// The value of a field. That of a range is its first one.
pub fn first_given<'v>(object: &'v Value, name: &str) -> Option<&'v Value>
    ensures { option_map (λ v. view v.now) result ≡ first_given_in name.now (view object.now) }
{
    let value = given(object, name)?;
    if value.is_object() {
        Some(given(value, "from").unwrap_or(value))
    } else {
        Some(value)
    }
}

/// A number from 0 on.
pub fn number_of(value: &Value) -> Option<u64>
    ensures { result ≡ number_in (view value.now) }
{
    value.as_u64()
}

/// The name of the first member, in the order of an object, that is neither a field's nor one of some others.
pub fn unknown_member<'v>(object: &'v Value, fields: &[Field], others: &[&str]) -> Option<&'v str>
    ensures { option_map (λ k. k.now) result
        ≡ unknown_member_in (map (λ r. r.name) (map field_view fields.now) ++ map (λ o. o.now) others.now)
        (view object.now) }
{
    unknown_key(object.as_object()?, fields, others)
}

/// .. in the map of an object.
fn unknown_key<'v>(
    object: &'v Map<String, Value>,
    fields: &[Field],
    others: &[&str],
) -> Option<&'v str>
    ensures { option_map (λ k. k.now) result
        ≡ unknown_in (map (λ r. r.name) (map field_view fields.now) ++ map (λ o. o.now) others.now)
        (members_view object.now.entries) }
{
    for key in object.keys() {
        if !is_known(fields, others, key.as_str()) {
            return Some(key.as_str());
        }
    }
    None
}

/// Whether a field or one of some others has this name.
fn is_known(fields: &[Field], others: &[&str], name: &str) -> bool
    ensures { result
        ≡ is_among (map (λ r. r.name) (map field_view fields.now) ++ map (λ o. o.now) others.now) name.now }
{
    is_field(fields, name) || is_other(others, name)
}

/// Whether a field has this name.
fn is_field(fields: &[Field], name: &str) -> bool
    ensures { result ≡ is_among (map (λ r. r.name) (map field_view fields.now)) name.now }
{
    for field in fields {
        if field.name == name {
            return true;
        }
    }
    false
}

/// Whether one of some words is this name.
fn is_other(words: &[&str], name: &str) -> bool
    ensures { result ≡ is_among (map (λ o. o.now) words.now) name.now }
{
    for word in words {
        if *word == name {
            return true;
        }
    }
    false
}
