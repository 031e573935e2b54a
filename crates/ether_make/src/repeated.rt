//! Values of JSON in which no object has two members of one name.
ghost use Rattle.std.specs.Prelude.{IfErr, IfOk, IsUtf8, OnOk};
ghost use Rattle.serde_json.specs.View.{view};
ghost use Rattle.ether_make.specs.Lines.{IsJson};
ghost use Rattle.ether_make.specs.LineViews.{IsNoValue, IsNotJson};
ghost use Rattle.ether_make.specs.Repeated.{IsUnique, TellsUnique};

use crate::lines::LineFault;
use json::{Error, Scratch};
use serde_json::Value;
use std::alloc::{AllocError, Global};

/// The value of a text in which no object, at any depth, has two members of one name.
pub fn unique_value(alloc: Global, text: &[u8]) -> Result<Value, LineFault>
    ensures value { IfOk result (λ v. IsJson text.now (view v)) }
    ensures unique { OnOk result (IsUnique text.now) }
    ensures fault { IfErr result (IsNoValue text.now) }
{
    let value = match value_of(alloc, text) {
        Ok(value) => value,
        Err(fault) => return Err(fault),
    };
    match has_unique_members(alloc, text) {
        Ok(true) => Ok(value),
        Ok(false) => Err(LineFault::Repeated),
        Err(_) => Err(LineFault::Memory),
    }
}

/// The value of a text.
fn value_of(alloc: Global, text: &[u8]) -> Result<Value, LineFault>
    ensures value { IfOk result (λ v. IsJson text.now (view v)) }
    ensures fault { IfErr result (IsNotJson text.now) }
{
    match Value::from_slice(alloc, text) {
        Ok(value) => Ok(value),
        Err(error) => {
            if error.is_memory() {
                return Err(LineFault::Memory);
            }
            Err(LineFault::NotJson)
        }
    }
}

/// Tests that no object of a text has two members of one name.
fn has_unique_members(alloc: Global, text: &[u8]) -> Result<bool, AllocError>
    requires { IsUtf8 text.now }
    ensures { IfOk result (TellsUnique text.now) }
{
    let Ok(text) = std::str::from_utf8(text) else {
        return Err(AllocError);
    };
    let mut scratch = Scratch::new(alloc);
    match json::Value::parse_strict(alloc, text, &mut scratch) {
        Ok(_) | Err(Error::Invalid) => Ok(true),
        Err(Error::DuplicateKey) => Ok(false),
        Err(_) => Err(AllocError),
    }
}
