//! The text of the error in an expression of a filter.
ghost use Rattle.std.specs.Prelude.{◌≡◌, IfSome};
ghost use Rattle.ether_filter.specs.ErrorTexts.{filter_error_text};
ghost use Rattle.ether_c.specs.Filters.{GivesFilterText, PutsFilterText};

use crate::putting::put_bytes;
use crate::statuses::{DONE, NO_TEXT};
use arrayvec::ArrayString;
use ether_filter::{Filter, FilterError};
use std::fmt::Write;

/// The text of every error is shorter than this.
const LONGEST: usize = 512;

/// Writes why a text is not an expression, without a 0 byte at its end. What is written is empty if the text is an
/// expression.
#[unsafe(no_mangle)]
pub extern "C" fn etherpeel_filter_error_text(
    expression: &[u8],
    text: &mut [u8],
    len: &mut usize,
) -> u32
    ensures { GivesFilterText expression.now text.old text.new result len.new }
{
    let (status, needed) = match Filter::parse(expression) {
        Ok(_) => (DONE, 0),
        Err(error) => put_text(&error, text),
    };
    *len = needed;
    status
}

/// Writes the text of an error to the front of a target.
fn put_text(error: &FilterError, target: &mut [u8]) -> (u32, usize)
    ensures { PutsFilterText error.now target.old target.new result.0 result.1 }
{
    match text_of(error) {
        Some(text) => put_bytes(text.as_str().as_bytes(), target),
        None => (NO_TEXT, 0),
    }
}

/// The text of an error. `None` is not ruled out, since no contract says that `write!` succeeds.
fn text_of(error: &FilterError) -> Option<ArrayString<LONGEST>>
    ensures { IfSome result (λ text. text.bytes ≡ filter_error_text error.now) }
{
    let mut text: ArrayString<LONGEST> = ArrayString::new();
    match write!(text, "{error}") {
        Ok(()) => Some(text),
        Err(_) => None,
    }
}
