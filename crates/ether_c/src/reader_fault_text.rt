//! The text of the reason why a unit of a capture file can't be read.
ghost use Rattle.std.specs.Prelude.{◌≡◌, None, IfSome};
ghost use Rattle.ether_pcap.specs.CaptureTexts.{capture_error_text};
ghost use Rattle.ether_c.specs.Reading.{expected_by, GivesUnitText, PutsErrorText};
ghost use Rattle.ether_c.specs.Tags.{bad_field};

use crate::putting::put_bytes;
use crate::reading_captures::read_unit;
use crate::statuses::{BAD_FIELD, DONE, NO_TEXT};
use crate::{EtherInterface, EtherReader};
use arrayvec::ArrayString;
use ether_pcap::CaptureError;
use std::fmt::Write;

/// The text of every error is shorter than this.
const LONGEST: usize = 512;

/// Writes the text of the reason why the unit at the front of bytes can't be read, without a 0 byte at its end. It is
/// empty if the unit can be read.
#[unsafe(no_mangle)]
pub extern "C" fn etherpeel_reader_fault_text(
    reader: &EtherReader,
    interfaces: &[EtherInterface],
    bytes: &[u8],
    text: &mut [u8],
    len: &mut usize,
) -> u32
    ensures unfit { expected_by reader.now interfaces.now ≡ None
        → (result ≡ bad_field) × (text.new ≡ text.old) × (len.new ≡ len.old) }
    ensures given { IfSome (expected_by reader.now interfaces.now)
        (λ x. GivesUnitText bytes.now x text.old text.new result len.new) }
{
    let (status, needed) = match read_unit(reader, interfaces, bytes) {
        Some(Ok(_)) => (DONE, 0),
        Some(Err(error)) => put_text(&error, text),
        None => return BAD_FIELD,
    };
    *len = needed;
    status
}

/// Writes the text of an error to the front of a target.
fn put_text(error: &CaptureError, target: &mut [u8]) -> (u32, usize)
    ensures { PutsErrorText error.now target.old target.new result.0 result.1 }
{
    match text_of(error) {
        Some(text) => put_bytes(text.as_str().as_bytes(), target),
        None => (NO_TEXT, 0),
    }
}

/// The text of an error. `None` is not ruled out, since no contract says that `write!` succeeds.
fn text_of(error: &CaptureError) -> Option<ArrayString<LONGEST>>
    ensures { IfSome result (λ text. text.bytes ≡ capture_error_text error.now) }
{
    let mut text: ArrayString<LONGEST> = ArrayString::new();
    match write!(text, "{error}") {
        Ok(()) => Some(text),
        Err(_) => None,
    }
}
