//! The text of the fault of a frame.
ghost use Rattle.std.specs.Prelude.{◌≡◌, IfSome};
ghost use Rattle.ether_peel.specs.Walker.Start.{start_of as start_meant, limited_start};
ghost use Rattle.ether_peel.specs.Walker.Texts.{peel_fault_text};
ghost use Rattle.ether_c.specs.Starts.{IsUnknown, IsUnknownStart, OfStart};
ghost use Rattle.ether_c.specs.Calls.{GivesText, PutsEndText, PutsText};

use crate::numbers::start_of;
use crate::putting::put_bytes;
use crate::statuses::{DONE, NO_TEXT, UNKNOWN_START};
use arrayvec::ArrayString;
use ether_peel::{PeelFault, summary, summary_limited};
use std::fmt::Write;

/// The text of every fault is shorter than this.
const LONGEST: usize = 512;

/// Writes the text of the fault that ends the walk through a frame, without a 0 byte at its end. It is empty if there
/// is no fault.
#[unsafe(no_mangle)]
pub extern "C" fn etherpeel_fault_text(
    start: u32,
    ether_type: u16,
    bytes: &[u8],
    text: &mut [u8],
    len: &mut usize,
) -> u32
    ensures unknown { IsUnknown start ether_type
        → IsUnknownStart result ((text.new ≡ text.old) × (len.new ≡ len.old)) }
    ensures given { OfStart start ether_type
        (λ s. GivesText (start_meant s) bytes.now text.old text.new result len.new) }
{
    let Some(start) = start_of(start, ether_type) else {
        return UNKNOWN_START;
    };
    let found = summary(start, bytes);
    let (status, needed) = put_end_text(&found.fault, text);
    *len = needed;
    status
}

/// Does as [`etherpeel_fault_text`] for the walk that reads at most `limit` VLAN tags and MACsec SecTags.
#[unsafe(no_mangle)]
pub extern "C" fn etherpeel_fault_text_limited(
    start: u32,
    ether_type: u16,
    bytes: &[u8],
    limit: usize,
    text: &mut [u8],
    len: &mut usize,
) -> u32
    ensures unknown { IsUnknown start ether_type
        → IsUnknownStart result ((text.new ≡ text.old) × (len.new ≡ len.old)) }
    ensures given { OfStart start ether_type
        (λ s. GivesText (limited_start s limit) bytes.now text.old text.new result len.new) }
{
    let Some(start) = start_of(start, ether_type) else {
        return UNKNOWN_START;
    };
    let found = summary_limited(start, bytes, limit);
    let (status, needed) = put_end_text(&found.fault, text);
    *len = needed;
    status
}

/// Writes the text of a fault to the front of a target, if there is a fault.
fn put_end_text(fault: &Option<PeelFault>, target: &mut [u8]) -> (u32, usize)
    ensures { PutsEndText fault.now target.old target.new result.0 result.1 }
{
    match fault {
        Some(fault) => put_text(fault, target),
        None => (DONE, 0),
    }
}

/// Writes the text of a fault to the front of a target.
fn put_text(fault: &PeelFault, target: &mut [u8]) -> (u32, usize)
    ensures { PutsText fault.now target.old target.new result.0 result.1 }
{
    match text_of(fault) {
        Some(text) => put_bytes(text.as_str().as_bytes(), target),
        None => (NO_TEXT, 0),
    }
}

/// The text of a fault. `None` is not ruled out, since no contract says that `write!` succeeds.
fn text_of(fault: &PeelFault) -> Option<ArrayString<LONGEST>>
    ensures { IfSome result (λ text. text.bytes ≡ peel_fault_text fault.now) }
{
    let mut text: ArrayString<LONGEST> = ArrayString::new();
    match write!(text, "{fault}") {
        Ok(()) => Some(text),
        Err(_) => None,
    }
}
