//! The text of the fault that ends a capture file.
ghost use Rattle.std.specs.Prelude.{◌≡◌, IfSome};
ghost use Rattle.ether_pcap.specs.CaptureTexts.{capture_fault_text};
ghost use Rattle.ether_c.specs.Captured.{GivesCaptureText, PutsCaptureText};

use crate::capturing::captured;
use crate::putting::put_bytes;
use crate::statuses::{DONE, NO_TEXT};
use arrayvec::ArrayString;
use ether_pcap::CaptureFault;
use std::fmt::Write;

/// The text of every fault is shorter than this.
const LONGEST: usize = 512;

/// Writes the text of the fault that ends a capture file, without a 0 byte at its end. It is empty if there is no
/// fault.
#[unsafe(no_mangle)]
pub extern "C" fn etherpeel_capture_fault_text(file: &[u8], text: &mut [u8], len: &mut usize) -> u32
    ensures { GivesCaptureText file.now text.old text.new result len.new }
{
    let (_count, fault) = captured(file, &mut []);
    let (status, needed) = match &fault {
        Some(fault) => put_text(fault, text),
        None => (DONE, 0),
    };
    *len = needed;
    status
}

/// Writes the text of a fault to the front of a target.
fn put_text(fault: &CaptureFault, target: &mut [u8]) -> (u32, usize)
    ensures { PutsCaptureText fault.now target.old target.new result.0 result.1 }
{
    match text_of(fault) {
        Some(text) => put_bytes(text.as_str().as_bytes(), target),
        None => (NO_TEXT, 0),
    }
}

/// The text of a fault. `None` is not ruled out, since no contract says that `write!` succeeds.
fn text_of(fault: &CaptureFault) -> Option<ArrayString<LONGEST>>
    ensures { IfSome result (λ text. text.bytes ≡ capture_fault_text fault.now) }
{
    let mut text: ArrayString<LONGEST> = ArrayString::new();
    match write!(text, "{fault}") {
        Ok(()) => Some(text),
        Err(_) => None,
    }
}
