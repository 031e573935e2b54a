//! Replaces headers in place.
ghost use Rattle.std.specs.Prelude.{◌≡◌, IfOk, IfErr};
ghost use Rattle.ether_peel.specs.Walker.Start.{start_of};
ghost use Rattle.ether_packet.specs.Packet.{packet_start};
ghost use Rattle.ether_c.specs.Numbers.{done};
ghost use Rattle.ether_c.specs.Starts.{IsUnknown, IsUnknownStart, OfStart};
ghost use Rattle.ether_c.specs.Replacing.{GivesReplaceLink, GivesReplaceExt, GivesReplaceArp, c_replace_error, replace_error_status};

use crate::numbers::start_of;
use crate::statuses::{DONE, UNKNOWN_START};
use crate::{EtherReplaceError, EtherUnit, ether_replace_error};
use ether_packet::{ReplaceError, replace_arp, replace_link, replace_link_ext};

/// Replaces the link's header at the front of a frame, in place, by one of the same kind that says the same about what
/// follows it.
#[unsafe(no_mangle)]
pub extern "C" fn etherpeel_replace_link(
    start: u32,
    ether_type: u16,
    frame: &mut [u8],
    header: &EtherUnit,
    error: &mut EtherReplaceError,
) -> u32
    ensures unknown { IsUnknown start ether_type
        → IsUnknownStart result ((frame.new ≡ frame.old) × (error.new ≡ error.old)) }
    ensures given { OfStart start ether_type
        (λ s. GivesReplaceLink s header.now frame.old frame.new error.old error.new result) }
{
    let Some(start) = start_of(start, ether_type) else {
        return UNKNOWN_START;
    };
    match header.to_link() {
        Ok(link) => answer(replace_link(start, frame, &link), error),
        Err(status) => status,
    }
}

/// Replaces the VLAN tag or SecTag at an index, in place, by one of the same length that says the same about what
/// follows it.
#[unsafe(no_mangle)]
pub extern "C" fn etherpeel_replace_link_ext(
    start: u32,
    ether_type: u16,
    frame: &mut [u8],
    index: usize,
    header: &EtherUnit,
    error: &mut EtherReplaceError,
) -> u32
    ensures unknown { IsUnknown start ether_type
        → IsUnknownStart result ((frame.new ≡ frame.old) × (error.new ≡ error.old)) }
    ensures given { OfStart start ether_type
        (λ s. GivesReplaceExt (start_of s) index header.now frame.old frame.new
        error.old error.new result) }
{
    let Some(start) = start_of(start, ether_type) else {
        return UNKNOWN_START;
    };
    match header.to_link_ext() {
        Ok(ext) => answer(replace_link_ext(start, frame, index, &ext), error),
        Err(status) => status,
    }
}

/// Replaces the ARP packet of a frame, in place, by one whose addresses have the same lengths, and are read from
/// `bytes`.
#[unsafe(no_mangle)]
pub extern "C" fn etherpeel_replace_arp(
    start: u32,
    ether_type: u16,
    frame: &mut [u8],
    header: &EtherUnit,
    bytes: &[u8],
    error: &mut EtherReplaceError,
) -> u32
    ensures unknown { IsUnknown start ether_type
        → IsUnknownStart result ((frame.new ≡ frame.old) × (error.new ≡ error.old)) }
    ensures given { OfStart start ether_type
        (λ s. GivesReplaceArp (packet_start s) header.now bytes.now frame.old frame.new
        error.old error.new result) }
{
    let Some(start) = start_of(start, ether_type) else {
        return UNKNOWN_START;
    };
    match header.to_arp(bytes) {
        Ok(packet) => answer(replace_arp(start, frame, &packet), error),
        Err(status) => status,
    }
}

/// Returns the status of a call, and writes its error if there is one.
fn answer(replaced: Result<(), ReplaceError>, error: &mut EtherReplaceError) -> u32
    ensures kept { IfOk replaced (λ _. error.new ≡ error.old) }
    ensures done { IfOk replaced (λ _. result ≡ done) }
    ensures error { IfErr replaced (λ e. error.new ≡ c_replace_error e) }
    ensures status { IfErr replaced (λ e. result ≡ replace_error_status e) }
{
    match replaced {
        Ok(()) => DONE,
        Err(refusal) => {
            *error = EtherReplaceError::of(&refusal);
            ether_replace_error::status(&refusal)
        }
    }
}
