//! Writes the lines for a frame.
ghost use Rattle.std.specs.Prelude.{◌≡◌, ◌<◌, List, ℕ, drop, IfOk, is_ok, true, string_bytes};
ghost use Rattle.etherparse.specs.Header.{Header};
ghost use Rattle.ether_peel.specs.Grammar.Stack.{Ending, Walk};
ghost use Rattle.ether_peel.specs.Walker.Start.{start_of};
ghost use Rattle.ether_peel.specs.declared.start.Start.TheVariants as starts;
ghost use Rattle.ether_switch.specs.Arrivals.{front_of};
ghost use Rattle.ether_switch.specs.Leaving.{LeavesTagged, LeavesUntagged};
ghost use Rattle.ether_switch.specs.Relaying.{Event, settings_of, answer, after};
ghost use Rattle.example_switch.specs.Configured.{config_of};
ghost use Rattle.example_switch.specs.Lines.{line_of, HasLine, HasLines, Answers};

use crate::reading::Arrival;
use ether_switch::{Bridge, Received, StationBucket};
use std::alloc::{AllocError, Global};

/// Passes a frame through a bridge, and returns a line for each port through which it leaves.
pub(crate) fn frame_lines(
    alloc: Global,
    bridge: &Bridge,
    table: &mut [StationBucket],
    arrival: &Arrival,
    frame: &[u8],
) -> Result<String, AllocError>
    ensures lines { IfOk result (λ text. (hs : List Header) (e : Ending)
        → Walk (start_of starts.Ethernet2) frame.now hs e
        → let event : Event = record {
          settings = settings_of bridge.now;
          now = arrival.now.time;
          from = arrival.now.from;
          port = config_of arrival.now.port;
          hs = hs;
        } in
        Answers (answer event table.old) frame.now hs e (string_bytes text)) }
    ensures learned { (hs : List Header) (e : Ending)
        → Walk (start_of starts.Ethernet2) frame.now hs e
        → let event : Event = record {
          settings = settings_of bridge.now;
          now = arrival.now.time;
          from = arrival.now.from;
          port = config_of arrival.now.port;
          hs = hs;
        } in
        table.new ≡ after event table.old }
{
    match bridge.receive(
        table,
        arrival.time,
        arrival.from,
        &arrival.port.config(),
        frame,
    ) {
        Ok(received) => received_lines(alloc, &received, frame),
        Err(_) => Ok(String::new(alloc)),
    }
}

/// The lines for a frame that was received, one for each port through which it leaves.
fn received_lines(alloc: Global, received: &Received, frame: &[u8]) -> Result<String, AllocError>
    ensures { IfOk result (λ text. (hs : List Header) (e : Ending)
        → Walk (start_of starts.Ethernet2) frame.now hs e
        → is_ok (front_of received.now.kind hs) ≡ true
        → HasLines received.now frame.now hs e 0 (string_bytes text)) }
{
    let tagged = tagged_form(alloc, received, frame)?;
    let untagged = untagged_form(alloc, received, frame)?;
    let mut text = String::new(alloc);
    for number in 0..256u16 {
        let line = line_to(
            alloc,
            received,
            number as u8,
            tagged.as_slice(),
            untagged.as_slice(),
        )?;
        text.push_str(line.as_str())?;
    }
    Ok(text)
}

/// The frame as it leaves with the tag of its VLAN.
fn tagged_form(alloc: Global, received: &Received, frame: &[u8]) -> Result<Vec<u8>, AllocError>
    ensures { IfOk result (λ sent. (hs : List Header) (e : Ending)
        → Walk (start_of starts.Ethernet2) frame.now hs e
        → is_ok (front_of received.now.kind hs) ≡ true
        → LeavesTagged received.now (front_of received.now.kind hs) frame.now hs e sent.items) }
{
    let mut buffer = vec![in alloc; 0, 0, 0, 0]?;
    buffer.extend_from_slice(frame)?;
    tagged_in(alloc, received, buffer.as_mut_slice())
}

/// Does as `tagged_form` with the frame after four free bytes of a buffer.
fn tagged_in(alloc: Global, received: &Received, buffer: &mut [u8]) -> Result<Vec<u8>, AllocError>
    ensures { IfOk result (λ sent. (hs : List Header) (e : Ending)
        → Walk (start_of starts.Ethernet2) (drop 4 buffer.old) hs e
        → is_ok (front_of received.now.kind hs) ≡ true
        → LeavesTagged received.now (front_of received.now.kind hs) (drop 4 buffer.old) hs e sent.items) }
{
    match received.make_tagged(buffer) {
        Some(at) => rest_from(alloc, buffer, at),
        None => Ok(Vec::new(alloc)),
    }
}

/// The frame as it leaves without a tag.
fn untagged_form(alloc: Global, received: &Received, frame: &[u8]) -> Result<Vec<u8>, AllocError>
    ensures { IfOk result (λ sent. (hs : List Header) (e : Ending)
        → Walk (start_of starts.Ethernet2) frame.now hs e
        → is_ok (front_of received.now.kind hs) ≡ true
        → LeavesUntagged (front_of received.now.kind hs) frame.now hs e sent.items) }
{
    let mut buffer = vec![in alloc; 0, 0, 0, 0]?;
    buffer.extend_from_slice(frame)?;
    untagged_in(alloc, received, buffer.as_mut_slice())
}

/// Does as `untagged_form` with the frame after four free bytes of a buffer.
fn untagged_in(alloc: Global, received: &Received, buffer: &mut [u8]) -> Result<Vec<u8>, AllocError>
    ensures { IfOk result (λ sent. (hs : List Header) (e : Ending)
        → Walk (start_of starts.Ethernet2) (drop 4 buffer.old) hs e
        → is_ok (front_of received.now.kind hs) ≡ true
        → LeavesUntagged (front_of received.now.kind hs) (drop 4 buffer.old) hs e sent.items) }
{
    match received.make_untagged(buffer) {
        Some(at) => rest_from(alloc, buffer, at),
        None => Ok(Vec::new(alloc)),
    }
}

/// The bytes of a buffer from the index `at` on.
fn rest_from(alloc: Global, buffer: &[u8], at: usize) -> Result<Vec<u8>, AllocError>
    ensures { IfOk result (λ bytes. bytes.items ≡ drop at buffer.now) }
{
    let mut bytes = Vec::new(alloc);
    bytes.extend_from_slice(buffer.get(at..).unwrap_or(&[]))?;
    Ok(bytes)
}

/// The line for a port and a frame in both forms; empty if the frame does not leave by that port.
fn line_to(
    alloc: Global,
    received: &Received,
    number: u8,
    tagged: &[u8],
    untagged: &[u8],
) -> Result<String, AllocError>
    ensures { IfOk result (λ text. (hs : List Header) (e : Ending) (frame : List ℕ)
        → LeavesTagged received.now (front_of received.now.kind hs) frame hs e tagged.now
        → LeavesUntagged (front_of received.now.kind hs) frame hs e untagged.now
        → HasLine received.now number frame hs e (string_bytes text)) }
{
    if received.tagged.contains(number) {
        return line(alloc, number, tagged);
    }
    if received.untagged.contains(number) {
        return line(alloc, number, untagged);
    }
    Ok(String::new(alloc))
}

/// The line for a frame that leaves by a port.
fn line(alloc: Global, number: u8, frame: &[u8]) -> Result<String, AllocError>
    ensures { IfOk result (λ text. string_bytes text ≡ line_of number frame.now) }
{
    let digits = hex::encode(alloc, frame)?;
    format!(in alloc; "{number} {digits}\n")
}
