//! The frame that an object means.
ghost use Rattle.std.specs.Prelude.{◌≡◌, ◌++◌, ◌-◌, None, IfOk, codes, length, map};
ghost use Rattle.ether_pcap.specs.Writing.{zeros};
ghost use Rattle.std.specs.Option.{option_map};
ghost use Rattle.serde_json.specs.Find.{as_object, as_str};
ghost use Rattle.serde_json.specs.View.{view};
ghost use Rattle.ether_make.specs.Objects.{given as given_in};
ghost use Rattle.ether_make.specs.Frames.{front as front_in, front_of as front_of_in, after_headers as after_headers_in, fault_in, rest_in, rest_bytes as rest_bytes_in, spelled_rest, text_rest, frame_bytes as frame_bytes_in, frame_meaning, link_of as link_of_in, first_header as first_header_in, usual_link as usual_link_in, frame_link as frame_link_in, padded as padded_in};
ghost use Rattle.ether_make.specs.FrameViews.{frame_view};
ghost use Rattle.ether_make.specs.Texts.{hex_bytes as hex_in};
ghost use Rattle.ether_make.specs.Headers.{next_in, told};
ghost use Rattle.ether_make.specs.Refusals.{Tells};
ghost use Rattle.ether_make.specs.Times.{time};

use crate::header::{headers_bytes, next_section};
use crate::objects::{given, number_of, unknown_member};
use crate::refusal::{Fault, Reason, Refusal};
use crate::texts::hex_bytes;
use crate::time_text::{Time, given_time};
use ether_fields::Section;
use serde_json::Value;
use std::alloc::{AllocError, Global};

/// A frame.
#[derive(Drop, Debug)]
pub struct Frame {
    /// The link type of its capture.
    pub link: u16,
    /// Its time.
    pub time: Time,
    /// Its bytes.
    pub bytes: Vec<u8>,
}

/// Pads a frame of Ethernet with zeros to 60 bytes, if that is asked for.
pub fn padded(frame: Frame, pad: bool) -> Result<Frame, AllocError>
    ensures { IfOk result (λ f. frame_view f ≡ padded_in pad (frame_view frame)) }
{
    if !pad || frame.link != 1 {
        return Ok(frame);
    }
    let Frame { link, time, bytes } = frame;
    Ok(Frame {
        link,
        time,
        bytes: with_zeros(bytes)?,
    })
}

/// Bytes with zeros after them, up to 60.
fn with_zeros(bytes: Vec<u8>) -> Result<Vec<u8>, AllocError>
    ensures { IfOk result (λ v. v.items ≡ bytes.items ++ zeros (60 - length bytes.items)) }
{
    let mut padded = bytes;
    while padded.len() < 60 {
        padded.push(0)?;
    }
    Ok(padded)
}

/// The frame that an object means. A refusal borrows the name of a member from the object.
pub fn make_frame<'v>(alloc: Global, object: &'v Value) -> Result<Frame, Fault<'v>>
    ensures { Tells frame_view (frame_meaning (view object.now)) result }
{
    if let Some(member) = unknown_member(
        object,
        Section::Frame.fields(),
        &["headers", "rest", "fault"],
    ) {
        return Err(refused(member, Reason::Unknown));
    }
    let bytes = match frame_bytes(alloc, object) {
        Ok(bytes) => bytes,
        Err(fault) => return Err(fault),
    };
    let link = match told_link(object) {
        Ok(link) => link,
        Err(fault) => return Err(fault),
    };
    match told_time(object) {
        Ok(time) => Ok(Frame { link, time, bytes }),
        Err(fault) => Err(fault),
    }
}

/// The time of a frame, or the refusal of the member.
fn told_time<'v>(object: &'v Value) -> Result<Time, Fault<'v>>
    ensures { Tells (λ t. t) (told None (codes "time") (time (given_in (codes "time") (view object.now)))) result }
{
    match given_time(given(object, "time")) {
        Ok(time) => Ok(time),
        Err(reason) => Err(refused("time", reason)),
    }
}

/// The link type of a frame, or the refusal of the member.
fn told_link<'v>(object: &'v Value) -> Result<u16, Fault<'v>>
    ensures { Tells (λ link. link) (told None (codes "link")
        (frame_link_in (first_header_in (given_in (codes "headers") (view object.now)))
        (given_in (codes "link") (view object.now)))) result }
{
    match frame_link(object) {
        Ok(link) => Ok(link),
        Err(reason) => Err(refused("link", reason)),
    }
}

/// The bytes of a frame: its headers, and those after them.
fn frame_bytes<'v>(alloc: Global, object: &'v Value) -> Result<Vec<u8>, Fault<'v>>
    ensures { Tells (λ v. v.items) (frame_bytes_in (view object.now)) result }
{
    let mut bytes = match front(alloc, given(object, "headers")) {
        Ok(bytes) => bytes,
        Err(fault) => return Err(fault),
    };
    match after_headers(alloc, given(object, "rest"), given(object, "fault")) {
        Ok(last) => {
            if bytes.extend_from_slice(&last).is_err() {
                return Err(Fault::Memory);
            }
        }
        Err(fault) => return Err(fault),
    }
    Ok(bytes)
}

/// A member that is no header's.
fn refused<'v>(member: &'v str, reason: Reason) -> Fault<'v>
    ensures { result ≡ Fault.Refused (record { header = None; member = member.entry; reason = reason }) }
{
    Fault::Refused(Refusal {
        header: None,
        member,
        reason,
    })
}

/// The bytes of the headers.
fn front<'v>(alloc: Global, headers: Option<&'v Value>) -> Result<Vec<u8>, Fault<'v>>
    ensures { Tells (λ v. v.items) (front_in (option_map (λ v. view v.now) headers.entry)) result }
{
    let Some(headers) = headers else {
        return Err(refused("headers", Reason::Missing));
    };
    let Some(objects) = headers.as_array() else {
        return Err(refused("headers", Reason::NotAnArray));
    };
    front_of(alloc, objects.as_slice())
}

/// The bytes of headers. The first one has to begin a frame.
fn front_of<'v>(alloc: Global, objects: &'v [Value]) -> Result<Vec<u8>, Fault<'v>>
    ensures { Tells (λ v. v.items) (front_of_in (map view objects.now)) result }
{
    match next_section(objects) {
        Some(section) if link_of(section).is_none() => Err(Fault::Refused(Refusal {
            header: Some(0),
            member: "header",
            reason: Reason::NotALink,
        })),
        _ => headers_bytes(alloc, objects),
    }
}

/// The link type of frames that begin with a header.
fn link_of(section: Section) -> Option<u16>
    ensures { result ≡ link_of_in section }
{
    match section {
        Section::Eth => Some(1),
        Section::Sll => Some(113),
        Section::Sll2 => Some(276),
        _ => None,
    }
}

/// The link type of a frame: the one that is given, if no header contradicts it, or that of its first header, or
/// Ethernet.
fn frame_link(object: &Value) -> Result<u16, Reason>
    ensures { result ≡ frame_link_in (first_header_in (given_in (codes "headers") (view object.now)))
        (given_in (codes "link") (view object.now)) }
{
    let first = first_header(object);
    let Some(value) = given(object, "link") else {
        return Ok(usual_link(first));
    };
    let Some(number) = number_of(value) else {
        return Err(Reason::NotANumber);
    };
    if number >= 65_536 {
        return Err(Reason::TooBig);
    }
    let link = number as u16;
    if first.is_some() && link != usual_link(first) {
        return Err(Reason::OtherHeader);
    }
    Ok(link)
}

/// The link type of a first header, or Ethernet.
fn usual_link(first: Option<Section>) -> u16
    ensures { result ≡ usual_link_in first }
{
    match first {
        Some(section) => link_of(section).unwrap_or(1),
        None => 1,
    }
}

/// The first header.
fn first_header(object: &Value) -> Option<Section>
    ensures { result ≡ first_header_in (given_in (codes "headers") (view object.now)) }
{
    next_section(given(object, "headers")?.as_array()?.as_slice())
}

/// The bytes after the headers: those of a rest, or of a fault.
fn after_headers<'v>(
    alloc: Global,
    rest: Option<&'v Value>,
    fault: Option<&'v Value>,
) -> Result<Vec<u8>, Fault<'v>>
    ensures { Tells (λ v. v.items)
        (after_headers_in (option_map (λ v. view v.now) rest.entry) (option_map (λ v. view v.now) fault.entry))
        result }
{
    match (rest, fault) {
        (None, None) => Ok(Vec::new(alloc)),
        (Some(rest), None) => rest_of(alloc, rest),
        (None, Some(fault)) => fault_of(alloc, fault),
        (Some(_), Some(_)) => Err(refused("fault", Reason::Unknown)),
    }
}

/// The bytes of a rest.
fn rest_of<'v>(alloc: Global, rest: &'v Value) -> Result<Vec<u8>, Fault<'v>>
    ensures { Tells (λ v. v.items) (rest_in (view rest.now) (as_object (view rest.now))) result }
{
    if !rest.is_object() {
        return Err(refused("rest", Reason::NotAnObject));
    }
    if let Some(member) = unknown_member(rest, Section::Rest.fields(), &["bytes"]) {
        return Err(refused(member, Reason::Unknown));
    }
    rest_bytes(alloc, given(rest, "bytes"))
}

/// The bytes of a fault.
fn fault_of<'v>(alloc: Global, fault: &'v Value) -> Result<Vec<u8>, Fault<'v>>
    ensures { Tells (λ v. v.items) (fault_in (view fault.now) (as_object (view fault.now))) result }
{
    if !fault.is_object() {
        return Err(refused("fault", Reason::NotAnObject));
    }
    if let Some(member) = unknown_member(fault, Section::Fault.fields(), &["bytes"]) {
        return Err(refused(member, Reason::Unknown));
    }
    match given(fault, "bytes") {
        Some(bytes) => text_bytes(alloc, bytes),
        None => Err(refused("bytes", Reason::Missing)),
    }
}

/// The bytes of the member `bytes` of a rest.
fn rest_bytes<'v>(alloc: Global, bytes: Option<&'v Value>) -> Result<Vec<u8>, Fault<'v>>
    ensures { Tells (λ v. v.items) (rest_bytes_in (option_map (λ v. view v.now) bytes.entry)) result }
{
    match bytes {
        Some(bytes) => text_bytes(alloc, bytes),
        None => Ok(Vec::new(alloc)),
    }
}

/// The bytes that a value spells, which is a text.
fn text_bytes<'v>(alloc: Global, value: &'v Value) -> Result<Vec<u8>, Fault<'v>>
    ensures { Tells (λ v. v.items) (text_rest (as_str (view value.now))) result }
{
    let Some(text) = value.as_str() else {
        return Err(refused("bytes", Reason::NotAText));
    };
    spelled(alloc, text.as_bytes())
}

/// The bytes that a text spells.
fn spelled<'v>(alloc: Global, text: &[u8]) -> Result<Vec<u8>, Fault<'v>>
    ensures { Tells (λ v. v.items) (spelled_rest (hex_in text.now)) result }
{
    match hex_bytes(alloc, text) {
        Ok(Some(bytes)) => Ok(bytes),
        Ok(None) => Err(refused("bytes", Reason::NotBytes)),
        Err(_) => Err(Fault::Memory),
    }
}
