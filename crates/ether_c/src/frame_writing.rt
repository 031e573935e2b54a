//! Writes whole frames for callers in C.
ghost use Rattle.std.specs.Prelude.{◌≡◌, [], length};
ghost use Rattle.ether_packet.specs.Builder.{content_payload};
ghost use Rattle.ether_c.specs.FrameWriting.{GivesFrameWritten, GivesRest, GivesWritten};

use crate::EtherUnit;
use crate::building::{MAX_TAGS, content, parts};
use crate::statuses::{BAD_FIELD, DONE, NO_ROOM};
use ether_packet::PacketBuilder;
use etherparse::{LinkExtHeader, SingleVlanHeader};

/// Writes a frame to the front of a target: the headers of the units as they are, and the bytes of another frame from
/// `rest_start` on. The addresses of an ARP packet are read from the other frame.
#[unsafe(no_mangle)]
pub extern "C" fn etherpeel_write_frame(
    units: &[EtherUnit],
    bytes: &[u8],
    rest_start: usize,
    target: &mut [u8],
    len: &mut usize,
) -> u32
    ensures { GivesFrameWritten units.now bytes.now rest_start target.old target.new len.new result }
{
    let mut tags = [LinkExtHeader::Vlan(SingleVlanHeader::default()); MAX_TAGS];
    let (status, given) = match parts(units, bytes, &mut tags) {
        Ok(parts) => {
            let headers = PacketBuilder {
                link: parts.link,
                link_exts: &tags[..parts.tags],
                content: content(&parts.arp, 0, &[]),
            };
            write_rest(&headers, units.len(), bytes, rest_start, target)
        }
        Err(refusal) => refusal,
    };
    *len = given;
    status
}

/// Writes headers, and the bytes of a frame from an offset on. Returns the status of the call, and the length of both;
/// the number of units if the offset is not in the frame.
fn write_rest(
    headers: &PacketBuilder<'_, '_>,
    count: usize,
    bytes: &[u8],
    rest_start: usize,
    target: &mut [u8],
) -> (u32, usize)
    requires { content_payload headers.now.content ≡ [] }
    ensures { GivesRest headers.now count bytes.now rest_start target.old target.new result.1 result.0 }
{
    if rest_start > bytes.len() {
        return (BAD_FIELD, count);
    }
    write(headers, &bytes[rest_start..], target)
}

/// Writes headers, and bytes after them. Returns the status of the call, and the length of both.
fn write(headers: &PacketBuilder<'_, '_>, rest: &[u8], target: &mut [u8]) -> (u32, usize)
    requires { content_payload headers.now.content ≡ [] }
    ensures { GivesWritten headers.now rest.now target.old target.new result.1 result.0 }
{
    let size = headers.size();
    let len = size.saturating_add(rest.len());
    if target.len() < size || target.len() - size < rest.len() {
        return (NO_ROOM, len);
    }
    match headers.write_unchanged(target) {
        Ok(end) => {
            target[end..end + rest.len()].copy_from_slice(rest);
            (DONE, len)
        }
        // Not reached: the target has room for the headers.
        Err(_) => (NO_ROOM, len),
    }
}
