//! Reads a capture file unit by unit.
ghost use Rattle.std.specs.Prelude.{◌≡◌, ◌≤◌, length, map, None, IfSome, IfNone, IsTrue, IsFalse};
ghost use Rattle.ether_pcap.specs.CaptureViews.{capture_refusal_view};
ghost use Rattle.ether_pcap.specs.ReadUnits.{HasRoom, IsFull, packet_in};
ghost use Rattle.ether_c.specs.Reading.{expected_by, interface_of, interfaces_of, GivesUnit, Keeps, PutsPacket, Reads, refusal_status};
ghost use Rattle.ether_c.specs.Tags.{bad_field};

use crate::statuses::{BAD_CAPTURE, BAD_FIELD, DONE, NO_ROOM, SHORT};
use crate::{EtherCaptured, EtherInterface, EtherReadUnit, EtherReader};
use ether_pcap::{CaptureError, CaptureInterface, DescribedInterfaces, ReadUnit, UnitContent};

/// Reads the unit at the front of bytes, and writes its packet, if it has one. The reader and its table keep what the
/// unit says of those after it.
#[unsafe(no_mangle)]
pub extern "C" fn etherpeel_reader_read<'a>(
    reader: &mut EtherReader,
    interfaces: &mut [EtherInterface],
    bytes: &'a [u8],
    packet: &mut EtherCaptured<'a>,
    unit: &mut EtherReadUnit,
) -> u32
    ensures unfit { expected_by reader.old interfaces.old ≡ None
        → (result ≡ bad_field) × (reader.new ≡ reader.old) × (interfaces.new ≡ interfaces.old)
        × (packet.new ≡ packet.old) × (unit.new ≡ unit.old) }
    ensures given { IfSome (expected_by reader.old interfaces.old) (λ x. GivesUnit bytes.now x
        reader.old reader.new interfaces.old interfaces.new packet.old packet.new unit.new result) }
{
    match read_unit(reader, interfaces, bytes) {
        Some(Ok(read)) => {
            keep(reader, interfaces, &read.content);
            *unit = EtherReadUnit::of(&read);
            put(packet, read.content);
            DONE
        }
        Some(Err(error)) => {
            *unit = EtherReadUnit::of_refusal(&error);
            status_of(&error)
        }
        None => BAD_FIELD,
    }
}

/// Reads the unit at the front of bytes, and keeps nothing. `None` if the state has no number, or if there are more
/// interfaces than the table has room for.
pub(crate) fn read_unit<'a>(
    reader: &EtherReader,
    interfaces: &[EtherInterface],
    bytes: &'a [u8],
) -> Option<Result<ReadUnit<'a>, CaptureError>>
    ensures unfit { IfNone result (expected_by reader.now interfaces.now ≡ None) }
    ensures read { IfSome result (Reads bytes.now reader.now interfaces.now) }
{
    if reader.interface_count > interfaces.len() {
        return None;
    }
    let state = reader.to_state()?;
    let described = Table(&interfaces[..reader.interface_count]);
    match state.read(&described, bytes) {
        Ok(unit) if is_full(reader, interfaces, &unit.content) => {
            Some(Err(CaptureError::TooManyInterfaces))
        }
        read => Some(read),
    }
}

/// Tests that a unit describes an interface for which the table has no room.
fn is_full(reader: &EtherReader, interfaces: &[EtherInterface], content: &UnitContent<'_>) -> bool
    requires { reader.now.interface_count ≤ length interfaces.now }
    ensures full { IsTrue result
        → IsFull (length interfaces.now) (interfaces_of reader.now interfaces.now) content.now }
    ensures room { IsFalse result
        → HasRoom (length interfaces.now) (interfaces_of reader.now interfaces.now) content.now }
{
    matches!(content, UnitContent::Interface(_)) && reader.interface_count == interfaces.len()
}

/// The interfaces that a section has described so far.
#[derive(Clone, Copy)]
struct Table<'t>(&'t [EtherInterface]);

impl DescribedInterfaces for Table<'_> {
    ghost items = { λ table. map interface_of table.0.now };

    fn interface(&self, number: u32) -> Option<CaptureInterface> {
        let interface = self.0.get(number as usize)?;
        Some(interface.to_interface())
    }
}

/// Keeps what a unit says of those after it.
fn keep(reader: &mut EtherReader, interfaces: &mut [EtherInterface], content: &UnitContent<'_>)
    requires within { reader.old.interface_count ≤ length interfaces.old }
    requires room { HasRoom (length interfaces.old) (interfaces_of reader.old interfaces.old) content.now }
    ensures { Keeps content.now reader.old reader.new interfaces.old interfaces.new }
{
    match content {
        UnitContent::FileHeader(header) => reader.put_header(header),
        UnitContent::Section(byte_order) => reader.put_section(*byte_order),
        UnitContent::Interface(interface) => {
            interfaces[reader.interface_count] = EtherInterface::of(interface);
            reader.interface_count += 1;
        }
        UnitContent::Packet(_) | UnitContent::Other => {}
    }
}

/// Writes the packet of a unit, if it has one.
fn put<'a>(packet: &mut EtherCaptured<'a>, content: UnitContent<'a>)
    ensures { PutsPacket (packet_in content.entry) packet.old packet.new }
{
    if let UnitContent::Packet(captured) = content {
        *packet = EtherCaptured::of(captured);
    }
}

/// The status for a unit that can't be read.
fn status_of(error: &CaptureError) -> u32
    ensures { result ≡ refusal_status (capture_refusal_view error.now) }
{
    match error {
        CaptureError::TooManyInterfaces => NO_ROOM,
        _ if error.required_len().is_some() => SHORT,
        _ => BAD_CAPTURE,
    }
}
