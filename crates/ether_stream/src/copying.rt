//! Copies the units of a capture.
ghost use Rattle.std.specs.Prelude.{◌≡◌, ◌≤◌, IfSome, IfNone, IsTrue, IsFalse, length, Some, None, true};
ghost use Rattle.std.specs.Option.{option_map};
ghost use Rattle.ether_pcap.specs.CaptureViews.{captured_packet_view};
ghost use Rattle.ether_pcap.specs.CopiedUnits.{copy_mode_view, other_unit};
ghost use Rattle.ether_pcap.specs.Editing.{unit_bytes, padding_of};
ghost use Rattle.ether_content.specs.EditingViews.{edit_view, edited_view};
ghost use Rattle.ether_output.specs.OutputBuffer.{Takes};
ghost use Rattle.ether_stream.specs.Progress.{AppendsEdited, AppendsNone, IsUneditable, IsUnitOf, WritesPacket};

use crate::{EditBuffer, Grow};
use ether_content::{EditedPacket, PacketEdit};
use ether_output::{OutputBuffer, Sink};
use ether_pcap::{CaptureReader, CapturedPacket, CopiedUnit, CopyMode, EditedUnit, InterfaceTable};

/// Writes what a copy has of a unit without a packet: the unit, the unit with another snap length or an unspecified
/// section length, or nothing.
pub fn write_other<T: InterfaceTable, W: Sink>(
    reader: &CaptureReader<T>,
    mode: CopyMode,
    unit: &[u8],
    out: &mut OutputBuffer<'_, W>,
)
    requires { IsUnitOf reader.now unit.now None }
    ensures { Takes W.contents W.can_fail out.old (other_unit (copy_mode_view mode) reader.now unit.now) out.new }
{
    match reader.copy_unit(mode, unit) {
        CopiedUnit::Same(unit) => out.append(unit),
        CopiedUnit::LeftOut => {}
        CopiedUnit::SnapLen {
            front,
            snap_len,
            rest,
        } => {
            out.append(front);
            out.append(&snap_len);
            out.append(rest);
        }
        CopiedUnit::SectionLen { front, rest } => {
            out.append(front);
            out.append(&[0xFF; 8]);
            out.append(rest);
        }
    }
}

/// Writes the unit of a packet, edited if there is an edit for it. Returns `false` and writes nothing if it can't be
/// edited.
#[inline(never)]
pub fn write_packet<T: InterfaceTable, B: Grow, W: Sink>(
    reader: &CaptureReader<T>,
    mode: CopyMode,
    edit: Option<PacketEdit>,
    edits: &mut EditBuffer<B>,
    unit: &[u8],
    packet: &CapturedPacket<'_>,
    out: &mut OutputBuffer<'_, W>,
) -> bool
    requires { IsUnitOf reader.now unit.now (Some (captured_packet_view packet.now)) }
    ensures written { IsTrue result → WritesPacket (copy_mode_view mode) (option_map edit_view edit) reader.now unit.now
        (captured_packet_view packet.now) W.contents W.can_fail out.old out.new }
    ensures not_written { IsFalse result → IsUneditable (copy_mode_view mode) (option_map edit_view edit) reader.now
        unit.now
        (captured_packet_view packet.now) }
    ensures same_out { IsFalse result → out.new ≡ out.old }
{
    match edits.edit(edit, packet) {
        Some(edited) => write_edited(reader, edits, unit, &edited, out),
        None if !reader.copies_packet(mode, unit, packet) => false,
        None => {
            out.append(unit);
            true
        }
    }
}

/// Writes the unit of a packet as edited. Returns `false` and writes nothing if it can't be edited.
fn write_edited<T: InterfaceTable, B: Grow, W: Sink>(
    reader: &CaptureReader<T>,
    edits: &EditBuffer<B>,
    unit: &[u8],
    edited: &EditedPacket,
    out: &mut OutputBuffer<'_, W>,
) -> bool
    requires ordered { edited.now.start ≤ edited.now.end }
    requires within { edited.now.end ≤ length (B.items edits.now.memory) }
    ensures written { IsTrue result → AppendsEdited reader.now unit.now
        (edited_view (B.items edits.now.memory) edited.now) W.contents W.can_fail out.old out.new }
    ensures not_written { IsFalse result → AppendsNone reader.now unit.now
        (edited_view (B.items edits.now.memory) edited.now) }
    ensures same_out { IsFalse result → out.new ≡ out.old }
{
    let packet = edits.packet(edited);
    match reader.edit_unit(unit, packet, edited.original_len) {
        Some(unit) => {
            append_unit(&unit, out);
            true
        }
        None => false,
    }
}

/// Appends the parts of an edited unit, one after the other.
fn append_unit<W: Sink>(unit: &EditedUnit<'_>, out: &mut OutputBuffer<'_, W>)
    requires { padding_of unit.now ≤ 3 }
    ensures { Takes W.contents W.can_fail out.old (unit_bytes unit.now) out.new }
{
    match unit {
        EditedUnit::Record { header, packet } => {
            out.append(header);
            out.append(packet);
        }
        EditedUnit::Block {
            header,
            packet,
            padding_len,
            options,
            trailer,
        } => {
            out.append(header);
            out.append(packet);
            out.append(&[0, 0, 0][..*padding_len]);
            out.append(options);
            out.append(trailer);
        }
    }
}
