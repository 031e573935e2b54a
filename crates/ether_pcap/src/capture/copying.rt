//! Units of a copy that is another capture than the file.
ghost use Rattle.std.specs.Prelude.{◌≡◌, ◌+◌, ◌≤◌, length};
ghost use Rattle.ether_pcap.specs.Capture.{kind_of_block};
ghost use Rattle.ether_pcap.specs.CaptureViews.{captured_packet_view};
ghost use Rattle.ether_pcap.specs.CopiedUnits.{changed_block as block_in, copied_bytes, is_kept, no_section_len, raised_len as raised, with_bytes};
ghost use Rattle.ether_pcap.specs.Numbers.{field};
ghost use Rattle.ether_pcap.specs.Views.{file_header_view, order_of};
ghost use Rattle.ether_pcap.specs.Writing.{bytes_of};

use crate::pcapng::simple_packet::captured_len;
use crate::word_bytes::word;
use crate::{ByteOrder, CapturedPacket, CopiedUnit, FileHeader, PcapRecord, PcapngBlock};

/// The file header with its snap length raised.
pub(crate) fn changed_header<'a>(header: &FileHeader, raise: u32, unit: &'a [u8]) -> CopiedUnit<'a>
    ensures bytes { 24 ≤ length unit.now → copied_bytes result
        ≡ with_bytes 16 (bytes_of (file_header_view header.now).order 4 (raised raise header.now.snap_len)) unit.now }
    ensures len { length (copied_bytes result) ≤ length unit.now }
{
    if unit.len() < FileHeader::LEN {
        return CopiedUnit::Same(unit);
    }
    let snap_len = raised_len(raise, header.snap_len);
    with_snap_len(header.byte_order, 16, snap_len, unit)
}

/// The section header without a section length.
pub(crate) fn changed_section<'a>(unit: &'a [u8]) -> CopiedUnit<'a>
    ensures bytes { 24 ≤ length unit.now → copied_bytes result ≡ with_bytes 16 no_section_len unit.now }
    ensures len { length (copied_bytes result) ≤ length unit.now }
{
    if unit.len() < 24 {
        return CopiedUnit::Same(unit);
    }
    CopiedUnit::SectionLen {
        front: &unit[..16],
        rest: &unit[24..],
    }
}

/// What a copy has for a block that is neither a section header nor a packet.
pub(crate) fn changed_block<'a>(order: ByteOrder, raise: u32, block: &'a [u8]) -> CopiedUnit<'a>
    ensures bytes { 4 ≤ length block.now → (field (order_of order) block.now 0 4 ≡ 1 → 16 ≤ length block.now)
        → copied_bytes result ≡ block_in raise (order_of order) block.now }
    ensures len { length (copied_bytes result) ≤ length block.now }
{
    if block.len() < 4 {
        return CopiedUnit::Same(block);
    }
    match order.u32_at(block, 0) {
        PcapngBlock::INTERFACE_DESCRIPTION => changed_interface(order, raise, block),
        PcapngBlock::UNCOPIED_CUSTOM => CopiedUnit::LeftOut,
        _ => CopiedUnit::Same(block),
    }
}

/// The interface description with its snap length raised.
fn changed_interface<'a>(order: ByteOrder, raise: u32, block: &'a [u8]) -> CopiedUnit<'a>
    ensures bytes { 16 ≤ length block.now → copied_bytes result
        ≡ with_bytes 12 (bytes_of (order_of order) 4 (raised raise (field (order_of order) block.now 12 16))) block.now }
    ensures len { length (copied_bytes result) ≤ length block.now }
{
    if block.len() < 16 {
        return CopiedUnit::Same(block);
    }
    let snap_len = raised_len(raise, order.u32_at(block, 12));
    with_snap_len(order, 12, snap_len, block)
}

/// Tests that a packet's block still has that packet after snap lengths are raised.
pub(crate) fn keeps_block(
    order: ByteOrder,
    raise: u32,
    block: &[u8],
    packet: &CapturedPacket<'_>,
) -> bool
    ensures { 4 ≤ length block.now → result
        ≡ is_kept raise (kind_of_block (field (order_of order) block.now 0 4)) (captured_packet_view packet.now) }
{
    if block.len() < 4 || order.u32_at(block, 0) != PcapngBlock::SIMPLE_PACKET {
        return true;
    }
    let snap_len = raised_len(raise, packet.snap_len);
    captured_len(snap_len, packet.original_len) as usize == packet.packet.len()
}

/// The unit with another snap length at the offset `at`.
fn with_snap_len<'a>(order: ByteOrder, at: usize, snap_len: u32, unit: &'a [u8]) -> CopiedUnit<'a>
    requires { at + 4 ≤ length unit.now }
    ensures bytes { copied_bytes result ≡ with_bytes at (bytes_of (order_of order) 4 snap_len) unit.now }
    ensures len { length (copied_bytes result) ≤ length unit.now }
{
    CopiedUnit::SnapLen {
        front: &unit[..at],
        snap_len: word(order, snap_len),
        rest: &unit[at + 4..],
    }
}

/// Raises a snap length, to the most bytes that are captured of a packet. One that is not less, and 0 (no limit), are
/// unchanged: libpcap reads several interfaces only if their snap lengths are equal, and 0 as that number.
fn raised_len(raise: u32, snap_len: u32) -> u32
    ensures { result ≡ raised raise snap_len }
{
    if snap_len == 0 {
        return 0;
    }
    snap_len.max(
        snap_len
            .saturating_add(raise)
            .min(PcapRecord::MAX_CAPTURED_LEN),
    )
}
