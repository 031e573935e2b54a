//! The units of edited packets.
ghost use Rattle.std.specs.Prelude.{◌≡◌, ℕ, ◌+◌, ◌-◌, ◌≤◌, List, ◌++◌, length, slice_range, Some, IfSome};
ghost use Rattle.std.specs.Option.{option_map};
ghost use Rattle.ether_pcap.specs.Block.{IsTotalLen, max_block_len};
ghost use Rattle.ether_pcap.specs.Bodies.{EnhancedPacketValue, IsEnhancedPacket};
ghost use Rattle.ether_pcap.specs.Writing.{bytes_of};
ghost use Rattle.ether_pcap.specs.Capture.{PacketValue, CaptureInterfaceValue, Begins, Records, Blocks, EnhancedPacket as Enhanced};
ghost use Rattle.ether_pcap.specs.Editing.{unit_with, edited_block as block_with, unit_bytes, padding_of};
ghost use Rattle.ether_pcap.specs.Views.{order_of, file_header_view};

use crate::word_bytes::{four_words, len_word, padded_len, seven_words, word};
use crate::{ByteOrder, EditedUnit, FileHeader, PcapRecord, PcapngBlock};

/// The record with other captured bytes and another original length.
pub(crate) fn edited_record<'a>(
    header: &FileHeader,
    unit: &[u8],
    packet: &'a [u8],
    original_len: u32,
) -> Option<EditedUnit<'a>>
    requires { length packet.now ≤ 262144 }
    ensures padding { IfSome result (λ u. padding_of u ≤ 3) }
    ensures len { IfSome result (λ u. length (unit_bytes u) ≤ max_block_len) }
    ensures unit { (p : PacketValue)
        → Begins unit.now (Records (file_header_view header.now)) (length unit.now) (Some p)
        (Records (file_header_view header.now))
        → option_map unit_bytes result ≡ unit_with (Records (file_header_view header.now)) (length p.packet)
        (record { original_len = original_len; packet = packet.now }) unit.now }
{
    let order = header.byte_order;
    if unit.len() < PcapRecord::HEADER_LEN {
        return None;
    }
    Some(EditedUnit::Record {
        header: four_words(
            word_at(unit, 0),
            word_at(unit, 4),
            len_word(order, packet.len()),
            word(order, original_len),
        ),
        packet,
    })
}

/// The block with other captured bytes and another original length. `None` for a simple packet, and if the block would
/// be too long.
pub(crate) fn edited_block<'a>(
    order: ByteOrder,
    block: &'a [u8],
    packet: &'a [u8],
    original_len: u32,
) -> Option<EditedUnit<'a>>
    requires { length packet.now ≤ 262144 }
    ensures padding { IfSome result (λ u. padding_of u ≤ 3) }
    ensures len { IfSome result (λ u. length (unit_bytes u) ≤ max_block_len) }
    ensures unit { (most : ℕ) (interfaces : List CaptureInterfaceValue) (p : PacketValue)
        → Begins block.now (Blocks most (order_of order) interfaces) (length block.now) (Some p)
        (Blocks most (order_of order) interfaces)
        → option_map unit_bytes result ≡ unit_with (Blocks most (order_of order) interfaces) (length p.packet)
        (record { original_len = original_len; packet = packet.now }) block.now }
{
    if block.len() < PcapngBlock::MIN_LEN {
        return None;
    }
    match order.u32_at(block, 0) {
        PcapngBlock::ENHANCED_PACKET | PcapngBlock::PACKET => {
            edited_enhanced_packet(order, block, packet, original_len)
        }
        _ => None,
    }
}

/// Does as `edited_block`, for an enhanced packet block or an obsolete packet block.
fn edited_enhanced_packet<'a>(
    order: ByteOrder,
    block: &'a [u8],
    packet: &'a [u8],
    original_len: u32,
) -> Option<EditedUnit<'a>>
    requires { length packet.now ≤ 262144 }
    ensures padding { IfSome result (λ u. padding_of u ≤ 3) }
    ensures len { IfSome result (λ u. length (unit_bytes u) ≤ max_block_len) }
    ensures unit { (number_len : ℕ) (v : EnhancedPacketValue) → IsTotalLen (length block.now)
        → IsEnhancedPacket number_len (order_of order) (slice_range block.now 8 (length block.now - 4)) v
        → option_map unit_bytes result ≡ block_with (Enhanced number_len) (order_of order) (length v.packet)
        (record { original_len = original_len; packet = packet.now }) block.now }
{
    if block.len() < 32 || block.len() > PcapngBlock::MAX_LEN as usize {
        return None;
    }
    let captured_len = order.u32_at(block, 20);
    if captured_len > PcapRecord::MAX_CAPTURED_LEN {
        return None;
    }
    let options_at = 28 + padded_len(captured_len as usize);
    let end = block.len() - 4;
    if end < options_at {
        return None;
    }
    let options = &block[options_at..end];
    let padded = padded_len(packet.len());
    let total_len = 32 + padded + options.len();
    if total_len > PcapngBlock::MAX_LEN as usize {
        return None;
    }
    Some(EditedUnit::Block {
        header: block_header(order, block, total_len, packet.len(), original_len),
        packet,
        padding_len: padded - packet.len(),
        options,
        trailer: len_word(order, total_len),
    })
}

/// The bytes of the block before the captured bytes, with other lengths.
fn block_header(
    order: ByteOrder,
    block: &[u8],
    total_len: usize,
    captured_len: usize,
    original_len: u32,
) -> [u8; 28]
    requires { 20 ≤ length block.now }
    ensures { result ≡ slice_range block.now 0 4 ++ bytes_of (order_of order) 4 total_len
        ++ slice_range block.now 8 12 ++ slice_range block.now 12 16 ++ slice_range block.now 16 20
        ++ bytes_of (order_of order) 4 captured_len ++ bytes_of (order_of order) 4 original_len }
{
    seven_words(
        four_words(
            word_at(block, 0),
            len_word(order, total_len),
            word_at(block, 8),
            word_at(block, 12),
        ),
        word_at(block, 16),
        len_word(order, captured_len),
        word(order, original_len),
    )
}

/// The four bytes from the offset `at` on.
fn word_at(bytes: &[u8], at: usize) -> [u8; 4]
    requires { at + 4 ≤ length bytes.now }
    ensures { result ≡ slice_range bytes.now at (at + 4) }
{
    [bytes[at], bytes[at + 1], bytes[at + 2], bytes[at + 3]]
}
