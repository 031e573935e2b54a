//! The options of a unit of a pcapng file.
ghost use Rattle.std.specs.Prelude.{◌≡◌, ℕ, ◌+◌, List, drop, MatchOption};
ghost use Rattle.ether_pcap.specs.Capture.{kind_of_block};
ghost use Rattle.ether_pcap.specs.Numbers.{field};
ghost use Rattle.ether_pcap.specs.OptionReading.{HasOptionBytes, options_in};
ghost use Rattle.ether_pcap.specs.Options.{padded};
ghost use Rattle.ether_pcap.specs.ReadUnits.{IsNotClassic};
ghost use Rattle.ether_pcap.specs.Section.{HasSectionType};
ghost use Rattle.ether_pcap.specs.Views.{order_of};
ghost use Rattle.ether_pcap.specs.declared.byte_order.ByteOrder.{ByteOrder};
ghost use Rattle.ether_pcap.specs.declared.capture.reader_state.ReaderState.{ReaderState};
ghost use Rattle.ether_pcap.specs.declared.capture.reader_state.ReaderState.TheVariants as states;

use crate::capture::reader_state::begins_section;
use crate::pcapng::pcapng_option::bytes_from;
use crate::word_bytes::padded_len;
use crate::{ByteOrder, PcapngBlock, PcapngOptions, ReaderState, SectionHeader};

impl ReaderState {
    /// The options of the unit at the front of a slice: of a section header, an interface description, an enhanced
    /// packet or an obsolete packet block. Simple packets have none, and those of other blocks are not read.
    ///
    /// The state may be that before the unit was read, or that after it. Returns `None` if the slice does not begin
    /// with a unit of a pcapng file that this state expects.
    ///
    /// ```
    /// let block = [
    ///     0x00, 0x00, 0x00, 0x01, 0x00, 0x00, 0x00, 0x20, // an interface description of 32 bytes
    ///     0x00, 0x01, 0x00, 0x00, 0x00, 0x04, 0x00, 0x00, // link type, snap length
    ///     0x00, 0x02, 0x00, 0x04, 0x65, 0x74, 0x68, 0x30, // if_name: eth0
    ///     0x00, 0x00, 0x00, 0x00, // the end of options
    ///     0x00, 0x00, 0x00, 0x20, //
    /// ];
    /// let state = ReaderState::Section(ByteOrder::BigEndian);
    /// let name = PcapngOption {
    ///     code: PcapngOption::INTERFACE_NAME,
    ///     value: b"eth0",
    /// };
    /// if let Some(mut options) = state.options(&block) {
    ///     assert_eq!(rt; options.next(), Some(name));
    ///     assert_eq!(rt; options.next(), None);
    /// }
    /// ```
    pub fn options<'a>(&self, unit: &'a [u8]) -> Option<PcapngOptions<'a>>
        ensures { MatchOption result
            ((order : ByteOrder) (options : List ℕ) → HasOptionBytes unit.now self.now order options → ⊥)
            (λ o. HasOptionBytes unit.now self.now o.byte_order o.rest) }
    {
        match self {
            ReaderState::Classic(_) => None,
            _ if begins_section(unit) => section_options(unit),
            ReaderState::Nothing => None,
            ReaderState::Section(byte_order) => block_options(*byte_order, unit),
        }
    }
}

/// The options of the section header at the front of a slice.
fn section_options(unit: &[u8]) -> Option<PcapngOptions<'_>>
    requires { HasSectionType unit.now }
    ensures { (state : ReaderState) → IsNotClassic state → MatchOption result
        ((order : ByteOrder) (options : List ℕ) → HasOptionBytes unit.now state order options → ⊥)
        (λ o. HasOptionBytes unit.now state o.byte_order o.rest) }
{
    match SectionHeader::from_slice(unit) {
        Ok(section) => Some(PcapngOptions::from_slice(
            section.byte_order,
            bytes_from(section.block.body, 16),
        )),
        Err(_) => None,
    }
}

/// The options of the block at the front of a slice that does not begin with a section header.
fn block_options(byte_order: ByteOrder, unit: &[u8]) -> Option<PcapngOptions<'_>>
    requires { HasSectionType unit.now → ⊥ }
    ensures { MatchOption result
        ((order : ByteOrder) (options : List ℕ) → HasOptionBytes unit.now (states.Section byte_order) order options → ⊥)
        (λ o. HasOptionBytes unit.now (states.Section byte_order) o.byte_order o.rest) }
{
    match PcapngBlock::from_slice(byte_order, unit) {
        Ok(block) => Some(PcapngOptions::from_slice(byte_order, options_of(byte_order, block))),
        Err(_) => None,
    }
}

/// The bytes of the options in the body of a block that is not a section header.
fn options_of(byte_order: ByteOrder, block: PcapngBlock<'_>) -> &[u8]
    ensures { result.now ≡ options_in (kind_of_block block.entry.block_type) (order_of byte_order) block.entry.body.now }
{
    let body = block.body;
    match block.block_type {
        PcapngBlock::INTERFACE_DESCRIPTION => bytes_from(body, 8),
        PcapngBlock::ENHANCED_PACKET | PcapngBlock::PACKET => packet_options(byte_order, body),
        _ => &[],
    }
}

/// The bytes after a packet and its padding; none if there are fewer.
fn packet_options(byte_order: ByteOrder, body: &[u8]) -> &[u8]
    ensures { result.now ≡ drop (20 + padded (field (order_of byte_order) body.now 12 16)) body.now }
{
    if body.len() < 20 {
        return &[];
    }
    let captured_len = byte_order.u32_at(body, 12);
    bytes_from(body, 20 + padded_len(captured_len as usize))
}
