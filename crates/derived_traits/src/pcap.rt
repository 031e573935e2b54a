//! What callers know of the derived traits and of the constants, for each type of `ether_pcap`. These functions are
//! proved and never run.
ghost use Rattle.std.specs.Prelude.{◌≡◌, ◌↔◌, IsTrue, [], ◌∷◌};
ghost use Rattle.std.specs.Option.{option_map};
ghost use Rattle.ether_pcap.specs.Views.{record_view};
ghost use Rattle.ether_pcap.specs.PcapngViews.{block_view, interface_view, enhanced_packet_view, simple_packet_view};
ghost use Rattle.ether_pcap.specs.CaptureViews.{captured_packet_view};

use ether_pcap::{
    BlockError, BodyError, ByteOrder, CaptureError, CaptureFault, CapturePackets, CaptureUnit,
    CapturedPacket, Direction, EnhancedPacket, FileHeader, FileHeaderError, InterfaceDescription,
    LinkType, PcapRecord, PcapngBlock, RecordError, RecordFault, SectionError, SectionHeader,
    SimplePacket, Timestamp, TimestampResolution,
};

/// A clone is `Ok` and equals its source.
pub fn clones()
    ensures file_header { let it = ⟦<FileHeader as Clone>⟧ in
        (a b : _) → it.is_infallible a × (it.is_clone a b → b ≡ a) }
    ensures pcap_record { let it = ⟦<PcapRecord<'static> as Clone>⟧ in
        (a b : _) → it.is_infallible a × (it.is_clone a b → b ≡ a) }
    ensures file_header_error { let it = ⟦<FileHeaderError as Clone>⟧ in
        (a b : _) → it.is_infallible a × (it.is_clone a b → b ≡ a) }
    ensures record_fault { let it = ⟦<RecordFault as Clone>⟧ in
        (a b : _) → it.is_infallible a × (it.is_clone a b → b ≡ a) }
    ensures record_error { let it = ⟦<RecordError as Clone>⟧ in
        (a b : _) → it.is_infallible a × (it.is_clone a b → b ≡ a) }
    ensures block_error { let it = ⟦<BlockError as Clone>⟧ in
        (a b : _) → it.is_infallible a × (it.is_clone a b → b ≡ a) }
    ensures body_error { let it = ⟦<BodyError as Clone>⟧ in
        (a b : _) → it.is_infallible a × (it.is_clone a b → b ≡ a) }
    ensures section_error { let it = ⟦<SectionError as Clone>⟧ in
        (a b : _) → it.is_infallible a × (it.is_clone a b → b ≡ a) }
    ensures capture_error { let it = ⟦<CaptureError as Clone>⟧ in
        (a b : _) → it.is_infallible a × (it.is_clone a b → b ≡ a) }
    ensures capture_fault { let it = ⟦<CaptureFault as Clone>⟧ in
        (a b : _) → it.is_infallible a × (it.is_clone a b → b ≡ a) }
    ensures pcapng_block { let it = ⟦<PcapngBlock<'static> as Clone>⟧ in
        (a b : _) → it.is_infallible a × (it.is_clone a b → b ≡ a) }
    ensures section_header { let it = ⟦<SectionHeader<'static> as Clone>⟧ in
        (a b : _) → it.is_infallible a × (it.is_clone a b → b ≡ a) }
    ensures interface_description { let it = ⟦<InterfaceDescription<'static> as Clone>⟧ in
        (a b : _) → it.is_infallible a × (it.is_clone a b → b ≡ a) }
    ensures enhanced_packet { let it = ⟦<EnhancedPacket<'static> as Clone>⟧ in
        (a b : _) → it.is_infallible a × (it.is_clone a b → b ≡ a) }
    ensures simple_packet { let it = ⟦<SimplePacket<'static> as Clone>⟧ in
        (a b : _) → it.is_infallible a × (it.is_clone a b → b ≡ a) }
    ensures direction { let it = ⟦<Direction as Clone>⟧ in
        (a b : _) → it.is_infallible a × (it.is_clone a b → b ≡ a) }
    ensures captured_packet { let it = ⟦<CapturedPacket<'static> as Clone>⟧ in
        (a b : _) → it.is_infallible a × (it.is_clone a b → b ≡ a) }
    ensures capture_unit { let it = ⟦<CaptureUnit<'static> as Clone>⟧ in
        (a b : _) → it.is_infallible a × (it.is_clone a b → b ≡ a) }
{}

/// `==` is equality.
pub fn equality()
    ensures byte_order { (a b : _) → IsTrue (⟦<ByteOrder as PartialEq>⟧.eq a b) ↔ (a ≡ b) }
    ensures timestamp_resolution { (a b : _) → IsTrue (⟦<TimestampResolution as PartialEq>⟧.eq a b) ↔ (a ≡ b) }
    ensures link_type { (a b : _) → IsTrue (⟦<LinkType as PartialEq>⟧.eq a b) ↔ (a ≡ b) }
    ensures direction { (a b : _) → IsTrue (⟦<Direction as PartialEq>⟧.eq a b) ↔ (a ≡ b) }
    ensures file_header { (a b : _) → IsTrue (⟦<FileHeader as PartialEq>⟧.eq a b) ↔ (a ≡ b) }
    ensures file_header_error { (a b : _) → IsTrue (⟦<FileHeaderError as PartialEq>⟧.eq a b) ↔ (a ≡ b) }
    ensures record_error { (a b : _) → IsTrue (⟦<RecordError as PartialEq>⟧.eq a b) ↔ (a ≡ b) }
    ensures record_fault { (a b : _) → IsTrue (⟦<RecordFault as PartialEq>⟧.eq a b) ↔ (a ≡ b) }
    ensures block_error { (a b : _) → IsTrue (⟦<BlockError as PartialEq>⟧.eq a b) ↔ (a ≡ b) }
    ensures body_error { (a b : _) → IsTrue (⟦<BodyError as PartialEq>⟧.eq a b) ↔ (a ≡ b) }
    ensures section_error { (a b : _) → IsTrue (⟦<SectionError as PartialEq>⟧.eq a b) ↔ (a ≡ b) }
    ensures pcap_record { (a b : _) → IsTrue (⟦<PcapRecord<'static> as PartialEq>⟧.eq a b)
        ↔ (record_view a ≡ record_view b) }
    ensures capture_error { (a b : _) → IsTrue (⟦<CaptureError as PartialEq>⟧.eq a b) ↔ (a ≡ b) }
    ensures capture_fault { (a b : _) → IsTrue (⟦<CaptureFault as PartialEq>⟧.eq a b) ↔ (a ≡ b) }
    ensures timestamp { (a b : _) → IsTrue (⟦<Timestamp as PartialEq>⟧.eq a b) ↔ (a ≡ b) }
    ensures pcapng_block { (a b : _) → IsTrue (⟦<PcapngBlock<'static> as PartialEq>⟧.eq a b)
        ↔ (block_view a ≡ block_view b) }
    ensures section_header { (a b : _) → IsTrue (⟦<SectionHeader<'static> as PartialEq>⟧.eq a b)
        ↔ ((a.byte_order ≡ b.byte_order) × (block_view a.block ≡ block_view b.block)) }
    ensures interface_description { (a b : _) → IsTrue (⟦<InterfaceDescription<'static> as PartialEq>⟧.eq a b)
        ↔ ((a.byte_order ≡ b.byte_order) × (interface_view a ≡ interface_view b)) }
    ensures enhanced_packet { (a b : _) → IsTrue (⟦<EnhancedPacket<'static> as PartialEq>⟧.eq a b)
        ↔ (enhanced_packet_view a ≡ enhanced_packet_view b) }
    ensures simple_packet { (a b : _) → IsTrue (⟦<SimplePacket<'static> as PartialEq>⟧.eq a b)
        ↔ (simple_packet_view a ≡ simple_packet_view b) }
    ensures captured_packet { (a b : _) → IsTrue (⟦<CapturedPacket<'static> as PartialEq>⟧.eq a b)
        ↔ (captured_packet_view a ≡ captured_packet_view b) }
    ensures capture_unit { (a b : _) → IsTrue (⟦<CaptureUnit<'static> as PartialEq>⟧.eq a b)
        ↔ ((a.len ≡ b.len) × (option_map captured_packet_view a.packet ≡ option_map captured_packet_view b.packet)) }
{}

pub fn link_type_of_ethernet() -> u16
    ensures { result ≡ 1 }
{
    LinkType::ETHERNET.0
}

pub fn link_type_of_cooked_capture() -> u16
    ensures { result ≡ 113 }
{
    LinkType::LINUX_SLL.0
}

pub fn greatest_captured_len() -> u32
    ensures { result ≡ 262144 }
{
    PcapRecord::MAX_CAPTURED_LEN
}

pub fn block_types() -> [u32; 4]
    ensures { result ≡ 0x0A0D0D0A ∷ 1 ∷ 3 ∷ 6 ∷ [] }
{
    [
        PcapngBlock::SECTION_HEADER,
        PcapngBlock::INTERFACE_DESCRIPTION,
        PcapngBlock::SIMPLE_PACKET,
        PcapngBlock::ENHANCED_PACKET,
    ]
}

pub fn greatest_number_of_interfaces() -> usize
    ensures { result ≡ 4096 }
{
    CapturePackets::MAX_INTERFACES
}
