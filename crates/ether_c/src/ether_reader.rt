//! How far a capture file was read, as a struct of C.
ghost use Rattle.std.specs.Prelude.{◌≡◌, Some};
ghost use Rattle.ether_c.specs.Reading.{c_reader, header_of, order_mark as mark_of_order, order_marked, resolution_mark as mark_of_resolution, resolution_marked, state_of};
ghost use Rattle.ether_pcap.specs.declared.capture.read_unit.UnitContent.TheVariants as contents;
ghost use Rattle.ether_pcap.specs.declared.capture.reader_state.ReaderState.TheVariants as states;

use crate::ether_interface::parts_of;
use ether_pcap::{ByteOrder, FileHeader, LinkType, ReaderState, TimestampResolution};

/// How far a capture file was read: `etherpeel_reader` in C.
///
/// Each bit pattern is a value, so that C may pass memory that it has not written to.
#[repr(C)]
#[derive(Clone, Copy)]
pub struct EtherReader {
    /// The number of interfaces that the section has described so far.
    pub interface_count: usize,
    /// The snap length of a classic file.
    pub snap_len: u32,
    /// What the packets of a classic file begin with: a `LINKTYPE_` number.
    pub link_type: u16,
    /// What was read last of these: 0 nothing, 1 the header of a classic file, 2 the header of a section.
    pub state: u8,
    /// The byte order of the file or the section: 0 if the most significant byte comes first.
    pub is_little_endian: u8,
    /// The unit of times in a classic file: 0 for microseconds, else nanoseconds.
    pub has_nanoseconds: u8,
    /// 1 if the header of a classic file gives the length of the frame check sequence, else 0.
    pub has_fcs_len: u8,
    /// That length in bytes; 0 if it is not given.
    pub fcs_len: u8,
}

// as c/etherpeel.h lays it out
const _: () = prove!(size_of::<EtherReader>() == 24);

impl EtherReader {
    /// What was read, if the state has one of the numbers.
    pub(crate) fn to_state(&self) -> Option<ReaderState>
        ensures { result ≡ state_of self.now }
    {
        match self.state {
            0 => Some(ReaderState::Nothing),
            1 => Some(ReaderState::Classic(self.to_header())),
            2 => Some(ReaderState::Section(byte_order(self.is_little_endian))),
            _ => None,
        }
    }

    /// The header of a classic file that was passed.
    fn to_header(&self) -> FileHeader
        ensures { result ≡ header_of self.now }
    {
        FileHeader {
            byte_order: byte_order(self.is_little_endian),
            resolution: resolution(self.has_nanoseconds),
            snap_len: self.snap_len,
            link_type: LinkType(self.link_type),
            fcs_len: (self.has_fcs_len != 0).then_some(self.fcs_len),
        }
    }

    /// The header of a classic file was read.
    pub(crate) fn put_header(&mut self, header: &FileHeader)
        ensures numbers { self.new ≡ c_reader self.old (contents.FileHeader header.now) }
        ensures state { state_of self.new ≡ Some (states.Classic header.now) }
    {
        let (has_fcs_len, fcs_len) = parts_of(header.fcs_len);
        *self = EtherReader {
            interface_count: self.interface_count,
            snap_len: header.snap_len,
            link_type: header.link_type.0,
            state: 1,
            is_little_endian: order_mark(header.byte_order),
            has_nanoseconds: resolution_mark(header.resolution),
            has_fcs_len,
            fcs_len,
        };
    }

    /// The header of a section was read, which has described no interface yet.
    pub(crate) fn put_section(&mut self, byte_order: ByteOrder)
        ensures numbers { self.new ≡ c_reader self.old (contents.Section byte_order) }
        ensures state { state_of self.new ≡ Some (states.Section byte_order) }
    {
        self.interface_count = 0;
        self.state = 2;
        self.is_little_endian = order_mark(byte_order);
    }
}

/// The byte order with this mark.
fn byte_order(is_little_endian: u8) -> ByteOrder
    ensures { result ≡ order_marked is_little_endian }
{
    if is_little_endian == 0 {
        ByteOrder::BigEndian
    } else {
        ByteOrder::LittleEndian
    }
}

/// The mark of a byte order.
fn order_mark(byte_order: ByteOrder) -> u8
    ensures mark { result ≡ mark_of_order byte_order }
    ensures read_back { order_marked result ≡ byte_order }
{
    match byte_order {
        ByteOrder::BigEndian => 0,
        ByteOrder::LittleEndian => 1,
    }
}

/// The unit of times with this mark.
fn resolution(has_nanoseconds: u8) -> TimestampResolution
    ensures { result ≡ resolution_marked has_nanoseconds }
{
    if has_nanoseconds == 0 {
        TimestampResolution::Microseconds
    } else {
        TimestampResolution::Nanoseconds
    }
}

/// The mark of a unit of times.
fn resolution_mark(resolution: TimestampResolution) -> u8
    ensures mark { result ≡ mark_of_resolution resolution }
    ensures read_back { resolution_marked result ≡ resolution }
{
    match resolution {
        TimestampResolution::Microseconds => 0,
        TimestampResolution::Nanoseconds => 1,
    }
}
