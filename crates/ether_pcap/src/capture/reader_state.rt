//! How far a capture file was read, and the unit after that.
ghost use Rattle.std.specs.Prelude.{ℕ, List, Some, IfOk, IfErr, IsTrue, ◌↔◌};
ghost use Rattle.ether_pcap.specs.Capture.{Begins, Records, RefusesCapture};
ghost use Rattle.ether_pcap.specs.Section.{HasSectionType};
ghost use Rattle.ether_pcap.specs.CaptureViews.{capture_refusal_view, captured_packet_view, expectation_of};
ghost use Rattle.ether_pcap.specs.Views.{file_header_view};
ghost use Rattle.ether_pcap.specs.ReadUnits.{IsNotClassic, ReadsUnit};
ghost use Rattle.ether_pcap.specs.declared.capture.capture_interface.CaptureInterface.{CaptureInterface};
ghost use Rattle.ether_pcap.specs.declared.capture.reader_state.ReaderState.{ReaderState};

use crate::capture::capture_blocks::read_block;
use crate::{
    ByteOrder, CaptureError, CapturedPacket, DescribedInterfaces, FileHeader, PcapRecord,
    PcapngBlock, ReadUnit, SectionHeader, Timestamp, UnitContent,
};

/// How far a capture file was read: what a [`CaptureReader`](crate::CaptureReader) keeps besides the interfaces.
///
/// A program that keeps both itself reads units by [`read`](Self::read).
#[derive(Clone, Copy, Debug)]
pub enum ReaderState {
    /// Nothing was read.
    Nothing,
    /// The header of a classic file was read.
    Classic(FileHeader),
    /// The header of a section of a pcapng file was read, which has this byte order.
    Section(ByteOrder),
}

impl ReaderState {
    /// Reads the unit at the front of a slice, where the section has described these interfaces so far. Bytes after
    /// the unit are ignored.
    ///
    /// The caller keeps what the unit says. A file header or a section header is the next state; after a section header
    /// the section has no interfaces yet; an interface follows those before it. If there is no room for an interface,
    /// the file can't be read on: that is [`CaptureError::TooManyInterfaces`], which this function does not return.
    /// [`CaptureReader::read`](crate::CaptureReader::read) does all this.
    ///
    /// # Errors
    ///
    /// If the slice ends within the unit, [`CaptureError::required_len`] is the minimum number of bytes that the unit
    /// needs, which is more than the slice has. With any other error the rest of the file can't be read.
    ///
    /// ```
    /// let file = [
    ///     0xA1, 0xB2, 0xC3, 0xD4, 0x00, 0x02, 0x00, 0x04, 0x00, 0x00, 0x00, 0x00, // file header
    ///     0x00, 0x00, 0x00, 0x00, 0x00, 0x00, 0xFF, 0xFF, 0x00, 0x00, 0x00, 0x01, //
    ///     0x00, 0x00, 0x00, 0x01, 0x00, 0x00, 0x00, 0x02, 0x00, 0x00, 0x00, 0x01, 0x00, 0x00, 0x00, 0x01, // record
    ///     0xFF,
    /// ];
    /// let interfaces = InterfaceSlice(&[]);
    /// let unit = ReaderState::Nothing.read(&interfaces, &file)?;
    /// assert_eq!(rt; unit.len, 24);
    /// if let UnitContent::FileHeader(header) = unit.content {
    ///     let record = ReaderState::Classic(header).read(&interfaces, &file[unit.len..])?;
    ///     assert_eq!(rt; record.len, 17);
    ///     assert_eq!(rt; matches!(record.content, UnitContent::Packet(_)), true);
    /// }
    /// ```
    #[inline(always)]
    pub fn read<'a, I: DescribedInterfaces>(
        &self,
        interfaces: &I,
        bytes: &'a [u8],
    ) -> Result<ReadUnit<'a>, CaptureError>
        ensures unit { IfOk result (ReadsUnit bytes.now self.now (I.items interfaces.now)) }
        ensures refused { IfErr result (λ e. (most : ℕ) → RefusesCapture bytes.now
            (expectation_of most self.now (I.items interfaces.now)) (capture_refusal_view e)) }
    {
        if let ReaderState::Classic(header) = self {
            let (len, packet) = read_record(header, bytes)?;
            let content = UnitContent::Packet(packet);
            return Ok(ReadUnit { len, content });
        }
        if begins_section(bytes) {
            return read_section(bytes);
        }
        if let ReaderState::Section(byte_order) = self {
            return read_block(*byte_order, interfaces, bytes);
        }
        match FileHeader::from_slice(bytes) {
            Ok(header) => Ok(ReadUnit {
                len: FileHeader::LEN,
                content: UnitContent::FileHeader(header),
            }),
            Err(error) => Err(CaptureError::File(error)),
        }
    }
}

/// Tests that a slice begins with the type of a section header.
pub(crate) fn begins_section(bytes: &[u8]) -> bool
    ensures { IsTrue result ↔ HasSectionType bytes.now }
{
    bytes.len() >= 4 && ByteOrder::BigEndian.u32_at(bytes, 0) == PcapngBlock::SECTION_HEADER
}

/// Reads the section header at the front of a slice.
fn read_section<'a>(bytes: &'a [u8]) -> Result<ReadUnit<'a>, CaptureError>
    requires { HasSectionType bytes.now }
    ensures unit { IfOk result (λ u. (state : ReaderState) (interfaces : List CaptureInterface)
        → IsNotClassic state → ReadsUnit bytes.now state interfaces u) }
    ensures refused { IfErr result (λ e. (most : ℕ) (state : ReaderState) (interfaces : List CaptureInterface)
        → IsNotClassic state → RefusesCapture bytes.now (expectation_of most state interfaces)
        (capture_refusal_view e)) }
{
    match SectionHeader::from_slice(bytes) {
        Ok(section) => Ok(ReadUnit {
            len: section.block.block_len(),
            content: UnitContent::Section(section.byte_order),
        }),
        Err(error) => Err(CaptureError::Section(error)),
    }
}

/// Reads the record at the front of a slice: its length and its packet.
#[inline(always)]
#[tactic(auto, using(crate::specs::Capture::file_record_refused))]
pub(crate) fn read_record<'a>(
    header: &FileHeader,
    bytes: &'a [u8],
) -> Result<(usize, CapturedPacket<'a>), CaptureError>
    ensures record { IfOk result (λ r. Begins bytes.now
        (Records (file_header_view header.now))
        r.0
        (Some (captured_packet_view r.1))
        (Records (file_header_view header.now))) }
    ensures refused { IfErr result (λ e. RefusesCapture bytes.now
        (Records (file_header_view header.now))
        (capture_refusal_view e)) }
{
    let record = match PcapRecord::from_slice(header, bytes) {
        Ok(record) => record,
        Err(error) => return Err(CaptureError::Record(error)),
    };
    let time = Timestamp::from_nanoseconds(record.nanoseconds(header.resolution));
    let packet = CapturedPacket {
        time: Some(time),
        interface: None,
        direction: None,
        comment: None,
        original_len: record.original_len,
        link_type: header.link_type,
        snap_len: header.snap_len,
        fcs_len: header.fcs_len,
        packet: record.packet,
    };
    Ok((record.record_len(), packet))
}
