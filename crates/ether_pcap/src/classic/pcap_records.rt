//! The records of a classic capture file, one after the other.
ghost use Rattle.std.specs.Prelude.{◌≡◌, IfOk, IfErr, drop, false};
ghost use Rattle.ether_pcap.specs.FileHeader.{IsFileHeader, RefusesFile};
ghost use Rattle.ether_pcap.specs.Views.{file_header_view, file_refusal_view};

use crate::{FileHeader, FileHeaderError, PcapRecord, RecordFault};
use std::marker::Model;

/// The records of a classic pcap file in memory, one after the other, and then the fault if there is one.
///
/// ```
/// let file = [
///     0xA1, 0xB2, 0xC3, 0xD4, 0x00, 0x02, 0x00, 0x04, 0x00, 0x00, 0x00, 0x00, // file header
///     0x00, 0x00, 0x00, 0x00, 0x00, 0x00, 0xFF, 0xFF, 0x00, 0x00, 0x00, 0x01, //
///     0x00, 0x00, 0x00, 0x01, 0x00, 0x00, 0x00, 0x02, 0x00, 0x00, 0x00, 0x01, 0x00, 0x00, 0x00, 0x01, // record
///     0xFF,
/// ];
/// let mut records = PcapRecords::from_slice(&file)?;
/// assert_eq!(rt; records.header().link_type, LinkType::ETHERNET);
/// while let Some(Ok(record)) = records.next() {
///     assert_eq!(rt; record.packet, [0xFF].as_slice());
/// }
/// assert_eq!(rt; records.offset(), 41);
/// ```
#[derive(Debug, Drop)]
pub struct PcapRecords<'a> {
    header: FileHeader,
    rest: &'a [u8],
    offset: usize,
    is_over: bool,
}

impl<'a> Model for PcapRecords<'a> {
    ghost use Rattle.std.specs.Prelude.{◌+◌, ◌^◌, ◌<◌, length};
    ghost use Rattle.ether_pcap.specs.RecordReading.{RecordState};

    ghost Value = { RecordState };

    ghost view = { λ a. record { header = a.header; rest = a.rest.now; offset = a.offset; over = a.is_over } };

    ghost invariant = { λ a. a.offset + length a.rest.now < 2 ^ 64 };
}

impl<'a> PcapRecords<'a> {
    /// Reads the file header, and returns an iterator over the records of the file.
    ///
    /// # Errors
    ///
    /// Those of [`FileHeader::from_slice`].
    pub fn from_slice(slice: &'a [u8]) -> Result<PcapRecords<'a>, FileHeaderError>
        ensures header { IfOk result (λ r. IsFileHeader slice.now (file_header_view r.header)) }
        ensures rest { IfOk result (λ r. r.rest ≡ drop 24 slice.now) }
        ensures offset { IfOk result (λ r. r.offset ≡ 24) }
        ensures over { IfOk result (λ r. r.over ≡ false) }
        ensures refused { IfErr result (λ e. RefusesFile slice.now (file_refusal_view e)) }
    {
        let header = FileHeader::from_slice(slice)?;
        Ok(PcapRecords {
            header,
            rest: &slice[FileHeader::LEN..],
            offset: FileHeader::LEN,
            is_over: false,
        })
    }

    /// The header of the file.
    pub fn header(&self) -> FileHeader
        ensures { result ≡ self.now.header }
    {
        self.header
    }

    /// The bytes that are left to read. After a fault they begin with the record that can't be read.
    pub fn rest(&self) -> &'a [u8]
        ensures { result.now ≡ self.now.rest }
    {
        self.rest
    }

    /// The offset of [`rest`](Self::rest), from the start of the file.
    pub fn offset(&self) -> usize
        ensures { result ≡ self.now.offset }
    {
        self.offset
    }
}

impl<'a> Iterator for PcapRecords<'a> {
    type Item = Result<PcapRecord<'a>, RecordFault>;

    ghost use Rattle.ether_pcap.specs.RecordReading.{RecordGives, items_left};

    ghost next_gives = { RecordGives };

    ghost remaining = { items_left };

    /// Returns the next record, or the fault that ends the file. Returns `None` at the end of the file, and after the
    /// fault.
    fn next(&mut self) -> Option<Result<PcapRecord<'a>, RecordFault>> {
        if self.is_over || self.rest.is_empty() {
            return None;
        }
        match PcapRecord::from_slice(&self.header, self.rest) {
            Ok(record) => {
                let len = record.record_len();
                self.rest = &self.rest[len..];
                self.offset += len;
                Some(Ok(record))
            }
            Err(error) => {
                self.is_over = true;
                Some(Err(RecordFault {
                    offset: self.offset,
                    error,
                }))
            }
        }
    }

    /// At most one record for each 16 bytes left, and a fault.
    fn size_hint(&self) -> (usize, Option<usize>) {
        let most = if !self.is_over {
            self.rest.len() / 16 + 1
        } else {
            0
        };
        (0, Some(most))
    }
}
