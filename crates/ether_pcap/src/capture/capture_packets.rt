//! The packets of a capture file, one after the other.
ghost use Rattle.std.specs.Prelude.{◌≡◌, ◌↔◌, IsTrue};
ghost use Rattle.ether_pcap.specs.Capture.{IsEnd};
ghost use Rattle.ether_pcap.specs.CaptureReading.{start};

use crate::{
    CaptureFault, CaptureInterface, CaptureReader, CaptureUnit, CapturedPacket, InterfaceTable,
};
use arrayvec::ArrayVec;
use std::marker::Model;

/// Room for the interfaces of a section: 96 KiB.
type Interfaces = ArrayVec<CaptureInterface, MAX_INTERFACES>;

/// The most interfaces that a section may describe.
const MAX_INTERFACES: usize = 4_096;

/// The packets of a capture file of either format in memory, one after the other, and then the fault if there is one.
///
/// It has room for the 4,096 interfaces of a section, and takes 98,360 bytes: a [`CaptureReader`](crate::CaptureReader)
/// with a smaller table needs less.
///
/// ```
/// let file = [
///     0xA1, 0xB2, 0xC3, 0xD4, 0x00, 0x02, 0x00, 0x04, 0x00, 0x00, 0x00, 0x00, // file header
///     0x00, 0x00, 0x00, 0x00, 0x00, 0x00, 0xFF, 0xFF, 0x00, 0x00, 0x00, 0x01, //
///     0x00, 0x00, 0x00, 0x01, 0x00, 0x00, 0x00, 0x02, 0x00, 0x00, 0x00, 0x01, 0x00, 0x00, 0x00, 0x01, // record
///     0xFF,
/// ];
/// let mut packets = CapturePackets::from_slice(&file);
/// while let Some(Ok(packet)) = packets.next() {
///     assert_eq!(rt; packet.packet, [0xFF].as_slice());
/// }
/// assert_eq!(rt; packets.offset(), 41);
/// ```
#[derive(Drop)]
pub struct CapturePackets<'a> {
    reader: CaptureReader<Interfaces>,
    rest: &'a [u8],
    offset: usize,
    is_over: bool,
}

impl<'a> Model for CapturePackets<'a> {
    ghost use Rattle.std.specs.Prelude.{◌+◌, ◌^◌, ◌<◌, length};
    ghost use Rattle.ether_base.specs.Bytes.{IsBytes};
    ghost use Rattle.ether_pcap.specs.CaptureReading.{CaptureState};

    ghost Value = { CaptureState };

    ghost view = { λ a. record { expected = a.reader; rest = a.rest.now; offset = a.offset; over = a.is_over } };

    ghost invariant = { λ a. (a.offset + length a.rest.now < 2 ^ 64) × IsBytes a.rest.now };
}

impl<'a> CapturePackets<'a> {
    /// The most interfaces that a section may describe: 4,096.
    pub const MAX_INTERFACES: usize = MAX_INTERFACES;

    /// An iterator over the packets of a file, from the first one on.
    pub fn from_slice(slice: &'a [u8]) -> CapturePackets<'a>
        ensures { result ≡ start slice.now }
    {
        CapturePackets {
            reader: CaptureReader::new(ArrayVec::new()),
            rest: slice,
            offset: 0,
            is_over: false,
        }
    }

    /// The bytes that are left to read. After a fault they begin with the unit that can't be read.
    pub fn rest(&self) -> &'a [u8]
        ensures { result.now ≡ self.now.rest }
    {
        self.rest
    }

    /// The offset of [`rest`](Self::rest), from the start of the file.
    pub fn offset(&self) -> usize
        ensures { result ≡ self.now.offset }
    {
        self.offset
    }
}

impl<'a> Iterator for CapturePackets<'a> {
    type Item = Result<CapturedPacket<'a>, CaptureFault>;

    ghost use Rattle.ether_pcap.specs.CaptureReading.{CaptureGives, items_left};

    ghost next_gives = { CaptureGives };

    ghost remaining = { items_left };

    /// Returns the next packet, or the fault that ends the file. Returns `None` at the end of the file, and after the
    /// fault.
    fn next(&mut self) -> Option<Result<CapturedPacket<'a>, CaptureFault>> {
        if self.is_over {
            return None;
        }
        while !is_at_end(&self.reader, self.rest) {
            match self.reader.read(self.rest) {
                Ok(unit) => {
                    let CaptureUnit { len, packet } = unit;
                    self.rest = &self.rest[len..];
                    self.offset += len;
                    if let Some(packet) = packet {
                        return Some(Ok(packet));
                    }
                }
                Err(error) => {
                    self.is_over = true;
                    return Some(Err(CaptureFault {
                        offset: self.offset,
                        error,
                    }));
                }
            }
        }
        None
    }

    /// At most one packet for each byte left, and a fault.
    fn size_hint(&self) -> (usize, Option<usize>) {
        let most = if !self.is_over {
            self.rest.len() + 1
        } else {
            0
        };
        (0, Some(most))
    }
}

/// Tests that a file has begun, and that nothing of it is left.
fn is_at_end<T: InterfaceTable>(reader: &CaptureReader<T>, rest: &[u8]) -> bool
    ensures { IsTrue result ↔ IsEnd reader.now rest.now }
{
    rest.is_empty() && reader.has_begun()
}
