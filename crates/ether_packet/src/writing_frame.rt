//! Writes a whole frame from parts that were read.
ghost use Rattle.std.specs.Prelude.{◌≡◌, [], IfOk, IfErr, OnErr, length, ◌≤◌};
ghost use Rattle.ether_packet.specs.Builder.{content_headers, content_payload};
ghost use Rattle.ether_packet.specs.Parts.{arp_headers};
ghost use Rattle.ether_packet.specs.Frames.{frame_size, counted_size, IsFrameWritten, RefusesFrame, IsWholeFrame, IsChangedFrame};

use crate::packet_builder::write_at;
use crate::{PacketBuilder, PacketContent, PacketParts};
use etherparse::EtherType;
use etherparse::err::{Layer, SliceWriteSpaceError};

impl<'a> PacketParts<'a> {
    /// The length in bytes of the frame that [`write_frame`](Self::write_frame) writes: of the headers, the rest and
    /// the trailer. `usize::MAX` if the length does not fit in a `usize`.
    pub fn frame_len(&self) -> usize
        ensures { result ≡ counted_size self.now }
    {
        let headers = PacketBuilder {
            content: self.without_rest(),
            ..self.builder()
        };
        headers
            .size()
            .saturating_add(self.rest.len())
            .saturating_add(self.trailer.len())
    }

    /// Writes the whole frame to the front of a target: the headers as they are, then the rest, then the trailer.
    /// Returns the length of the frame. The bytes after it are unchanged.
    ///
    /// No header field is set by what follows it, and `ether_type` is not used. If headers were replaced by others
    /// that say the same about what follows them, as a tag with another VLAN ID does, the frame is read with the new
    /// headers, and the walk ends as before. A frame check sequence and an integrity check value are written as they
    /// were, and don't fit headers that were changed.
    ///
    /// # Errors
    ///
    /// The target is shorter than [`frame_len`](Self::frame_len). It is then unchanged.
    ///
    /// # Examples
    ///
    /// An ARP request with a VLAN tag, and 14 bytes of padding, which are kept when the VLAN ID is changed:
    ///
    /// ```
    /// let frame = [
    ///     0xFF, 0xFF, 0xFF, 0xFF, 0xFF, 0xFF, 0x02, 0x00, 0x00, 0x00, 0x00, 0x01, 0x81, 0x00, // Ethernet II
    ///     0x00, 0x64, 0x08, 0x06, // VLAN
    ///     0x00, 0x01, 0x08, 0x00, 0x06, 0x04, 0x00, 0x01, // ARP
    ///     0x02, 0x00, 0x00, 0x00, 0x00, 0x01, 0xC0, 0x00, 0x02, 0x01, // sender
    ///     0x00, 0x00, 0x00, 0x00, 0x00, 0x00, 0xC0, 0x00, 0x02, 0x02, // target
    ///     0x00, 0x00, 0x00, 0x00, 0x00, 0x00, 0x00, 0x00, 0x00, 0x00, 0x00, 0x00, 0x00, 0x00, // padding
    /// ];
    /// let Some(mut parts) = PacketSlice::from_slice(Start::Ethernet2, &frame).to_parts() else {
    ///     panic!(rt; "no link");
    /// };
    /// let tag = LinkExtHeader::Vlan(SingleVlanHeader::from_bytes([0x01, 0x23, 0x08, 0x06]));
    /// assert_eq!(rt; parts.set_link_ext(0, &tag), Ok(()));
    /// assert_eq!(rt; parts.frame_len(), 60);
    /// let mut target = [0xAA; 61];
    /// assert_eq!(rt; parts.write_frame(&mut target), Ok(60));
    /// assert_eq!(rt; target[..14], frame[..14]);
    /// assert_eq!(rt; target[14..18], [0x01, 0x23, 0x08, 0x06]);
    /// assert_eq!(rt; target[18..60], frame[18..]);
    /// assert_eq!(rt; target[60], 0xAA);
    /// ```
    pub fn write_frame(&self, target: &mut [u8]) -> Result<usize, SliceWriteSpaceError>
        ensures ok { IfOk result (λ end. IsFrameWritten self.now target.old end target.new) }
        ensures whole { IfOk result (λ end. IsWholeFrame self.now end target.new) }
        ensures changed { IfOk result (λ end. IsChangedFrame self.now end target.new) }
        ensures refused { IfErr result (RefusesFrame self.now target.old) }
        ensures kept { OnErr result (target.new ≡ target.old) }
    {
        let required_len = self.frame_len();
        let len = target.len();
        if len < required_len {
            return Err(SliceWriteSpaceError {
                required_len,
                len,
                layer: Layer::EtherPayload,
                layer_start_offset: 0,
            });
        }
        self.write_whole(target);
        Ok(required_len)
    }

    /// Writes the frame to a target that has room for it.
    fn write_whole(&self, target: &mut [u8])
        requires { frame_size self.now ≤ length target.old }
        ensures { IsFrameWritten self.now target.old (frame_size self.now) target.new }
    {
        let headers = PacketBuilder {
            content: self.without_rest(),
            ..self.builder()
        };
        headers.write_parts(target);
        let rest_at = headers.size();
        write_at(target, rest_at, self.rest);
        write_at(target, rest_at + self.rest.len(), self.trailer);
    }

    /// The ARP packet if there is one, else an empty payload.
    fn without_rest(&self) -> PacketContent<'_>
        ensures headers { content_headers result ≡ arp_headers self.now.arp }
        ensures payload { content_payload result ≡ [] }
    {
        match &self.arp {
            Some(packet) => PacketContent::Arp(packet),
            None => PacketContent::Payload(EtherType(0), &[]),
        }
    }
}
