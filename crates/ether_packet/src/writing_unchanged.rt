//! Writes packets with their headers as they are.
ghost use Rattle.std.specs.Prelude.{◌≡◌, ◌+◌, ◌≤◌, length, IfOk, IfErr, OnErr};
ghost use Rattle.etherparse.specs.Bytes.{overwritten};
ghost use Rattle.ether_packet.specs.Building.{AllFit};
ghost use Rattle.ether_packet.specs.Builder.{content_bytes, content_headers, content_len, packet_len, HasPacketType};
ghost use Rattle.ether_packet.specs.Unchanged.{IsWrittenUnchanged, RefusesUnchanged};

use crate::packet_builder::{write_arp, write_at, write_ext, write_link_header};
use crate::{PacketBuilder, PacketContent};
use etherparse::err::{Layer, SliceWriteSpaceError};

impl<'a, 'b> PacketBuilder<'a, 'b> {
    /// Writes the packet with its headers as they are to the front of a target, and returns its length. The bytes
    /// after it are unchanged.
    ///
    /// [`write`](Self::write) sets ether types and short lengths by what follows them; this call sets nothing. So the
    /// parts of a packet that was read give the front of its frame again, even if that is a cooked capture of another
    /// link than Ethernet. The caller has to make sure that the headers announce what follows them.
    ///
    /// A builder has nothing after its content. So these are not written: the integrity check value after the payload
    /// of a SecTag with a short length, the padding after an ARP packet, and a frame check sequence.
    /// [`PacketParts::write_frame`](crate::PacketParts::write_frame) keeps them all.
    ///
    /// # Errors
    ///
    /// The target is shorter than [`size`](Self::size). It is then unchanged.
    ///
    /// ```
    /// let tag = MacsecHeader {
    ///     ptype: MacsecPType::Unmodified(EtherType::IPV4),
    ///     endstation_id: false,
    ///     scb: false,
    ///     an: MacsecAn::ZERO,
    ///     short_len: MacsecShortLen::try_from_u8(3)?,
    ///     packet_nr: 1,
    ///     sci: None,
    /// };
    /// let packet = PacketBuilder {
    ///     link: LinkHeader::Ethernet2(Ethernet2Header {
    ///         ether_type: EtherType::MACSEC,
    ///         ..Ethernet2Header::default()
    ///     }),
    ///     link_exts: &[LinkExtHeader::Macsec(tag)],
    ///     content: PacketContent::Payload(EtherType::IPV4, &[0x45, 0xAA, 0xBB]),
    /// };
    /// let mut target = [0; 25];
    /// assert_eq!(rt; packet.write_unchanged(&mut target), Ok(25));
    /// assert_eq!(rt; target[12..], [0x88, 0xE5, 0x00, 0x03, 0, 0, 0, 1, 0x08, 0x00, 0x45, 0xAA, 0xBB]);
    /// ```
    pub fn write_unchanged(&self, target: &mut [u8]) -> Result<usize, SliceWriteSpaceError>
        ensures ok { IfOk result (λ end. IsWrittenUnchanged self.now target.old end target.new) }
        ensures refused { IfErr result (RefusesUnchanged self.now target.old) }
        ensures kept { OnErr result (target.new ≡ target.old) }
    {
        let required_len = self.size();
        let len = target.len();
        if len < required_len {
            return Err(SliceWriteSpaceError {
                required_len,
                len,
                layer: Layer::EtherPayload,
                layer_start_offset: 0,
            });
        }
        self.write_parts(target);
        Ok(required_len)
    }

    /// Writes the headers one after the other, and then the content.
    pub(crate) fn write_parts(&self, target: &mut [u8])
        requires { packet_len self.now ≤ length target.old }
        ensures written { IsWrittenUnchanged self.now target.old (packet_len self.now) target.new }
        ensures packet_type { HasPacketType self.now.link }
    {
        write_link_header(target, &self.link);
        let mut at = self.link.header_len();
        for ext in self.link_exts {
            write_ext(target, at, ext);
            at += ext.header_len();
        }
        write_content_at(target, at, &self.content);
    }
}

/// Writes an ARP packet or a payload from the offset `at` on.
fn write_content_at(target: &mut [u8], at: usize, content: &PacketContent<'_>)
    requires { at + content_len content.now ≤ length target.old }
    ensures bytes { target.new ≡ overwritten target.old at (content_bytes content.now) }
    ensures fits { AllFit (content_headers content.now) }
{
    match content {
        PacketContent::Payload(_, bytes) => write_at(target, at, bytes),
        PacketContent::Arp(packet) => {
            write_arp(target, at + packet.packet_len(), packet);
        }
    }
}
