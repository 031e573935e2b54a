//! The headers of a packet, read by one call.
ghost use Rattle.std.specs.Prelude.{◌≡◌, ◌↔◌, ◌+◌, ◌≤◌, [], length, None, false, IsTrue, MatchOption, slice_get};
ghost use Rattle.etherparse.specs.Vlan.{vlan_view};
ghost use Rattle.ether_peel.specs.Grammar.Cuts.{reach};
ghost use Rattle.ether_peel.specs.Walker.Start.{kind_shown};
ghost use Rattle.ether_peel.specs.Walker.Limits.{IsFrontOfUnlimited};
ghost use Rattle.ether_packet.specs.Views.{link_of, exts_of, arp_view, arp_offset, ViewsExtIf, ViewsExts, ViewsSecTagIf};
ghost use Rattle.ether_packet.specs.Packet.{link_exts_cap, packet_start, packet_headers, IsPacket};
ghost use Rattle.ether_packet.specs.Getters.{first_tags, vlans_of, vlan_ids_of, sec_tags_of, last_ext, HoldsPayload, SnapsAt, TellsAccepted};
ghost use Rattle.ether_packet.specs.VlanIds.{IsOutermost};
ghost use Rattle.ether_packet.specs.Parts.{ArePartsOf};
ghost use Rattle.ether_packet.specs.ReplacingLink.{has_link};

use crate::packet_units::PacketUnits;
use crate::packet_walk::PacketWalk;
use crate::{PacketExt, PacketParts};
use arrayvec::ArrayVec;
use ether_peel::{Peel, PeelFault, RestKind, Start};
use etherparse::{
    ArpPacketSlice, DoubleVlanSlice, EtherPayloadSlice, EtherType, LinkSlice, MacsecSlice,
    SingleVlanHeader, VlanId, VlanSlice,
};

/// The most VLAN tags and SecTags that a packet holds.
const LINK_EXTS_CAP: usize = 3;

/// The link-layer headers of a frame, the bytes left after them, and the fault if a header is refused.
///
/// A packet keeps where its headers are, so a getter returns a view of the frame without another walk. After a fault
/// the packet still has the headers before it. At most [`LINK_EXTS_CAP`](Self::LINK_EXTS_CAP) VLAN tags and SecTags
/// are read; further tags are part of the rest.
///
/// ```
/// let frame = [
///     0xFF, 0xFF, 0xFF, 0xFF, 0xFF, 0xFF, 0x02, 0x00, 0x00, 0x00, 0x00, 0x01, 0x88, 0xA8, // Ethernet II
///     0x00, 0x0A, 0x81, 0x00, // VLAN
///     0x00, 0x64, 0x08, 0x00, // VLAN
///     0x45,
/// ];
/// let packet = PacketSlice::from_slice(Start::Ethernet2, &frame);
/// let ids = packet.vlan_ids();
/// assert_eq!(rt; ids.len(), 2);
/// assert_eq!(rt; ids[0].value(), 10);
/// assert_eq!(rt; ids[1].value(), 100);
/// assert!(rt; packet.is_complete());
/// assert_eq!(rt; packet.rest_kind, RestKind::EtherType(EtherType::IPV4));
/// assert_eq!(rt; packet.rest, [0x45].as_slice());
/// ```
#[derive(Debug, Drop)]
pub struct PacketSlice<'a> {
    read: PacketUnits<'a>,
    /// The bytes left to read in the last window: after a fault, in the window of the refused header.
    pub rest: &'a [u8],
    /// The offset of the rest in bytes from the start of the frame.
    pub rest_offset: usize,
    /// What the rest is announced as; after a fault, what was expected there.
    pub rest_kind: RestKind,
    /// Why the next header is refused, if it is.
    pub fault: Option<PeelFault>,
}

impl<'a> PacketSlice<'a> {
    /// The most VLAN tags and SecTags that a packet holds: 3.
    pub const LINK_EXTS_CAP: usize = LINK_EXTS_CAP;

    /// Reads the headers of a frame: those that [`Peel::with_limit`] returns with
    /// [`LINK_EXTS_CAP`](Self::LINK_EXTS_CAP) as its limit.
    ///
    /// A refused header is not an error of this call: the packet has the headers before it, and `fault` says why it is
    /// refused.
    #[inline(always)]
    pub fn from_slice(start: Start, bytes: &'a [u8]) -> PacketSlice<'a>
        ensures packet { IsPacket (packet_start start) bytes.now result }
        ensures front { IsFrontOfUnlimited start bytes.now link_exts_cap }
    {
        let mut walk = PacketWalk {
            peel: Peel::with_limit(start, bytes, LINK_EXTS_CAP),
            read: PacketUnits::new(bytes),
            fault: None,
        };
        walk.read_all();
        PacketSlice::ended(walk)
    }

    /// The packet of a walk that has ended.
    #[inline(always)]
    fn ended(walk: PacketWalk<'a>) -> PacketSlice<'a>
        ensures read { result.read ≡ walk.entry.read }
        ensures rest { result.rest.now ≡ walk.entry.peel.rest }
        ensures offset { result.rest_offset ≡ walk.entry.peel.offset }
        ensures kind { result.rest_kind ≡ kind_shown walk.entry.peel.expected }
        ensures fault { result.fault ≡ walk.entry.fault }
    {
        PacketSlice {
            rest: walk.peel.rest(),
            rest_offset: walk.peel.offset(),
            rest_kind: walk.peel.kind(),
            read: walk.read,
            fault: walk.fault,
        }
    }

    /// The first header of the frame, of Ethernet II or Linux cooked capture v1, with its payload.
    ///
    /// `None` if that header is refused, or if the frame begins after a link's header ([`Start::EtherType`]).
    #[inline(always)]
    pub fn link(&self) -> Option<LinkSlice<'a>>
        ensures { result ≡ link_of self.now.read.units }
    {
        self.read.link()
    }

    /// The number of VLAN tags and SecTags.
    #[inline(always)]
    pub fn link_ext_count(&self) -> usize
        ensures value { result ≡ length (exts_of self.now.read.units) }
        ensures most { result ≤ link_exts_cap }
    {
        self.read.ext_count()
    }

    /// The VLAN tag or SecTag at an index, counted from the outermost one; `None` if there is no tag at the index.
    #[inline(always)]
    pub fn link_ext(&self, index: usize) -> Option<PacketExt<'a>>
        ensures { ViewsExtIf (slice_get (exts_of self.now.read.units) index) result }
    {
        self.read.ext(index)
    }

    /// The VLAN tags and SecTags, outermost first.
    ///
    /// ```
    /// let tags = [
    ///     0x00, 0x0A, 0x81, 0x00, // VLAN
    ///     0x00, 0x64, 0x08, 0x00, // VLAN
    /// ];
    /// let packet = PacketSlice::from_slice(Start::EtherType(EtherType::PROVIDER_BRIDGING), &tags);
    /// let exts = packet.link_exts();
    /// assert_eq!(rt; exts.len(), 2);
    /// assert_eq!(rt; exts[1].offset, 4);
    /// ```
    pub fn link_exts(&self) -> ArrayVec<PacketExt<'a>, LINK_EXTS_CAP>
        ensures { ViewsExts (exts_of self.now.read.units) result.items }
    {
        let mut exts = ArrayVec::new();
        for index in 0..self.read.ext_count() {
            if let Some(ext) = self.read.ext(index) {
                exts.push(ext);
            }
        }
        exts
    }

    /// The ARP packet, without the bytes that follow it.
    #[inline(always)]
    pub fn arp(&self) -> Option<ArpPacketSlice<'a>>
        ensures { result ≡ arp_view self.now.read.units }
    {
        self.read.arp()
    }

    /// The offset of the ARP packet in bytes from the start of the frame.
    #[inline(always)]
    pub fn arp_offset(&self) -> Option<usize>
        ensures { result ≡ arp_offset self.now.read.units }
    {
        self.read.arp_offset()
    }

    /// The first VLAN tag with its payload, or the first two VLAN tags if there are several; `None` without a VLAN
    /// tag.
    ///
    /// SecTags are skipped.
    pub fn vlan(&self) -> Option<VlanSlice<'a>>
        ensures { result ≡ first_tags (vlans_of self.now.read.units) }
    {
        let mut first = None;
        for index in 0..self.read.ext_count() {
            if let Some(tag) = self.read.tag(index) {
                match first {
                    None => first = Some(tag),
                    Some(outer) => {
                        let inner = tag;
                        return Some(VlanSlice::DoubleVlan(DoubleVlanSlice { outer, inner }));
                    }
                }
            }
        }
        match first {
            Some(tag) => Some(VlanSlice::SingleVlan(tag)),
            None => None,
        }
    }

    /// The VLAN identifiers of the VLAN tags, outermost first.
    pub fn vlan_ids(&self) -> ArrayVec<VlanId, LINK_EXTS_CAP>
        ensures { result.items ≡ vlan_ids_of (packet_headers self.now) }
    {
        let mut ids = ArrayVec::new();
        for index in 0..self.read.ext_count() {
            if let Some(tag) = self.read.tag(index) {
                ids.push(tag.vlan_identifier());
            }
        }
        ids
    }

    /// The outermost VLAN tag, and its index among VLAN tags and SecTags, which
    /// [`replace_link_ext`](crate::replace_link_ext) takes; `None` without a VLAN tag.
    ///
    /// ```
    /// let tags = [
    ///     0x00, 0x0A, 0x81, 0x00, // VLAN
    ///     0x00, 0x64, 0x08, 0x00, // VLAN
    /// ];
    /// let packet = PacketSlice::from_slice(Start::EtherType(EtherType::PROVIDER_BRIDGING), &tags);
    /// match packet.outermost_vlan() {
    ///     Some((index, tag)) => {
    ///         assert_eq!(rt; index, 0);
    ///         assert_eq!(rt; tag.vlan_id.value(), 10);
    ///     }
    ///     None => panic!(rt; "no tag"),
    /// }
    /// ```
    pub fn outermost_vlan(&self) -> Option<(usize, SingleVlanHeader)>
        ensures { MatchOption result (vlan_ids_of (packet_headers self.now) ≡ [])
            (λ found. IsOutermost (packet_headers self.now) found.0 (vlan_view found.1)) }
    {
        for index in 0..self.read.ext_count() {
            if let Some(tag) = self.read.tag(index) {
                return Some((index, tag.to_header()));
            }
        }
        None
    }

    /// The first SecTag with its payload; `None` without a SecTag.
    pub fn macsec(&self) -> Option<MacsecSlice<'a>>
        ensures { ViewsSecTagIf (slice_get (sec_tags_of self.now.read.units) 0) result }
    {
        for index in 0..self.read.ext_count() {
            if let Some(packet) = self.read.sec_tag(index) {
                return Some(packet);
            }
        }
        None
    }

    /// The payload of the last VLAN tag or SecTag, or of the link's header if there is no tag, with its ether type.
    ///
    /// `None` if the payload has no ether type, as after a SecTag whose payload is encrypted or changed, or if no
    /// header precedes it. An ARP packet is part of the payload.
    pub fn ether_payload(&self) -> Option<EtherPayloadSlice<'a>>
        ensures { HoldsPayload (link_of self.now.read.units) (last_ext self.now.read.units) result }
    {
        match self.read.ext(self.read.ext_count().saturating_sub(1)) {
            Some(ext) => ext.slice.ether_payload(),
            None => match self.read.link() {
                Some(link) => link.ether_payload(),
                None => None,
            },
        }
    }

    /// The headers as values that can be changed and written, and the bytes after them.
    ///
    /// `None` if the header of the link is refused, or if the frame begins after it ([`Start::EtherType`]). After a
    /// fault the parts are the headers before it, and the bytes of the refused header's window.
    pub fn to_parts(&self) -> Option<PacketParts<'a>>
        ensures { MatchOption result (has_link (packet_headers self.now) ≡ false)
            (λ parts. ArePartsOf parts self.now) }
    {
        let ether_type = match self.rest_kind {
            RestKind::EtherType(ether_type) => ether_type,
            _ => EtherType(0),
        };
        let trailer = self.read.frame_after(self.rest_offset, self.rest.len());
        self.read.to_parts(ether_type, self.rest, trailer)
    }

    /// Whether no header is refused. The payload may still be cut short.
    pub fn is_complete(&self) -> bool
        ensures value { IsTrue result ↔ (self.now.fault ≡ None) }
        ensures accepted { TellsAccepted self.now result }
    {
        self.fault.is_none()
    }

    /// The least snap length that keeps all headers of the packet: a frame cut to at least this many bytes still has
    /// them, and a frame cut shorter lacks at least one.
    ///
    /// A packet has at most three tags. Of a frame with more tags, a fourth and what follows it are not counted, and
    /// may be lost in such a cut; [`min_snap_len`](crate::min_snap_len) counts them all.
    ///
    /// If a SecTag gives the length of its payload, that payload counts, because the tag is refused without it. A
    /// frame check sequence does not count: a cut frame has lost it, and is read as a frame without one.
    ///
    /// ```
    /// let frame = [
    ///     0xFF, 0xFF, 0xFF, 0xFF, 0xFF, 0xFF, 0x02, 0x00, 0x00, 0x00, 0x00, 0x01, 0x81, 0x00, // Ethernet II
    ///     0xB1, 0x23, 0x08, 0x00, // VLAN
    ///     0x45,
    /// ];
    /// assert_eq!(rt; PacketSlice::from_slice(Start::Ethernet2, &frame).min_snap_len(), 18);
    /// ```
    pub fn min_snap_len(&self) -> usize
        ensures value { result ≡ reach 0 (packet_headers self.now) }
        ensures least { SnapsAt self.now result }
    {
        self.read.min_snap_len()
    }
}
