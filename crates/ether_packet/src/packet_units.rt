//! The headers of a packet, kept as windows of the frame. A getter makes the view from its window.
ghost use Rattle.std.specs.Prelude.{◌≡◌, ◌+◌, ◌≤◌, ◌<◌, ℕ, List, [], ◌∷◌, map, unwrap_or, IfSome, MatchOption, Some, true, false, length, drop, slice_get, slice_range, None as NoPlace};
ghost use Rattle.std.specs.List.{All};
ghost use Rattle.std.specs.Option.{option_and_then};
ghost use Rattle.etherparse.specs.Kind as kinds;
ghost use Rattle.etherparse.specs.Header.{header_len, payload_len};
ghost use Rattle.etherparse.specs.LinkExt.{ext_header_view, ext_slice_header};
ghost use Rattle.ether_peel.specs.Grammar.Places.{place as place_after};
ghost use Rattle.ether_peel.specs.Grammar.Cuts.{reach};
ghost use Rattle.etherparse.specs.Macsec.{sec_tag_of as sec_tag_meant, tag_bytes};
ghost use Rattle.etherparse.specs.Arp.{arp_front_in, arp_len, arp_of};
ghost use Rattle.ether_packet.specs.PacketUnit.{PacketUnit};
ghost use Rattle.ether_packet.specs.Parts.{HaveHeaders, arp_headers};
ghost use Rattle.ether_packet.specs.Places.{Reads, arp_units, kind_read, ext_kind, ext_unit, link_units, headers_at, frame_link, HasPlace, HasPlaceForExt, IsReadable, IsReadableExt, IsReadableLink, read_with};
ghost use Rattle.ether_packet.specs.ReplacingLink.{IsLinkOf, has_link};
ghost use Rattle.ether_packet.specs.Views.{header_of, link_of, exts_of, arp_view, arp_offset, vlan_of_unit, macsec_of_unit, ViewsExtIf, ViewsExt, ViewsSecTag, ViewsSecTagIf};

use crate::ext_places::{ExtKind, ExtPlace, ExtPlaces, FrameWindow};
use crate::{PacketExt, PacketParts};
use ether_peel::PeelUnit;
use etherparse::{
    ArpPacket, ArpPacketSlice, EtherType, Ethernet2Header, Ethernet2Slice, LinkExtHeader,
    LinkExtSlice, LinkHeader, LinkSlice, LinuxSllHeader, LinuxSllSlice, MacsecSlice,
    SingleVlanHeader, SingleVlanSlice,
};
use std::marker::Model;

/// The kind of the link's header at the front of a frame, if there is one.
#[derive(Clone, Copy, Debug)]
enum LinkKind {
    Missing,
    Ethernet2,
    Ethernet2Fcs,
    LinuxSll,
}

/// The headers that were read from a frame, each with its window.
#[derive(Debug, Drop)]
pub(crate) struct PacketUnits<'a> {
    frame: &'a [u8],
    link: LinkKind,
    exts: ExtPlaces<'a>,
    arp: Option<FrameWindow<'a>>,
}

impl<'a> Model for PacketUnits<'a> {
    ghost use Rattle.ether_packet.specs.PacketUnit.{Read};
    ghost use Rattle.ether_packet.specs.Places.{units_at, AreReadable};

    ghost Value = { Read };

    ghost view = { λ a. record { frame = a.frame.now; units = units_at a.frame.now a.link a.exts a.arp } };

    ghost invariant = { λ a. AreReadable a.frame.now a.link a.exts a.arp };
}

impl<'a> PacketUnits<'a> {
    /// No headers.
    #[inline(always)]
    pub fn new(frame: &'a [u8]) -> PacketUnits<'a>
        ensures { result ≡ record { frame = frame.now; units = [] } }
    {
        PacketUnits {
            frame,
            link: LinkKind::Missing,
            exts: ExtPlaces::new(),
            arp: None,
        }
    }

    /// Appends a header that was read in a window.
    #[inline(always)]
    pub fn add(&mut self, unit: &PeelUnit<'a>, place: FrameWindow<'a>)
        requires fits { HasPlace self.old unit.now place }
        requires readable { IsReadable (kind_read unit.now) place }
        ensures { self.new ≡ read_with self.old (kind_read unit.now) place.entry }
    {
        match unit {
            PeelUnit::Ethernet2(slice) => self.link = frame_place(slice),
            PeelUnit::LinuxSll(_) => self.link = LinkKind::LinuxSll,
            PeelUnit::Vlan(_) => self.add_ext(ExtKind::Vlan, place),
            PeelUnit::Macsec(_) => self.add_ext(ExtKind::Macsec, place),
            PeelUnit::Arp(_) => self.arp = Some(place),
        }
    }

    /// Appends a VLAN tag or SecTag.
    #[inline(always)]
    fn add_ext(&mut self, kind: ExtKind, place: FrameWindow<'a>)
        requires fits { HasPlaceForExt self.old }
        requires readable { IsReadable (ext_kind kind) place }
        ensures { self.new ≡ read_with self.old (ext_kind kind) place.entry }
    {
        self.exts.push(ExtPlace { kind, place });
    }

    /// The link's header with its payload.
    #[inline(always)]
    pub fn link(&self) -> Option<LinkSlice<'a>>
        ensures { result ≡ link_of self.now.units }
    {
        match self.link {
            LinkKind::Missing => None,
            LinkKind::Ethernet2 => Some(LinkSlice::Ethernet2(frame_of(self.frame))),
            LinkKind::Ethernet2Fcs => Some(LinkSlice::Ethernet2(frame_with_fcs_of(self.frame))),
            LinkKind::LinuxSll => Some(LinkSlice::LinuxSll(linux_sll_slice(self.frame))),
        }
    }

    /// The number of VLAN tags and SecTags.
    #[inline(always)]
    pub fn ext_count(&self) -> usize
        ensures value { result ≡ length (exts_of self.now.units) }
        ensures most { result ≤ 3 }
    {
        self.exts.len()
    }

    /// The VLAN tag or SecTag at an index. One branch for each index takes fewer instructions than selecting the place
    /// first.
    #[inline(always)]
    pub fn ext(&self, index: usize) -> Option<PacketExt<'a>>
        ensures { ViewsExtIf (slice_get (exts_of self.now.units) index) result }
    {
        match index {
            0 => self.ext_at(0),
            1 => self.ext_at(1),
            2 => self.ext_at(2),
            _ => self.ext_at(index),
        }
    }

    /// Does as `ext`, by selecting the place first.
    #[inline(always)]
    fn ext_at(&self, index: usize) -> Option<PacketExt<'a>>
        ensures { ViewsExtIf (slice_get (exts_of self.now.units) index) result }
    {
        match self.exts.get(index) {
            Some(ext) => Some(ext_of(ext)),
            None => None,
        }
    }

    /// The VLAN tag or SecTag at an index, if it is a VLAN tag.
    #[inline(always)]
    pub fn tag(&self, index: usize) -> Option<SingleVlanSlice<'a>>
        ensures { result ≡ option_and_then vlan_of_unit (slice_get (exts_of self.now.units) index) }
    {
        match self.ext(index) {
            Some(
                PacketExt {
                    slice: LinkExtSlice::Vlan(tag),
                    ..
                },
            ) => Some(tag),
            _ => None,
        }
    }

    /// The VLAN tag or SecTag at an index, if it is a SecTag.
    #[inline(always)]
    pub fn sec_tag(&self, index: usize) -> Option<MacsecSlice<'a>>
        ensures { ViewsSecTagIf (option_and_then macsec_of_unit (slice_get (exts_of self.now.units) index))
            result }
    {
        match self.ext(index) {
            Some(
                PacketExt {
                    slice: LinkExtSlice::Macsec(packet),
                    ..
                },
            ) => Some(packet),
            _ => None,
        }
    }

    /// The ARP packet.
    #[inline(always)]
    pub fn arp(&self) -> Option<ArpPacketSlice<'a>>
        ensures { result ≡ arp_view self.now.units }
    {
        match self.arp {
            Some(place) => Some(arp_slice(place.bytes)),
            None => None,
        }
    }

    /// The offset of the ARP packet.
    #[inline(always)]
    pub fn arp_offset(&self) -> Option<usize>
        ensures { result ≡ arp_offset self.now.units }
    {
        match self.arp {
            Some(place) => Some(place.start),
            None => None,
        }
    }

    /// The bytes of the frame after the `len` bytes from the offset `at` on.
    pub fn frame_after(&self, at: usize, len: usize) -> &'a [u8]
        ensures { result.now ≡ drop (at + len) self.now.frame }
    {
        let frame = self.frame;
        let end = at.saturating_add(len).min(frame.len());
        &frame[end..]
    }

    /// The headers as values, with the rest after them, its ether type and the trailer; `None` if there is no link's
    /// header.
    pub fn to_parts(
        &self,
        ether_type: EtherType,
        rest: &'a [u8],
        trailer: &'a [u8],
    ) -> Option<PacketParts<'a>>
        ensures { MatchOption result (has_link (map header_of self.now.units) ≡ false)
            (λ p. HaveHeaders p (map header_of self.now.units) × (p.ether_type ≡ ether_type)
            × (p.rest.now ≡ rest.now) × (p.trailer.now ≡ trailer.now)) }
    {
        let link = link_header(self.link, self.frame)?;
        Some(PacketParts {
            link,
            tags: [self.ext_header(0), self.ext_header(1), self.ext_header(2)],
            tag_count: self.ext_count(),
            arp: arp_packet(self.arp),
            ether_type,
            rest,
            trailer,
        })
    }

    /// The VLAN tag or SecTag at an index as a value; any value if there is no tag at the index.
    fn ext_header(&self, index: usize) -> LinkExtHeader
        ensures { (u : PacketUnit) → slice_get (exts_of self.now.units) index ≡ Some u
            → ext_header_view result ≡ header_of u }
    {
        match self.ext(index) {
            Some(ext) => ext.slice.to_header(),
            None => LinkExtHeader::Vlan(SingleVlanHeader::default()),
        }
    }

    /// The offset at which the headers end, including payloads whose length a SecTag gives.
    pub fn min_snap_len(&self) -> usize
        ensures { result ≡ reach 0 (map header_of self.now.units) }
    {
        let (at, end) = tags_reach(self.link, &self.exts);
        match self.arp {
            Some(place) => {
                let packet = arp_slice(place.bytes);
                end.max(at + packet.slice().len())
            }
            None => end,
        }
    }
}

/// The header of a link as a value.
fn link_header(link: LinkKind, frame: &[u8]) -> Option<LinkHeader>
    requires { IsReadableLink frame.now link }
    ensures { MatchOption result (link_units frame.now link ≡ [])
        (λ g. (u : PacketUnit) × (link_units frame.now link ≡ u ∷ []) × IsLinkOf g (header_of u)) }
{
    match link {
        LinkKind::Missing => None,
        LinkKind::Ethernet2 => Some(LinkHeader::Ethernet2(frame_of(frame).to_header())),
        LinkKind::Ethernet2Fcs => Some(LinkHeader::Ethernet2(frame_with_fcs_of(frame).to_header())),
        LinkKind::LinuxSll => Some(LinkHeader::LinuxSll(linux_sll_slice(frame).to_header())),
    }
}

/// The ARP packet as a value.
fn arp_packet(arp: Option<FrameWindow<'_>>) -> Option<ArpPacket>
    requires { IfSome arp (IsReadable kinds.Arp) }
    ensures { arp_headers result ≡ map header_of (arp_units arp.entry) }
{
    match arp {
        Some(place) => Some(arp_slice(place.bytes).to_packet()),
        None => None,
    }
}

/// The offset at which the link's header and the tags end, and how far they reach with the payloads whose length a
/// SecTag gives.
fn tags_reach(link: LinkKind, exts: &ExtPlaces<'_>) -> (usize, usize)
    requires { All IsReadableExt exts.now }
    ensures place { (frame : List ℕ)
        → result.0 ≡ place_after 0 (headers_at frame link exts.now NoPlace) }
    ensures reach { (frame : List ℕ)
        → result.1 ≡ reach 0 (headers_at frame link exts.now NoPlace) }
    ensures bound { result.0 ≤ 64 }
{
    let mut at = link_len(link);
    let mut end = at;
    for index in 0..exts.len() {
        if let Some(ext) = exts.get(index) {
            let slice = ext_of(ext).slice;
            at += ext_len(&slice);
            end = end.max(at + named_len(&slice));
        }
    }
    (at, end)
}

/// The length in bytes of the link's header, 0 if there is none.
fn link_len(link: LinkKind) -> usize
    ensures place { (frame : List ℕ)
        → result ≡ place_after 0 (map header_of (link_units frame link)) }
    ensures reach { (frame : List ℕ) → result ≡ reach 0 (map header_of (link_units frame link)) }
    ensures bound { result ≤ 16 }
{
    match link {
        LinkKind::Missing => 0,
        LinkKind::Ethernet2 | LinkKind::Ethernet2Fcs => Ethernet2Header::LEN,
        LinkKind::LinuxSll => LinuxSllHeader::LEN,
    }
}

/// The length in bytes of a tag.
fn ext_len(ext: &LinkExtSlice<'_>) -> usize
    ensures value { result ≡ header_len (ext_slice_header ext.now) }
    ensures bound { result ≤ 16 }
{
    match ext {
        LinkExtSlice::Vlan(tag) => tag.header_len(),
        LinkExtSlice::Macsec(packet) => packet.header.header_len(),
    }
}

/// The length in bytes of the payload that a SecTag gives, 0 if it gives none.
fn named_len(ext: &LinkExtSlice<'_>) -> usize
    ensures value { result ≡ unwrap_or (payload_len (ext_slice_header ext.now)) 0 }
    ensures bound { result < 64 }
{
    match ext {
        LinkExtSlice::Vlan(_) => 0,
        LinkExtSlice::Macsec(packet) => packet.header.expected_payload_len().unwrap_or(0),
    }
}

/// The kind of an Ethernet II frame: with or without a frame check sequence.
#[inline(always)]
fn frame_place(slice: &Ethernet2Slice<'_>) -> LinkKind
    ensures { result ≡ frame_link slice.now.has_fcs }
{
    if slice.fcs().is_some() {
        LinkKind::Ethernet2Fcs
    } else {
        LinkKind::Ethernet2
    }
}

/// An Ethernet II frame that was read before.
#[inline(always)]
fn frame_of(bytes: &[u8]) -> Ethernet2Slice<'_>
    requires { Reads bytes.now kinds.Ethernet2 }
    ensures { result ≡ record { bytes = bytes.now; has_fcs = false } }
{
    match Ethernet2Slice::from_slice_without_fcs(bytes) {
        Ok(slice) => slice,
        Err(_) => unreachable!(),
    }
}

/// An Ethernet II frame with a frame check sequence that was read before.
#[inline(always)]
fn frame_with_fcs_of(bytes: &[u8]) -> Ethernet2Slice<'_>
    requires { Reads bytes.now kinds.Ethernet2Fcs }
    ensures { result ≡ record { bytes = bytes.now; has_fcs = true } }
{
    match Ethernet2Slice::from_slice_with_crc32_fcs(bytes) {
        Ok(slice) => slice,
        Err(_) => unreachable!(),
    }
}

/// A cooked capture that was read before.
#[inline(always)]
fn linux_sll_slice(bytes: &[u8]) -> LinuxSllSlice<'_>
    requires { Reads bytes.now kinds.LinuxSll }
    ensures { result ≡ bytes.now }
{
    match LinuxSllSlice::from_slice(bytes) {
        Ok(slice) => slice,
        Err(_) => unreachable!(),
    }
}

/// A VLAN tag or SecTag that was read before.
#[inline(always)]
fn ext_of<'a>(ext: ExtPlace<'a>) -> PacketExt<'a>
    requires { IsReadableExt ext }
    ensures { ViewsExt (ext_unit ext.entry) result }
{
    let bytes = ext.place.bytes;
    let slice = match ext.kind {
        ExtKind::Vlan => LinkExtSlice::Vlan(tag_of(bytes)),
        ExtKind::Macsec => LinkExtSlice::Macsec(sec_tag_of(bytes)),
    };
    PacketExt {
        offset: ext.place.start,
        slice,
    }
}

/// A VLAN tag that was read before.
#[inline(always)]
fn tag_of(bytes: &[u8]) -> SingleVlanSlice<'_>
    requires { Reads bytes.now kinds.Vlan }
    ensures { result ≡ bytes.now }
{
    match SingleVlanSlice::from_slice(bytes) {
        Ok(slice) => slice,
        Err(_) => unreachable!(),
    }
}

/// A SecTag that was read before.
#[inline(always)]
fn sec_tag_of(bytes: &[u8]) -> MacsecSlice<'_>
    requires { Reads bytes.now kinds.Macsec }
    ensures views { ViewsSecTag bytes.now result }
    ensures value { sec_tag_meant (tag_bytes result.header) ≡ sec_tag_meant bytes.now }
{
    match MacsecSlice::from_slice(bytes) {
        Ok(slice) => slice,
        Err(_) => unreachable!(),
    }
}

/// An ARP packet that was read before.
#[inline(always)]
fn arp_slice(bytes: &[u8]) -> ArpPacketSlice<'_>
    requires { Reads bytes.now kinds.Arp }
    ensures bytes { result ≡ slice_range bytes.now 0 (arp_len (arp_front_in bytes.now)) }
    ensures value { arp_of result ≡ arp_of bytes.now }
{
    match ArpPacketSlice::from_slice(bytes) {
        Ok(slice) => slice,
        Err(_) => unreachable!(),
    }
}
