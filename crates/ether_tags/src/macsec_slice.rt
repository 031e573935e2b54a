//! A view of a MACsec SecTag and its payload.
ghost use Rattle.std.specs.Prelude.{◌≡◌, ◌≤◌, ◌<◌, IfOk, IfErr, length};
ghost use Rattle.ether_base.specs.declared.header_slice_error.HeaderSliceError.TheVariants.{Len};
ghost use Rattle.ether_base.specs.declared.len_source.LenSource.TheVariants as sources;
ghost use Rattle.ether_base.specs.Formats.Macsec.{known_payload_len, sec_tag_front_in, sec_tag_of};
ghost use Rattle.ether_base.specs.Formats.Header as headers;
ghost use Rattle.ether_base.specs.Formats.Header.{Means};
ghost use Rattle.ether_base.specs.Formats.Kind as kinds;
ghost use Rattle.ether_base.specs.Formats.Refusal.{Accepts};
ghost use Rattle.ether_tags.specs.Macsec.{HoldsPayload, HoldsTyped, IsRefusedPacket, cut_payload, payload_end_after, payload_source, readable_payload, readable_type, tag_bytes, tag_front, tag_in, number_of};
ghost use Rattle.ether_base.specs.Formats.RefusedLen.{OnLen};

use crate::{EtherPayloadSlice, MacsecHeaderSlice, MacsecPayloadSlice, macsec_fields};
use ether_base::err::Layer;
use ether_base::err::macsec::HeaderSliceError;
use ether_base::slice_len::too_short;
use ether_base::{EtherType, LenSource};

/// A view of a MACsec SecTag and its payload.
///
/// Public fields are not checked against each other.
///
/// ```
/// let bytes = [0x00, 0x03, 0, 0, 0, 1, 0x08, 0x00, 0x45, 0xEE];
/// let packet = MacsecSlice::from_slice(&bytes)?;
/// let payload = EtherPayloadSlice {
///     ether_type: EtherType::IPV4,
///     len_source: LenSource::MacsecShortLength,
///     payload: &[0x45],
/// };
/// assert_eq!(rt; packet.header.packet_nr(), 1);
/// assert_eq!(rt; packet.ether_payload(), Some(payload));
/// ```
#[derive(Clone, PartialEq, Eq, Debug, Drop)]
pub struct MacsecSlice<'a> {
    /// The tag.
    pub header: MacsecHeaderSlice<'a>,
    /// The payload after the tag.
    pub payload: MacsecPayloadSlice<'a>,
}

impl<'a> MacsecSlice<'a> {
    /// Borrows the tag at the front of a slice, and its payload.
    ///
    /// If the short length names a length, the payload ends there, and the integrity check value (ICV) is not part of
    /// it. Otherwise the payload is the rest of the slice, with the ICV at its end.
    ///
    /// # Errors
    ///
    /// Those of [`MacsecHeaderSlice::from_slice`] are tested first. Otherwise the error is `HeaderSliceError::Len` if
    /// the short length names a payload that ends after the slice: `required_len` is the length of tag and payload,
    /// `len` the slice's length, `len_source` is [`LenSource::MacsecShortLength`], `layer` is [`Layer::MacsecPacket`]
    /// and `layer_start_offset` is 0.
    pub fn from_slice(slice: &'a [u8]) -> Result<MacsecSlice<'a>, HeaderSliceError>
        ensures header { IfOk result (λ m. tag_bytes m.header ≡ tag_in slice.now) }
        ensures payload { IfOk result
            (λ m. HoldsPayload m.payload (sec_tag_front_in slice.now) slice.now) }
        ensures accepted { IfOk result (λ m. Accepts sources.Slice slice.now kinds.Macsec) }
        ensures value { IfOk result
            (λ m. Means slice.now (headers.Macsec (sec_tag_of (tag_bytes m.header)))) }
        ensures refused { IfErr result (IsRefusedPacket slice.now) }
        ensures short { IfErr result (λ e. OnLen e (λ n. length slice.now < n.required_len)) }
    {
        let header = MacsecHeaderSlice::from_slice(slice)?;
        let start = header.header_len();
        let end = end_within(&header, slice.len())?;
        let payload = payload_of(
            header.next_ether_type(),
            source_of(&header),
            &slice[start..end],
        );
        Ok(MacsecSlice { header, payload })
    }

    /// The payload and its ether type; `None` if it is encrypted or changed.
    pub fn ether_payload(&self) -> Option<EtherPayloadSlice<'a>>
        ensures { result ≡ readable_payload self.now.payload }
    {
        match self.payload {
            MacsecPayloadSlice::Unmodified(payload) => Some(payload),
            MacsecPayloadSlice::Modified(_) => None,
        }
    }

    /// The ether type of the payload; `None` if the payload is encrypted or changed.
    pub fn next_ether_type(&self) -> Option<EtherType>
        ensures { number_of result
            ≡ readable_type (sec_tag_of (tag_bytes self.now.header)).payload_type }
    {
        self.header.next_ether_type()
    }
}

/// Returns where the payload after a tag ends, in bytes from the tag's start: after the length that the tag names, or
/// with the slice. It is an error if the slice ends before. E and C are not read, since the short length counts the
/// ether type.
fn end_within(header: &MacsecHeaderSlice<'_>, slice_len: usize) -> Result<usize, HeaderSliceError>
    ensures end { IfOk result (λ end. end ≡ payload_end_after (tag_front header.now) slice_len) }
    ensures within { IfOk result (λ end. end ≤ slice_len) }
    ensures refused { IfErr result
        (λ e. e ≡ cut_payload (payload_end_after (tag_front header.now) slice_len) slice_len) }
    ensures cut { IfErr result
        (λ _. slice_len < payload_end_after (tag_front header.now) slice_len) }
{
    let named = usize::from(header.short_len().value());
    if named == 0 {
        return Ok(slice_len);
    }
    let end = macsec_fields::tag_len(header.sci_present(), false) + named;
    if slice_len < end {
        return Err(HeaderSliceError::Len(too_short(
            end,
            slice_len,
            LenSource::MacsecShortLength,
            Layer::MacsecPacket,
        )));
    }
    Ok(end)
}

/// What gives the length of the payload after a tag: the short length if it names one, otherwise the slice.
fn source_of(header: &MacsecHeaderSlice<'_>) -> LenSource
    ensures { result ≡ payload_source (known_payload_len (tag_front header.now)) }
{
    match header.short_len().value() {
        0 => LenSource::Slice,
        _ => LenSource::MacsecShortLength,
    }
}

/// A payload, with its ether type if that can be read.
fn payload_of<'a>(
    ether_type: Option<EtherType>,
    len_source: LenSource,
    payload: &'a [u8],
) -> MacsecPayloadSlice<'a>
    ensures { HoldsTyped result (number_of ether_type) len_source payload.entry.now }
{
    match ether_type {
        Some(ether_type) => MacsecPayloadSlice::Unmodified(EtherPayloadSlice {
            ether_type,
            len_source,
            payload,
        }),
        None => MacsecPayloadSlice::Modified(payload),
    }
}
