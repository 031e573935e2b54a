//! A view of two VLAN tags and their payload.
ghost use Rattle.std.specs.Prelude.{◌≡◌, length, slice_range};
ghost use Rattle.ether_base.specs.declared.len_source.LenSource.TheVariants as sources;
ghost use Rattle.ether_base.specs.Formats.Vlan.{vlan_of};
ghost use Rattle.ether_tags.specs.Vlan.{vlan_view};

use crate::{DoubleVlanHeader, EtherPayloadSlice, SingleVlanSlice};
use std::fmt;

/// A view of two VLAN tags (QinQ) and their payload.
///
/// Public fields are not checked against each other: in a packet the inner view is the payload of the outer one.
///
/// ```
/// let bytes = [0x00, 0x0A, 0x81, 0x00, 0x00, 0x64, 0x08, 0x00, 0x45];
/// let outer = SingleVlanSlice::from_slice(&bytes)?;
/// let inner = SingleVlanSlice::from_slice(outer.payload_slice())?;
/// let tags = DoubleVlanSlice { outer, inner };
/// assert_eq!(rt; tags.outer.vlan_identifier().value(), 10);
/// assert_eq!(rt; tags.inner.vlan_identifier().value(), 100);
/// assert_eq!(rt; tags.payload_slice(), [0x45].as_slice());
/// ```
#[derive(Clone, PartialEq, Eq, Drop)]
pub struct DoubleVlanSlice<'a> {
    /// The tag that comes first, and its payload.
    pub outer: SingleVlanSlice<'a>,
    /// The tag after it, and its payload.
    pub inner: SingleVlanSlice<'a>,
}

impl<'a> DoubleVlanSlice<'a> {
    /// Both tags as a value.
    pub fn to_header(&self) -> DoubleVlanHeader
        ensures outer { vlan_view result.outer ≡ vlan_of self.now.outer }
        ensures inner { vlan_view result.inner ≡ vlan_of self.now.inner }
    {
        DoubleVlanHeader {
            outer: self.outer.to_header(),
            inner: self.inner.to_header(),
        }
    }

    /// The payload of the inner tag and its ether type. The payload ends with the inner view, so its `len_source` is
    /// `LenSource::Slice`.
    pub fn payload(&self) -> EtherPayloadSlice<'a>
        ensures ether_type { result.ether_type.0 ≡ (vlan_of self.now.inner).ether_type }
        ensures len_source { result.len_source ≡ sources.Slice }
        ensures bytes { result.payload.now ≡ slice_range self.now.inner 4 (length self.now.inner) }
    {
        self.inner.payload()
    }

    /// The bytes of the payload of the inner tag.
    pub fn payload_slice(&self) -> &'a [u8]
        ensures { result.now ≡ slice_range self.now.inner 4 (length self.now.inner) }
    {
        self.inner.payload_slice()
    }
}

impl fmt::Debug for DoubleVlanSlice<'_> {
    fn fmt<W: fmt::Write>(&self, f: &mut fmt::Formatter<W>) -> fmt::Result {
        f.debug_struct("DoubleVlanSlice")
            .field("outer", &self.outer.to_header())
            .field("inner", &self.inner.to_header())
            .field("payload", &self.payload())
            .finish()
    }
}
