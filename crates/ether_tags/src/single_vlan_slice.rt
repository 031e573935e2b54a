//! A view of a VLAN tag and its payload.
ghost use Rattle.std.specs.Prelude.{⊤, ◌≡◌, ◌↔◌, ◌≤◌, ◌<◌, length, IfOk, IfErr, ◌==◌, slice_range, OnErr};
ghost use Rattle.std.proofs.Common.{rules};
ghost use Rattle.std.specs.Cmp.Rules.{comparing};
ghost use Rattle.std.specs.Cmp.Lexicographic.{pointwise};
ghost use Rattle.ether_base.specs.declared.len_source.LenSource.TheVariants as sources;
ghost use Rattle.ether_base.specs.Formats.Vlan.{vlan_of};
ghost use Rattle.ether_base.specs.Formats.Header as headers;
ghost use Rattle.ether_base.specs.Formats.Header.{Means};
ghost use Rattle.ether_base.specs.Formats.Kind as kinds;
ghost use Rattle.ether_base.specs.Formats.Refusal.{Accepts};
ghost use Rattle.ether_base.specs.Formats.RefusedLen.{IsRefusedLen};
ghost use Rattle.ether_base.specs.Bytes.{bit};
ghost use Rattle.ether_tags.specs.Vlan.{vlan_view};

use crate::{EtherPayloadSlice, SingleVlanHeader, vlan_fields};
use ether_base::err::{Layer, LenError};
use ether_base::slice_len::too_short;
use ether_base::{EtherType, LenSource, VlanId, VlanPcp};
use std::alloc::AllocError;
use std::fmt;
use std::marker::Model;

/// A view of a VLAN tag and its payload, which borrows the bytes from the tag's TCI on
/// ([`SingleVlanHeader`] has a picture of them).
///
/// Two views are equal if their bytes are equal, wherever they are in memory.
///
/// ```
/// let tag = SingleVlanSlice::from_slice(&[0xB1, 0x23, 0x08, 0x00, 0x45])?;
/// assert_eq!(rt; tag.vlan_identifier().value(), 0x123);
/// assert_eq!(rt; tag.ether_type(), EtherType::IPV4);
/// assert_eq!(rt; tag.payload_slice(), [0x45].as_slice());
/// ```
#[derive(Drop)]
pub struct SingleVlanSlice<'a> {
    slice: &'a [u8],
}

impl<'a> Model for SingleVlanSlice<'a> {
    ghost use Rattle.std.specs.Prelude.{ℕ, List, ◌≤◌, length};

    ghost Value = { List ℕ };

    ghost view = { λ a. a.slice.now };

    ghost invariant = { λ a. 4 ≤ length a.slice.now };
}

impl<'a> SingleVlanSlice<'a> {
    /// Borrows the tag at the front of a slice, and its payload, which reaches to the end of the slice.
    ///
    /// # Errors
    ///
    /// The slice has fewer than 4 bytes: `required_len` is 4, `len` the slice's length, `len_source` is
    /// [`LenSource::Slice`], `layer` is [`Layer::VlanHeader`] and `layer_start_offset` is 0.
    pub fn from_slice(slice: &'a [u8]) -> Result<SingleVlanSlice<'a>, LenError>
        ensures bytes { IfOk result (λ v. v ≡ slice.now) }
        ensures accepted { IfOk result (λ v. Accepts sources.Slice slice.now kinds.Vlan) }
        ensures value { IfOk result (λ v. Means slice.now (headers.Vlan (vlan_of slice.now))) }
        ensures refused { IfErr result (IsRefusedLen slice.now kinds.Vlan) }
        ensures short { OnErr result (length slice.now < 4) }
    {
        if slice.len() < SingleVlanHeader::LEN {
            return Err(too_short(
                SingleVlanHeader::LEN,
                slice.len(),
                LenSource::Slice,
                Layer::VlanHeader,
            ));
        }
        Ok(SingleVlanSlice { slice })
    }

    /// All bytes of the tag and its payload.
    pub fn slice(&self) -> &'a [u8]
        ensures { result.now ≡ self.now }
    {
        self.slice
    }

    /// The 4 bytes of the tag.
    pub fn header_slice(&self) -> &[u8]
        ensures bytes { result.now ≡ slice_range self.now 0 4 }
        ensures len { length result.now ≡ 4 }
    {
        &self.slice[..SingleVlanHeader::LEN]
    }

    /// The priority code point (PCP).
    pub fn priority_code_point(&self) -> VlanPcp
        ensures { result ≡ (vlan_of self.now).pcp }
    {
        vlan_fields::priority_code_point(self.slice)
    }

    /// The drop eligible indicator (DEI): whether the frame may be dropped first under congestion.
    pub fn drop_eligible_indicator(&self) -> bool
        ensures { bit result ≡ (vlan_of self.now).dei }
    {
        vlan_fields::drop_eligible_indicator(self.slice)
    }

    /// The VLAN identifier (VID).
    pub fn vlan_identifier(&self) -> VlanId
        ensures { result ≡ (vlan_of self.now).vid }
    {
        vlan_fields::vlan_identifier(self.slice)
    }

    /// The next ether type, which names the protocol of the payload.
    pub fn ether_type(&self) -> EtherType
        ensures { result.0 ≡ (vlan_of self.now).ether_type }
    {
        vlan_fields::ether_type(self.slice)
    }

    /// The tag as a value.
    pub fn to_header(&self) -> SingleVlanHeader
        ensures { vlan_view result ≡ vlan_of self.now }
    {
        vlan_fields::header(self.slice)
    }

    /// The payload and its ether type. The payload ends with the slice, so its `len_source` is [`LenSource::Slice`].
    pub fn payload(&self) -> EtherPayloadSlice<'a>
        ensures ether_type { result.ether_type.0 ≡ (vlan_of self.now).ether_type }
        ensures len_source { result.len_source ≡ sources.Slice }
        ensures bytes { result.payload.now ≡ slice_range self.now 4 (length self.now) }
    {
        EtherPayloadSlice {
            ether_type: self.ether_type(),
            len_source: LenSource::Slice,
            payload: self.payload_slice(),
        }
    }

    /// The bytes of the payload.
    pub fn payload_slice(&self) -> &'a [u8]
        ensures { result.now ≡ slice_range self.now 4 (length self.now) }
    {
        let slice = self.slice;
        &slice[SingleVlanHeader::LEN..]
    }

    /// The length of the tag in bytes, which is [`SingleVlanHeader::LEN`].
    pub const fn header_len(&self) -> usize
        ensures { result ≡ 4 }
    {
        SingleVlanHeader::LEN
    }
}

impl<'a> Clone for SingleVlanSlice<'a> {
    ghost is_clone = { λ a b. b ≡ a };

    ghost is_infallible = { λ _. ⊤ };

    fn clone(&self) -> Result<Self, AllocError> {
        Ok(SingleVlanSlice { slice: self.slice })
    }
}

impl<'a> PartialEq for SingleVlanSlice<'a> {
    ghost eq = { pointwise ◌==◌ };

    ghost laws = { Prim.search (comparing, rules) };

    fn eq(&self, other: &SingleVlanSlice<'a>) -> bool {
        self.slice == other.slice
    }
}

impl<'a> Eq for SingleVlanSlice<'a> {
    ghost laws = { Prim.search (comparing, rules) };
}

impl fmt::Debug for SingleVlanSlice<'_> {
    fn fmt<W: fmt::Write>(&self, f: &mut fmt::Formatter<W>) -> fmt::Result {
        f.debug_struct("SingleVlanSlice")
            .field("header", &self.to_header())
            .field("payload", &self.payload())
            .finish()
    }
}
