//! A view of a VLAN tag.
ghost use Rattle.std.specs.Prelude.{⊤, ◌≡◌, ◌≤◌, length, IfOk, IfErr, ◌==◌, slice_range, OnErr, ◌<◌};
ghost use Rattle.std.proofs.Common.{rules};
ghost use Rattle.std.specs.Cmp.Rules.{comparing};
ghost use Rattle.std.specs.Cmp.Lexicographic.{pointwise};
ghost use Rattle.ether_base.specs.declared.len_source.LenSource.TheVariants as sources;
ghost use Rattle.ether_base.specs.Formats.Vlan.{vlan_of};
ghost use Rattle.ether_base.specs.Formats.Header as headers;
ghost use Rattle.ether_base.specs.Formats.Header.{Means};
ghost use Rattle.ether_base.specs.Formats.Kind as kinds;
ghost use Rattle.ether_base.specs.Formats.Refusal.{Accepts};
ghost use Rattle.ether_base.specs.Formats.RefusedLen.{IsRefusedLen};
ghost use Rattle.ether_base.specs.Bytes.{bit};
ghost use Rattle.ether_tags.specs.Vlan.{vlan_view};

use crate::{SingleVlanHeader, vlan_fields};
use ether_base::err::{Layer, LenError};
use ether_base::slice_len::too_short;
use ether_base::{EtherType, LenSource, VlanId, VlanPcp};
use std::alloc::AllocError;
use std::marker::Model;

/// A view of a VLAN tag, which borrows the 4 bytes of its TCI and the next ether type from a packet
/// ([`SingleVlanHeader`] has a picture of them).
///
/// Two views are equal if their bytes are equal, wherever they are in memory.
///
/// ```
/// let tag = SingleVlanHeaderSlice::from_slice(&[0xB1, 0x23, 0x08, 0x00, 0x45])?;
/// assert_eq!(rt; tag.priority_code_point().value(), 5);
/// assert!(rt; tag.drop_eligible_indicator());
/// assert_eq!(rt; tag.vlan_identifier().value(), 0x123);
/// assert_eq!(rt; tag.ether_type(), EtherType::IPV4);
/// ```
#[derive(Debug, Drop)]
pub struct SingleVlanHeaderSlice<'a> {
    slice: &'a [u8],
}

impl<'a> Model for SingleVlanHeaderSlice<'a> {
    ghost use Rattle.std.specs.Prelude.{ℕ, List, ◌≡◌, length};

    ghost Value = { List ℕ };

    ghost view = { λ a. a.slice.now };

    ghost invariant = { λ a. length a.slice.now ≡ 4 };
}

impl<'a> SingleVlanHeaderSlice<'a> {
    /// Borrows the tag at the front of a slice. The bytes after it are not part of the view.
    ///
    /// # Errors
    ///
    /// The slice has fewer than 4 bytes: `required_len` is 4, `len` the slice's length, `len_source` is
    /// [`LenSource::Slice`], `layer` is [`Layer::VlanHeader`] and `layer_start_offset` is 0.
    pub fn from_slice(slice: &'a [u8]) -> Result<SingleVlanHeaderSlice<'a>, LenError>
        ensures bytes { IfOk result (λ h. h ≡ slice_range slice.now 0 4) }
        ensures accepted { IfOk result (λ h. Accepts sources.Slice slice.now kinds.Vlan) }
        ensures value { IfOk result (λ h. Means slice.now (headers.Vlan (vlan_of h))) }
        ensures refused { IfErr result (IsRefusedLen slice.now kinds.Vlan) }
        ensures short { OnErr result (length slice.now < 4) }
    {
        if slice.len() < SingleVlanHeader::LEN {
            return Err(too_short(
                SingleVlanHeader::LEN,
                slice.len(),
                LenSource::Slice,
                Layer::VlanHeader,
            ));
        }
        Ok(SingleVlanHeaderSlice {
            slice: &slice[..SingleVlanHeader::LEN],
        })
    }

    /// The 4 bytes of the tag.
    pub fn slice(&self) -> &'a [u8]
        ensures bytes { result.now ≡ self.now }
        ensures len { length result.now ≡ 4 }
    {
        // Its length is then a constant for the compiler.
        &self.slice[..SingleVlanHeader::LEN]
    }

    /// The priority code point (PCP).
    pub fn priority_code_point(&self) -> VlanPcp
        ensures { result ≡ (vlan_of self.now).pcp }
    {
        vlan_fields::priority_code_point(self.slice)
    }

    /// The drop eligible indicator (DEI): whether the frame may be dropped first under congestion.
    pub fn drop_eligible_indicator(&self) -> bool
        ensures { bit result ≡ (vlan_of self.now).dei }
    {
        vlan_fields::drop_eligible_indicator(self.slice)
    }

    /// The VLAN identifier (VID).
    pub fn vlan_identifier(&self) -> VlanId
        ensures { result ≡ (vlan_of self.now).vid }
    {
        vlan_fields::vlan_identifier(self.slice)
    }

    /// The next ether type, which names the protocol of what follows the tag.
    pub fn ether_type(&self) -> EtherType
        ensures { result.0 ≡ (vlan_of self.now).ether_type }
    {
        vlan_fields::ether_type(self.slice)
    }

    /// The tag as a value.
    pub fn to_header(&self) -> SingleVlanHeader
        ensures { vlan_view result ≡ vlan_of self.now }
    {
        vlan_fields::header(self.slice)
    }
}

impl<'a> Clone for SingleVlanHeaderSlice<'a> {
    ghost is_clone = { λ a b. b ≡ a };

    ghost is_infallible = { λ _. ⊤ };

    fn clone(&self) -> Result<Self, AllocError> {
        Ok(SingleVlanHeaderSlice { slice: self.slice })
    }
}

impl<'a> PartialEq for SingleVlanHeaderSlice<'a> {
    ghost eq = { pointwise ◌==◌ };

    ghost laws = { Prim.search (comparing, rules) };

    fn eq(&self, other: &SingleVlanHeaderSlice<'a>) -> bool {
        vlan_fields::tag(self.slice) == vlan_fields::tag(other.slice)
    }
}

impl<'a> Eq for SingleVlanHeaderSlice<'a> {
    ghost laws = { Prim.search (comparing, rules) };
}
