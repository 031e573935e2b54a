//! A view of an Ethernet II header.
ghost use Rattle.std.specs.Prelude.{⊤, ◌≡◌, ◌≤◌, length, IfOk, IfErr, ◌==◌, slice_range, OnErr, ◌<◌};
ghost use Rattle.std.proofs.Common.{rules};
ghost use Rattle.std.specs.Cmp.Rules.{comparing};
ghost use Rattle.std.specs.Cmp.Lexicographic.{pointwise};
ghost use Rattle.ether_base.specs.declared.len_source.LenSource.TheVariants as sources;
ghost use Rattle.ether_base.specs.Bytes.{spelled};
ghost use Rattle.ether_base.specs.Formats.Ethernet2.{ethernet2_of};
ghost use Rattle.ether_base.specs.Formats.Header as headers;
ghost use Rattle.ether_base.specs.Formats.Header.{Means};
ghost use Rattle.ether_base.specs.Formats.Kind as kinds;
ghost use Rattle.ether_base.specs.Formats.Refusal.{Accepts};
ghost use Rattle.ether_base.specs.Formats.RefusedLen.{IsRefusedLen};
ghost use Rattle.ether_tags.specs.Ethernet2.{ethernet2_header_of, ethernet2_view};

use crate::{Ethernet2Header, ethernet2_fields};
use ether_base::err::{Layer, LenError};
use ether_base::slice_len::too_short;
use ether_base::{EtherType, LenSource};
use std::alloc::AllocError;
use std::marker::Model;

/// A view of an Ethernet II header, which borrows its 14 bytes from a packet.
///
/// Two views are equal if their bytes are equal, wherever they are in memory.
///
/// ```
/// let bytes = [
///     255, 255, 255, 255, 255, 255, 2, 0, 0, 0, 0, 1, 0x08, 0x00, 0x45,
/// ];
/// let header = Ethernet2HeaderSlice::from_slice(&bytes)?;
/// assert_eq!(rt; header.destination(), [0xFF; 6]);
/// assert_eq!(rt; header.source(), [2, 0, 0, 0, 0, 1]);
/// assert_eq!(rt; header.ether_type(), EtherType::IPV4);
/// assert_eq!(rt; header.slice(), &bytes[..14]);
/// ```
#[derive(Debug, Drop)]
pub struct Ethernet2HeaderSlice<'a> {
    slice: &'a [u8],
}

impl<'a> Model for Ethernet2HeaderSlice<'a> {
    ghost use Rattle.std.specs.Prelude.{ℕ, List, ◌≡◌, length};

    ghost Value = { List ℕ };

    ghost view = { λ a. a.slice.now };

    ghost invariant = { λ a. length a.slice.now ≡ 14 };
}

impl<'a> Ethernet2HeaderSlice<'a> {
    /// Borrows the header at the front of a slice. The bytes after it are not part of the view.
    ///
    /// # Errors
    ///
    /// The slice has fewer than 14 bytes: `required_len` is 14, `len` the slice's length, `len_source` is
    /// [`LenSource::Slice`], `layer` is [`Layer::Ethernet2Header`] and `layer_start_offset` is 0.
    pub fn from_slice(slice: &'a [u8]) -> Result<Ethernet2HeaderSlice<'a>, LenError>
        ensures bytes { IfOk result (λ h. h ≡ slice_range slice.now 0 14) }
        ensures accepted { IfOk result (λ h. Accepts sources.Slice slice.now kinds.Ethernet2) }
        ensures value { IfOk result (λ h. Means slice.now (headers.Ethernet2 (ethernet2_of h))) }
        ensures refused { IfErr result (IsRefusedLen slice.now kinds.Ethernet2) }
        ensures short { OnErr result (length slice.now < 14) }
    {
        if slice.len() < Ethernet2Header::LEN {
            return Err(too_short(
                Ethernet2Header::LEN,
                slice.len(),
                LenSource::Slice,
                Layer::Ethernet2Header,
            ));
        }
        Ok(Ethernet2HeaderSlice {
            slice: &slice[..Ethernet2Header::LEN],
        })
    }

    /// The 14 bytes of the header.
    pub fn slice(&self) -> &'a [u8]
        ensures bytes { result.now ≡ self.now }
        ensures len { length result.now ≡ 14 }
    {
        // Its length is then a constant for the compiler.
        &self.slice[..Ethernet2Header::LEN]
    }

    /// The destination MAC address.
    pub fn destination(&self) -> [u8; 6]
        ensures { result ≡ spelled 6 (ethernet2_of self.now).destination }
    {
        ethernet2_fields::destination(self.slice)
    }

    /// The source MAC address.
    pub fn source(&self) -> [u8; 6]
        ensures { result ≡ spelled 6 (ethernet2_of self.now).source }
    {
        ethernet2_fields::source(self.slice)
    }

    /// The protocol of what follows the header, or its length if the number is at most 1500 (IEEE 802.3, 3.2.6).
    pub fn ether_type(&self) -> EtherType
        ensures { result.0 ≡ (ethernet2_of self.now).ether_type }
    {
        ethernet2_fields::ether_type(self.slice)
    }

    /// The header as a value.
    pub fn to_header(&self) -> Ethernet2Header
        ensures fields { result ≡ ethernet2_header_of self.now }
        ensures value { ethernet2_view result ≡ ethernet2_of self.now }
    {
        ethernet2_fields::header(self.slice)
    }
}

impl<'a> Clone for Ethernet2HeaderSlice<'a> {
    ghost is_clone = { λ a b. b ≡ a };

    ghost is_infallible = { λ _. ⊤ };

    fn clone(&self) -> Result<Self, AllocError> {
        Ok(Ethernet2HeaderSlice { slice: self.slice })
    }
}

impl<'a> PartialEq for Ethernet2HeaderSlice<'a> {
    ghost eq = { pointwise ◌==◌ };

    ghost laws = { Prim.search (comparing, rules) };

    fn eq(&self, other: &Ethernet2HeaderSlice<'a>) -> bool {
        ethernet2_fields::are_same(self.slice, other.slice)
    }
}

impl<'a> Eq for Ethernet2HeaderSlice<'a> {
    ghost laws = { Prim.search (comparing, rules) };
}
