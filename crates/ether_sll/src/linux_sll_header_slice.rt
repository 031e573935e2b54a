//! A view of a header of Linux cooked capture.
ghost use Rattle.std.specs.Prelude.{⊤, ◌≡◌, ◌≤◌, length, IfOk, IfErr, ◌==◌, slice_range, ◌<◌};
ghost use Rattle.std.proofs.Common.{rules};
ghost use Rattle.std.specs.Cmp.Rules.{comparing};
ghost use Rattle.std.specs.Cmp.Lexicographic.{pointwise};
ghost use Rattle.ether_base.specs.declared.len_source.LenSource.TheVariants as sources;
ghost use Rattle.ether_base.specs.Bytes.{spelled};
ghost use Rattle.ether_base.specs.Formats.LinuxSll.{linux_sll_of};
ghost use Rattle.ether_base.specs.Formats.Header as headers;
ghost use Rattle.ether_base.specs.Formats.Header.{Means};
ghost use Rattle.ether_base.specs.Formats.Kind as kinds;
ghost use Rattle.ether_base.specs.Formats.Refusal.{Accepts};
ghost use Rattle.ether_sll.specs.LinuxSll.{protocol_type_of_header, valid_address, IsRefusedSll, linux_sll_view};
ghost use Rattle.ether_base.specs.Formats.RefusedLen.{OnLen};

use crate::{LinuxSllHeader, linux_sll_fields};
use ether_base::err::linux_sll::HeaderSliceError;
use ether_base::{ArpHardwareId, LinuxSllPacketType, LinuxSllProtocolType};
use std::alloc::AllocError;
use std::marker::Model;

/// A view of a header of Linux cooked capture v1 (LINKTYPE_LINUX_SLL), which borrows its 16 bytes from a packet
/// ([`LinuxSllHeader`] has a picture of them). The packet type and the hardware type of a view are always supported
/// ones.
///
/// Two views are equal if their bytes are equal, wherever they are in memory.
///
/// ```
/// let bytes = [0, 4, 0, 1, 0, 6, 2, 0, 0, 0, 0, 1, 0, 0, 0x08, 0x00, 0x45];
/// let header = LinuxSllHeaderSlice::from_slice(&bytes)?;
/// assert_eq!(rt; header.packet_type(), LinuxSllPacketType::OUTGOING);
/// assert_eq!(rt; header.arp_hardware_type(), ArpHardwareId::ETHERNET);
/// assert_eq!(rt; header.sender_address(), [2, 0, 0, 0, 0, 1].as_slice());
/// assert_eq!(rt;
///     header.protocol_type(),
///     LinuxSllProtocolType::EtherType(EtherType::IPV4)
/// );
/// assert_eq!(rt; header.slice(), &bytes[..16]);
/// ```
#[derive(Debug, Drop)]
pub struct LinuxSllHeaderSlice<'a> {
    slice: &'a [u8],
}

impl<'a> Model for LinuxSllHeaderSlice<'a> {
    ghost use Rattle.std.specs.Prelude.{ℕ, List, ◌≡◌, length};
    ghost use Rattle.ether_sll.specs.LinuxSll.{HoldsLinuxSll};

    ghost Value = { List ℕ };

    ghost view = { λ a. a.slice.now };

    ghost invariant = { λ a. (length a.slice.now ≡ 16) × HoldsLinuxSll a.slice.now };
}

impl<'a> LinuxSllHeaderSlice<'a> {
    /// Borrows the header at the front of a slice. The bytes after it are not part of the view.
    ///
    /// # Errors
    ///
    /// The first of these that holds:
    ///
    /// - `HeaderSliceError::Len`: the slice has fewer than 16 bytes. `required_len` is 16, `len` the slice's length,
    ///   `len_source` is `LenSource::Slice`, `layer` is `Layer::LinuxSllHeader` and `layer_start_offset` is 0.
    /// - `HeaderSliceError::Content` with `HeaderError::UnsupportedPacketTypeField`: the packet type, which the error
    ///   names, is above 7.
    /// - `HeaderSliceError::Content` with `HeaderError::UnsupportedArpHardwareId`: the hardware type, which the error
    ///   names, is not one of `LinuxSllProtocolType::SUPPORTED_ARPHWD`.
    pub fn from_slice(slice: &'a [u8]) -> Result<LinuxSllHeaderSlice<'a>, HeaderSliceError>
        ensures bytes { IfOk result (λ h. h ≡ slice_range slice.now 0 16) }
        ensures accepted { IfOk result (λ h. Accepts sources.Slice slice.now kinds.LinuxSll) }
        ensures value { IfOk result (λ h. Means slice.now (headers.LinuxSll (linux_sll_of h))) }
        ensures refused { IfErr result (IsRefusedSll slice.now) }
        ensures short { IfErr result (λ e. OnLen e (λ _. length slice.now < 16)) }
    {
        linux_sll_fields::require_header(slice)?;
        Ok(LinuxSllHeaderSlice {
            slice: &slice[..LinuxSllHeader::LEN],
        })
    }

    /// The 16 bytes of the header.
    pub fn slice(&self) -> &'a [u8]
        ensures bytes { result.now ≡ self.now }
        ensures len { length result.now ≡ 16 }
    {
        self.slice
    }

    /// The packet type: who sent the packet to whom.
    pub fn packet_type(&self) -> LinuxSllPacketType
        ensures { result ≡ (linux_sll_of self.now).packet_type }
    {
        linux_sll_fields::packet_type(self.slice)
    }

    /// The packet type as a number, 0 to 7.
    pub fn packet_type_number(&self) -> u16
        ensures { result ≡ (linux_sll_of self.now).packet_type }
    {
        linux_sll_fields::packet_type_number(self.slice)
    }

    /// The hardware type (ARPHRD_) of the device that the packet was seen on.
    pub fn arp_hardware_type(&self) -> ArpHardwareId
        ensures { result.0 ≡ (linux_sll_of self.now).hardware_type }
    {
        linux_sll_fields::arp_hardware_type(self.slice)
    }

    /// The length of the sender's address in bytes. May exceed 8, though the field holds only 8 bytes.
    pub fn sender_address_valid_length(&self) -> u16
        ensures { result ≡ (linux_sll_of self.now).address_len }
    {
        linux_sll_fields::sender_address_valid_length(self.slice)
    }

    /// All 8 bytes of the address field: the sender's address, truncated or padded.
    pub fn sender_address_full(&self) -> [u8; 8]
        ensures { result ≡ spelled 8 (linux_sll_of self.now).address }
    {
        linux_sll_fields::sender_address_full(self.slice)
    }

    /// The sender's address, or its first 8 bytes if it is longer.
    pub fn sender_address(&self) -> &'a [u8]
        ensures { result.now ≡ valid_address self.now }
    {
        linux_sll_fields::sender_address(self.slice)
    }

    /// The protocol of what follows the header. The hardware type decides which variant its number has.
    pub fn protocol_type(&self) -> LinuxSllProtocolType
        ensures { result ≡ protocol_type_of_header self.now }
    {
        linux_sll_fields::protocol_type(self.slice)
    }

    /// The protocol number, without the variant that the hardware type gives it.
    pub fn protocol_number(&self) -> u16
        ensures { result ≡ (linux_sll_of self.now).protocol }
    {
        linux_sll_fields::protocol_number(self.slice)
    }

    /// The header as a value.
    pub fn to_header(&self) -> LinuxSllHeader
        ensures view { linux_sll_view result ≡ linux_sll_of self.now }
        ensures protocol { result.protocol_type ≡ protocol_type_of_header self.now }
    {
        linux_sll_fields::header(self.slice)
    }
}

impl<'a> Clone for LinuxSllHeaderSlice<'a> {
    ghost is_clone = { λ a b. b ≡ a };

    ghost is_infallible = { λ _. ⊤ };

    fn clone(&self) -> Result<Self, AllocError> {
        Ok(LinuxSllHeaderSlice { slice: self.slice })
    }
}

impl<'a> PartialEq for LinuxSllHeaderSlice<'a> {
    ghost eq = { pointwise ◌==◌ };

    ghost laws = { Prim.search (comparing, rules) };

    fn eq(&self, other: &LinuxSllHeaderSlice<'a>) -> bool {
        self.slice == other.slice
    }
}

impl<'a> Eq for LinuxSllHeaderSlice<'a> {
    ghost laws = { Prim.search (comparing, rules) };
}
