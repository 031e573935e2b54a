//! A view of a header of Linux cooked capture v2.
ghost use Rattle.std.specs.Prelude.{⊤, ◌≡◌, length, IfOk, IfErr, ◌==◌, slice_range};
ghost use Rattle.std.proofs.Common.{rules};
ghost use Rattle.std.specs.Cmp.Rules.{comparing};
ghost use Rattle.std.specs.Cmp.Lexicographic.{pointwise};
ghost use Rattle.ether_base.specs.Bytes.{spelled};
ghost use Rattle.ether_sll2.specs.LinuxSll2.{AcceptsLinuxSll2, BeginsLinuxSll2, linux_sll2_of, protocol_of_header};
ghost use Rattle.ether_sll2.specs.Views.{IsRefusedSll2, IsShort, linux_sll2_view, valid_address};

use crate::{LinuxSll2Error, LinuxSll2Header, linux_sll2_fields};
use ether_base::{ArpHardwareId, LinuxSllPacketType, LinuxSllProtocolType};
use std::alloc::AllocError;
use std::marker::Model;

/// A view of a header of Linux cooked capture v2 (LINKTYPE_LINUX_SLL2), which borrows its 20 bytes from a packet
/// ([`LinuxSll2Header`] has a picture of them). The packet type of a view is always a supported one.
///
/// Two views are equal if their bytes are equal, including the reserved ones, wherever they are in memory.
///
/// ```
/// let bytes = [
///     0x81, 0x00, 0x00, 0x00, 0x00, 0x00, 0x00, 0x03, 0x00, 0x01, 0x04, 0x06, // up to the address length
///     0x02, 0x00, 0x00, 0x00, 0x00, 0x01, 0x00, 0x00, // sender's address
///     0xB1, 0x23, 0x08, 0x00, // VLAN
///     0x45,
/// ];
/// let header = LinuxSll2HeaderSlice::from_slice(&bytes)?;
/// assert_eq!(rt; header.interface_index(), 3);
/// assert_eq!(rt; header.packet_type(), LinuxSllPacketType::OUTGOING);
/// assert_eq!(rt; header.sender_address(), [2, 0, 0, 0, 0, 1].as_slice());
/// assert_eq!(rt; header.slice(), &bytes[..20]);
/// ```
#[derive(Debug, Drop)]
pub struct LinuxSll2HeaderSlice<'a> {
    slice: &'a [u8],
}

impl<'a> Model for LinuxSll2HeaderSlice<'a> {
    ghost use Rattle.std.specs.Prelude.{ℕ, List, ◌≡◌, length};
    ghost use Rattle.ether_sll2.specs.Views.{HoldsLinuxSll2};

    ghost Value = { List ℕ };

    ghost view = { λ a. a.slice.now };

    ghost invariant = { λ a. (length a.slice.now ≡ 20) × HoldsLinuxSll2 a.slice.now };
}

impl<'a> LinuxSll2HeaderSlice<'a> {
    /// Borrows the header at the front of a slice. The bytes after it are not part of the view.
    ///
    /// # Errors
    ///
    /// The first of these that holds:
    ///
    /// - `LinuxSll2Error::Len`: the slice has fewer than 20 bytes. `required_len` is 20, `len` the slice's length.
    /// - `LinuxSll2Error::PacketType`: the packet type, which the error names, is above 7.
    ///
    /// No hardware type is refused.
    pub fn from_slice(slice: &'a [u8]) -> Result<LinuxSll2HeaderSlice<'a>, LinuxSll2Error>
        ensures bytes { IfOk result (λ h. h ≡ slice_range slice.now 0 20) }
        ensures accepted { IfOk result (λ h. AcceptsLinuxSll2 slice.now) }
        ensures value { IfOk result (λ h. BeginsLinuxSll2 slice.now (linux_sll2_of h)) }
        ensures refused { IfErr result (IsRefusedSll2 slice.now) }
        ensures short { IfErr result (IsShort slice.now) }
    {
        linux_sll2_fields::require_header(slice)?;
        Ok(LinuxSll2HeaderSlice {
            slice: &slice[..LinuxSll2Header::LEN],
        })
    }

    /// The 20 bytes of the header.
    pub fn slice(&self) -> &'a [u8]
        ensures bytes { result.now ≡ self.now }
        ensures len { length result.now ≡ 20 }
    {
        self.slice
    }

    /// The protocol of what follows the header. The hardware type decides which variant its number has.
    pub fn protocol_type(&self) -> LinuxSllProtocolType
        ensures { result ≡ protocol_of_header self.now }
    {
        linux_sll2_fields::protocol_type(self.slice)
    }

    /// The protocol number, without the variant that the hardware type gives it.
    pub fn protocol_number(&self) -> u16
        ensures { result ≡ (linux_sll2_of self.now).protocol }
    {
        linux_sll2_fields::protocol_number(self.slice)
    }

    /// The index of the interface that the packet was seen on, as the capturing machine numbers its interfaces.
    pub fn interface_index(&self) -> u32
        ensures { result ≡ (linux_sll2_of self.now).interface_index }
    {
        linux_sll2_fields::interface_index(self.slice)
    }

    /// The hardware type (ARPHRD_) of that interface.
    pub fn arp_hardware_type(&self) -> ArpHardwareId
        ensures { result.0 ≡ (linux_sll2_of self.now).hardware_type }
    {
        linux_sll2_fields::arp_hardware_type(self.slice)
    }

    /// The packet type: who sent the packet to whom.
    pub fn packet_type(&self) -> LinuxSllPacketType
        ensures { result ≡ (linux_sll2_of self.now).packet_type }
    {
        linux_sll2_fields::packet_type(self.slice)
    }

    /// The packet type as a number, 0 to 7.
    pub fn packet_type_number(&self) -> u8
        ensures { result ≡ (linux_sll2_of self.now).packet_type }
    {
        linux_sll2_fields::packet_type_number(self.slice)
    }

    /// The length of the sender's address in bytes. May exceed 8, though the field holds only 8 bytes.
    pub fn sender_address_valid_length(&self) -> u8
        ensures { result ≡ (linux_sll2_of self.now).address_len }
    {
        linux_sll2_fields::sender_address_valid_length(self.slice)
    }

    /// All 8 bytes of the address field: the sender's address, truncated or padded.
    pub fn sender_address_full(&self) -> [u8; 8]
        ensures { result ≡ spelled 8 (linux_sll2_of self.now).address }
    {
        linux_sll2_fields::sender_address_full(self.slice)
    }

    /// The sender's address, or its first 8 bytes if it is longer.
    pub fn sender_address(&self) -> &'a [u8]
        ensures { result.now ≡ valid_address self.now }
    {
        linux_sll2_fields::sender_address(self.slice)
    }

    /// The header as a value.
    pub fn to_header(&self) -> LinuxSll2Header
        ensures view { linux_sll2_view result ≡ linux_sll2_of self.now }
        ensures protocol { result.protocol_type ≡ protocol_of_header self.now }
    {
        linux_sll2_fields::header(self.slice)
    }
}

impl<'a> Clone for LinuxSll2HeaderSlice<'a> {
    ghost is_clone = { λ a b. b ≡ a };

    ghost is_infallible = { λ _. ⊤ };

    fn clone(&self) -> Result<Self, AllocError> {
        Ok(LinuxSll2HeaderSlice { slice: self.slice })
    }
}

impl<'a> PartialEq for LinuxSll2HeaderSlice<'a> {
    ghost eq = { pointwise ◌==◌ };

    ghost laws = { Prim.search (comparing, rules) };

    fn eq(&self, other: &LinuxSll2HeaderSlice<'a>) -> bool {
        self.slice == other.slice
    }
}

impl<'a> Eq for LinuxSll2HeaderSlice<'a> {
    ghost laws = { Prim.search (comparing, rules) };
}
