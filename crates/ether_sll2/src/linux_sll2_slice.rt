//! A view of a packet of Linux cooked capture v2.
ghost use Rattle.std.specs.Prelude.{⊤, ◌≡◌, length, IfOk, IfErr, ◌==◌, slice_range};
ghost use Rattle.std.proofs.Common.{rules};
ghost use Rattle.std.specs.Cmp.Rules.{comparing};
ghost use Rattle.std.specs.Cmp.Lexicographic.{pointwise};
ghost use Rattle.ether_base.specs.Bytes.{spelled};
ghost use Rattle.ether_sll2.specs.LinuxSll2.{AcceptsLinuxSll2, BeginsLinuxSll2, linux_sll2_of, protocol_of_header};
ghost use Rattle.ether_sll2.specs.Views.{IsRefusedSll2, IsShort, linux_sll2_view, start_in, valid_address};

use crate::{LinuxSll2Error, LinuxSll2Header, linux_sll2_fields};
use ether_base::{ArpHardwareId, EtherType, LinuxSllPacketType, LinuxSllProtocolType};
use ether_peel::Start;
use ether_tags::LinuxSllPayloadSlice;
use std::alloc::AllocError;
use std::fmt;
use std::marker::Model;

/// A view of a packet of Linux cooked capture v2 (LINKTYPE_LINUX_SLL2): a header ([`LinuxSll2Header`] has a picture of
/// it) and its payload, which `ether_peel` walks. The packet type of a view is always a supported one.
///
/// Two views are equal if their bytes are equal, including the reserved ones, wherever they are in memory.
///
/// ```
/// let bytes = [
///     0x81, 0x00, 0x00, 0x00, 0x00, 0x00, 0x00, 0x03, 0x00, 0x01, 0x04, 0x06, // up to the address length
///     0x02, 0x00, 0x00, 0x00, 0x00, 0x01, 0x00, 0x00, // sender's address
///     0xB1, 0x23, 0x08, 0x00, // VLAN
///     0x45,
/// ];
/// let packet = LinuxSll2Slice::from_slice(&bytes)?;
/// assert_eq!(rt; packet.interface_index(), 3);
/// assert_eq!(rt; packet.payload_slice(), &bytes[20..]);
/// if let Some(start) = packet.start() {
///     let mut peel = Peel::new(start, packet.payload_slice());
///     assert!(rt; matches!(peel.next(), Some(Ok(PeelUnit::Vlan(_)))));
/// }
/// ```
#[derive(Drop)]
pub struct LinuxSll2Slice<'a> {
    slice: &'a [u8],
}

impl<'a> Model for LinuxSll2Slice<'a> {
    ghost use Rattle.std.specs.Prelude.{ℕ, List};
    ghost use Rattle.ether_sll2.specs.Views.{HoldsLinuxSll2};

    ghost Value = { List ℕ };

    ghost view = { λ a. a.slice.now };

    ghost invariant = { λ a. HoldsLinuxSll2 a.slice.now };
}

impl<'a> LinuxSll2Slice<'a> {
    /// Borrows the packet in a slice. The payload reaches to the end of the slice.
    ///
    /// # Errors
    ///
    /// The first of these that holds:
    ///
    /// - `LinuxSll2Error::Len`: the slice has fewer than 20 bytes. `required_len` is 20, `len` the slice's length.
    /// - `LinuxSll2Error::PacketType`: the packet type, which the error names, is above 7.
    ///
    /// No hardware type is refused.
    pub fn from_slice(slice: &'a [u8]) -> Result<LinuxSll2Slice<'a>, LinuxSll2Error>
        ensures bytes { IfOk result (λ p. p ≡ slice.now) }
        ensures accepted { IfOk result (λ p. AcceptsLinuxSll2 slice.now) }
        ensures value { IfOk result (λ p. BeginsLinuxSll2 slice.now (linux_sll2_of p)) }
        ensures refused { IfErr result (IsRefusedSll2 slice.now) }
        ensures short { IfErr result (IsShort slice.now) }
    {
        linux_sll2_fields::require_header(slice)?;
        Ok(LinuxSll2Slice { slice })
    }

    /// All bytes of the packet.
    pub fn slice(&self) -> &'a [u8]
        ensures { result.now ≡ self.now }
    {
        self.slice
    }

    /// The protocol of the payload. The hardware type decides which variant its number has.
    #[inline(always)]
    pub fn protocol_type(&self) -> LinuxSllProtocolType
        ensures { result ≡ protocol_of_header self.now }
    {
        linux_sll2_fields::protocol_type(self.slice)
    }

    /// The protocol number, without the variant that the hardware type gives it.
    pub fn protocol_number(&self) -> u16
        ensures { result ≡ (linux_sll2_of self.now).protocol }
    {
        linux_sll2_fields::protocol_number(self.slice)
    }

    /// The index of the interface that the packet was seen on, as the capturing machine numbers its interfaces.
    pub fn interface_index(&self) -> u32
        ensures { result ≡ (linux_sll2_of self.now).interface_index }
    {
        linux_sll2_fields::interface_index(self.slice)
    }

    /// The hardware type (ARPHRD_) of that interface.
    pub fn arp_hardware_type(&self) -> ArpHardwareId
        ensures { result.0 ≡ (linux_sll2_of self.now).hardware_type }
    {
        linux_sll2_fields::arp_hardware_type(self.slice)
    }

    /// The packet type: who sent the packet to whom.
    #[inline(always)]
    pub fn packet_type(&self) -> LinuxSllPacketType
        ensures { result ≡ (linux_sll2_of self.now).packet_type }
    {
        linux_sll2_fields::packet_type(self.slice)
    }

    /// The packet type as a number, 0 to 7.
    pub fn packet_type_number(&self) -> u8
        ensures { result ≡ (linux_sll2_of self.now).packet_type }
    {
        linux_sll2_fields::packet_type_number(self.slice)
    }

    /// The length of the sender's address in bytes. May exceed 8, though the field holds only 8 bytes.
    pub fn sender_address_valid_length(&self) -> u8
        ensures { result ≡ (linux_sll2_of self.now).address_len }
    {
        linux_sll2_fields::sender_address_valid_length(self.slice)
    }

    /// All 8 bytes of the address field: the sender's address, truncated or padded.
    pub fn sender_address_full(&self) -> [u8; 8]
        ensures { result ≡ spelled 8 (linux_sll2_of self.now).address }
    {
        linux_sll2_fields::sender_address_full(self.slice)
    }

    /// The sender's address, or its first 8 bytes if it is longer.
    pub fn sender_address(&self) -> &'a [u8]
        ensures { result.now ≡ valid_address self.now }
    {
        linux_sll2_fields::sender_address(self.slice)
    }

    /// The 20 bytes of the header.
    pub fn header_slice(&self) -> &[u8]
        ensures bytes { result.now ≡ slice_range self.now 0 20 }
        ensures len { length result.now ≡ 20 }
    {
        &self.slice[..LinuxSll2Header::LEN]
    }

    /// The length of the header in bytes, which is [`LinuxSll2Header::LEN`].
    pub fn header_len(&self) -> usize
        ensures { result ≡ 20 }
    {
        LinuxSll2Header::LEN
    }

    /// The header as a value.
    pub fn to_header(&self) -> LinuxSll2Header
        ensures view { linux_sll2_view result ≡ linux_sll2_of self.now }
        ensures protocol { result.protocol_type ≡ protocol_of_header self.now }
    {
        linux_sll2_fields::header(self.slice)
    }

    /// The payload and its protocol.
    pub fn payload(&self) -> LinuxSllPayloadSlice<'a>
        ensures protocol { result.protocol_type ≡ protocol_of_header self.now }
        ensures bytes { result.payload.now ≡ slice_range self.now 20 (length self.now) }
    {
        LinuxSllPayloadSlice {
            protocol_type: self.protocol_type(),
            payload: self.payload_slice(),
        }
    }

    /// The bytes of the payload.
    pub fn payload_slice(&self) -> &'a [u8]
        ensures { result.now ≡ slice_range self.now 20 (length self.now) }
    {
        let slice = self.slice;
        &slice[LinuxSll2Header::LEN..]
    }

    /// What a walk through [`payload_slice`](Self::payload_slice) starts with, to be passed to `Peel::new` and the
    /// other calls that take a [`Start`]. `None` if the protocol is a netlink, GRE or ignored one.
    ///
    /// A number that Linux has below the ether types is used as an ether type, as after cooked capture v1, and
    /// announces nothing. Offsets of the walk count from the start of the payload.
    pub fn start(&self) -> Option<Start>
        ensures { result ≡ start_in self.now }
    {
        match self.protocol_type() {
            LinuxSllProtocolType::EtherType(ether_type) => Some(Start::EtherType(ether_type)),
            LinuxSllProtocolType::LinuxNonstandardEtherType(number) => {
                Some(Start::EtherType(EtherType(u16::from(number))))
            }
            _ => None,
        }
    }
}

impl<'a> Clone for LinuxSll2Slice<'a> {
    ghost is_clone = { λ a b. b ≡ a };

    ghost is_infallible = { λ _. ⊤ };

    fn clone(&self) -> Result<Self, AllocError> {
        Ok(LinuxSll2Slice { slice: self.slice })
    }
}

impl<'a> PartialEq for LinuxSll2Slice<'a> {
    ghost eq = { pointwise ◌==◌ };

    ghost laws = { Prim.search (comparing, rules) };

    fn eq(&self, other: &LinuxSll2Slice<'a>) -> bool {
        self.slice == other.slice
    }
}

impl<'a> Eq for LinuxSll2Slice<'a> {
    ghost laws = { Prim.search (comparing, rules) };
}

impl fmt::Debug for LinuxSll2Slice<'_> {
    fn fmt<W: fmt::Write>(&self, f: &mut fmt::Formatter<W>) -> fmt::Result {
        f.debug_struct("LinuxSll2Slice")
            .field("header", &self.to_header())
            .field("payload", &self.payload())
            .finish()
    }
}
