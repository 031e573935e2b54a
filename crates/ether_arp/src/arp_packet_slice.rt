//! A view of an ARP packet.
ghost use Rattle.std.specs.Prelude.{⊤, ◌≡◌, length, slice_range, IfOk, IfErr, ◌==◌, ◌<◌};
ghost use Rattle.std.proofs.Common.{rules};
ghost use Rattle.std.specs.Cmp.Rules.{comparing};
ghost use Rattle.std.specs.Cmp.Lexicographic.{pointwise};
ghost use Rattle.ether_base.specs.declared.len_source.LenSource.TheVariants as sources;
ghost use Rattle.ether_base.specs.Formats.Arp.{arp_front_in, arp_len, arp_of};
ghost use Rattle.ether_base.specs.Formats.Header as headers;
ghost use Rattle.ether_base.specs.Formats.Header.{Means};
ghost use Rattle.ether_base.specs.Formats.Kind as kinds;
ghost use Rattle.ether_base.specs.Formats.Refusal.{Accepts};
ghost use Rattle.ether_base.specs.Formats.RefusedLen.{IsRefusedLen};

use crate::{ArpPacket, arp_fields};
use ether_base::err::LenError;
use ether_base::{ArpHardwareId, ArpOperation, EtherType};
use std::alloc::AllocError;
use std::marker::Model;

/// A view of an ARP packet (RFC 826), which borrows its 8 to 1028 bytes from a frame. What follows the packet, such as
/// the padding of a short frame, is not part of the view.
///
/// Two views are equal if their bytes are equal. A request, followed by padding:
///
/// ```
/// let payload = [
///     0, 1, 8, 0, 6, 4, // Ethernet and IPv4, whose addresses have 6 and 4 bytes
///     0, 1, // a request
///     2, 0, 0, 0, 0, 1, 10, 0, 0, 1, // the sender's addresses
///     0, 0, 0, 0, 0, 0, 10, 0, 0, 2, // the target's
///     0, 0, 0, 0, 0, 0, 0, 0, 0, 0, 0, 0, 0, 0, 0, 0, 0, 0, // padding
/// ];
/// let packet = ArpPacketSlice::from_slice(&payload)?;
/// assert_eq!(rt; packet.operation(), ArpOperation::REQUEST);
/// assert_eq!(rt; packet.target_protocol_addr(), [10, 0, 0, 2].as_slice());
/// assert_eq!(rt; packet.slice().len(), 28);
/// ```
#[derive(Debug, Drop)]
pub struct ArpPacketSlice<'a> {
    slice: &'a [u8],
}

impl<'a> Model for ArpPacketSlice<'a> {
    ghost use Rattle.std.specs.Prelude.{ℕ, List};
    ghost use Rattle.ether_arp.specs.Arp.{HoldsArp};

    ghost Value = { List ℕ };

    ghost view = { λ a. a.slice.now };

    ghost invariant = { λ a. HoldsArp a.slice.now };
}

impl<'a> ArpPacketSlice<'a> {
    /// Borrows the packet that a slice begins with. What follows the packet is not part of the view.
    ///
    /// # Errors
    ///
    /// The slice has fewer than 8 bytes: `required_len` is 8 and `len_source` is `LenSource::Slice`. Or it has fewer
    /// than the sizes of the addresses say: `required_len` is the length of the packet and `len_source` is
    /// `LenSource::ArpAddrLengths`. In both, `len` is the slice's length, `layer` is `Layer::Arp` and
    /// `layer_start_offset` is 0.
    pub fn from_slice(slice: &'a [u8]) -> Result<ArpPacketSlice<'a>, LenError>
        ensures bytes { IfOk result
            (λ p. p ≡ slice_range slice.now 0 (arp_len (arp_front_in slice.now))) }
        ensures accepted { IfOk result (λ p. Accepts sources.Slice slice.now kinds.Arp) }
        ensures value { IfOk result (λ p. Means slice.now (headers.Arp (arp_of p))) }
        ensures refused { IfErr result (IsRefusedLen slice.now kinds.Arp) }
        ensures short { IfErr result (λ e. length slice.now < e.required_len) }
    {
        Ok(ArpPacketSlice {
            slice: arp_fields::packet(slice)?,
        })
    }

    /// The bytes of the packet.
    pub fn slice(&self) -> &'a [u8]
        ensures bytes { result.now ≡ self.now }
        ensures len { length result.now ≡ arp_len (arp_front_in self.now) }
    {
        self.slice
    }

    /// The hardware type: what kind of link the hardware addresses belong to.
    pub fn hw_addr_type(&self) -> ArpHardwareId
        ensures { result.0 ≡ (arp_of self.now).hardware_type }
    {
        arp_fields::hw_addr_type(self.slice)
    }

    /// The protocol type: the protocol that the protocol addresses belong to, as an ether type.
    pub fn proto_addr_type(&self) -> EtherType
        ensures { result.0 ≡ (arp_of self.now).protocol_type }
    {
        arp_fields::proto_addr_type(self.slice)
    }

    /// The size of a hardware address in bytes.
    pub fn hw_addr_size(&self) -> u8
        ensures front { result ≡ (arp_front_in self.now).hardware_size }
        ensures sender { result ≡ length (arp_of self.now).sender_hardware }
        ensures target { result ≡ length (arp_of self.now).target_hardware }
    {
        arp_fields::hw_addr_size(self.slice)
    }

    /// The size of a protocol address in bytes.
    pub fn proto_addr_size(&self) -> u8
        ensures front { result ≡ (arp_front_in self.now).protocol_size }
        ensures sender { result ≡ length (arp_of self.now).sender_protocol }
        ensures target { result ≡ length (arp_of self.now).target_protocol }
    {
        arp_fields::proto_addr_size(self.slice)
    }

    /// The operation: a request, a reply or another.
    pub fn operation(&self) -> ArpOperation
        ensures { result.0 ≡ (arp_of self.now).operation }
    {
        arp_fields::operation(self.slice)
    }

    /// The hardware address of the sender.
    pub fn sender_hw_addr(&self) -> &[u8]
        ensures { result.now ≡ (arp_of self.now).sender_hardware }
    {
        arp_fields::sender_hw_addr(self.slice)
    }

    /// The protocol address of the sender.
    pub fn sender_protocol_addr(&self) -> &[u8]
        ensures { result.now ≡ (arp_of self.now).sender_protocol }
    {
        arp_fields::sender_protocol_addr(self.slice)
    }

    /// The hardware address of the target. In a request it is not known yet.
    pub fn target_hw_addr(&self) -> &[u8]
        ensures { result.now ≡ (arp_of self.now).target_hardware }
    {
        arp_fields::target_hw_addr(self.slice)
    }

    /// The protocol address of the target.
    pub fn target_protocol_addr(&self) -> &[u8]
        ensures { result.now ≡ (arp_of self.now).target_protocol }
    {
        arp_fields::target_protocol_addr(self.slice)
    }

    /// The packet as a value, which does not borrow the frame.
    pub fn to_packet(&self) -> ArpPacket
        ensures { result ≡ arp_of self.now }
    {
        let bytes = self.slice;
        ArpPacket::holding(
            arp_fields::hw_addr_type(bytes),
            arp_fields::proto_addr_type(bytes),
            arp_fields::operation(bytes),
            arp_fields::sender_hw_addr(bytes),
            arp_fields::sender_protocol_addr(bytes),
            arp_fields::target_hw_addr(bytes),
            arp_fields::target_protocol_addr(bytes),
        )
    }
}

impl<'a> Clone for ArpPacketSlice<'a> {
    ghost is_clone = { λ a b. b ≡ a };

    ghost is_infallible = { λ _. ⊤ };

    fn clone(&self) -> Result<Self, AllocError> {
        Ok(ArpPacketSlice { slice: self.slice })
    }
}

impl<'a> PartialEq for ArpPacketSlice<'a> {
    ghost eq = { pointwise ◌==◌ };

    ghost laws = { Prim.search (comparing, rules) };

    fn eq(&self, other: &ArpPacketSlice<'a>) -> bool {
        self.slice == other.slice
    }
}

impl<'a> Eq for ArpPacketSlice<'a> {
    ghost laws = { Prim.search (comparing, rules) };
}
