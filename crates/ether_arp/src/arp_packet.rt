//! ARP packets as values.
ghost use Rattle.std.specs.Hash as fed;
ghost use Rattle.std.specs.Prelude.{⊤, ℕ, List, ◌≡◌, ◌+◌, ◌*◌, ◌≤◌, ◌<◌, ◌++◌, ◌==◌, length, slice_range, IfOk, IfErr, OnOk, OnErr};
ghost use Rattle.std.proofs.Common.{rules};
ghost use Rattle.std.specs.Cmp.Rules.{comparing, hashing};
ghost use Rattle.std.specs.Cmp.Lexicographic.{pointwise};
ghost use Rattle.std.specs.Ordering.{on, eq_of_both};
ghost use Rattle.ether_base.specs.declared.len_source.LenSource.TheVariants as sources;
ghost use Rattle.ether_base.specs.Formats.Arp.{ArpValue, FitsArp, arp_bytes, arp_front_number, arp_front_of, arp_len};
ghost use Rattle.ether_base.specs.Bytes.{IsBytes, spelled};
ghost use Rattle.ether_base.specs.Formats.Header as headers;
ghost use Rattle.ether_base.specs.Formats.Header.{Means};
ghost use Rattle.ether_base.specs.Formats.Kind as kinds;
ghost use Rattle.ether_base.specs.Formats.Refusal.{Accepts};
ghost use Rattle.ether_base.specs.Formats.RefusedLen.{IsRefusedLen};
ghost use Rattle.ether_arp.specs.ArpAddresses.{AnswersAddrs, AnswersHwAddrs, AnswersProtoAddrs};
ghost use Rattle.ether_arp.specs.ArpEthIpv4.{AnswersEthIpv4};

use crate::{ArpEthIpv4Packet, ArpPacketSlice, arp_addrs, arp_front};
use arrayvec::ArrayVec;
use ether_base::err::LenError;
use ether_base::err::arp::{ArpEthIpv4FromError, ArpHwAddrError, ArpNewError, ArpProtoAddrError};
use ether_base::{ArpHardwareId, ArpOperation, EtherType};
use std::alloc::AllocError;
use std::fmt;
use std::hash::{Hash, Hasher};
use std::marker::Model;

/// The greatest length of an address in bytes: its size is one byte on the wire.
const MAX_ADDR_LEN: usize = 255;

/// A packet of the Address Resolution Protocol (RFC 826): it asks which hardware address belongs to a protocol
/// address, or answers.
///
/// Both hardware addresses have the same length, at most 255 bytes, and so do both protocol addresses. Packets are
/// equal, and have the same hash, if types, sizes, operation and addresses are equal.
///
/// The reply to a request for 10.0.0.2:
///
/// ```
/// let request = [
///     0, 1, 8, 0, 6, 4, // Ethernet and IPv4, whose addresses have 6 and 4 bytes
///     0, 1, // a request
///     2, 0, 0, 0, 0, 1, 10, 0, 0, 1, // the sender's addresses
///     0, 0, 0, 0, 0, 0, 10, 0, 0, 2, // the target's
/// ];
/// let reply = [
///     0, 1, 8, 0, 6, 4, // as in the request
///     0, 2, // a reply
///     2, 0, 0, 0, 0, 2, 10, 0, 0, 2, // the sender's addresses
///     2, 0, 0, 0, 0, 1, 10, 0, 0, 1, // the target's
/// ];
/// let mut packet = ArpPacket::from_slice(&request)?;
/// packet.operation = ArpOperation::REPLY;
/// packet.set_hw_addrs(&[2, 0, 0, 0, 0, 2], &[2, 0, 0, 0, 0, 1])?;
/// packet.set_protocol_addrs(&[10, 0, 0, 2], &[10, 0, 0, 1])?;
/// assert_eq!(rt; packet.to_bytes().as_slice(), &reply);
/// ```
#[derive(Drop)]
pub struct ArpPacket {
    /// What kind of link the hardware addresses belong to.
    pub hw_addr_type: ArpHardwareId,
    /// The protocol that the protocol addresses belong to, as an ether type.
    pub proto_addr_type: EtherType,
    /// The operation: a request, a reply or another.
    pub operation: ArpOperation,
    sender_hw_addr: ArrayVec<u8, 255>,
    sender_protocol_addr: ArrayVec<u8, 255>,
    target_hw_addr: ArrayVec<u8, 255>,
    target_protocol_addr: ArrayVec<u8, 255>,
}

impl Model for ArpPacket {
    ghost use Rattle.std.specs.Prelude.{◌≡◌, length};
    ghost use Rattle.ether_base.specs.Formats.Arp.{ArpValue};
    ghost use Rattle.ether_base.specs.Bytes.{IsBytes};

    ghost Value = { ArpValue };

    ghost view = { λ a. record {
      hardware_type = a.hw_addr_type.0;
      protocol_type = a.proto_addr_type.0;
      operation = a.operation.0;
      sender_hardware = a.sender_hw_addr.items;
      sender_protocol = a.sender_protocol_addr.items;
      target_hardware = a.target_hw_addr.items;
      target_protocol = a.target_protocol_addr.items;
    } };

    ghost invariant = { λ a. (length a.target_hw_addr.items ≡ length a.sender_hw_addr.items)
        × (length a.target_protocol_addr.items ≡ length a.sender_protocol_addr.items) × IsBytes a.sender_hw_addr.items
        × IsBytes a.sender_protocol_addr.items × IsBytes a.target_hw_addr.items
        × IsBytes a.target_protocol_addr.items };
}

impl ArpPacket {
    /// The greatest length of a packet in bytes: with four addresses of 255 bytes.
    pub const MAX_LEN: usize = 1028;

    /// Makes a packet with the given types, operation and addresses.
    ///
    /// # Errors
    ///
    /// The first of these that holds:
    ///
    /// - `ArpNewError::HwAddr` with `LenNonMatching`: the hardware addresses differ in length.
    /// - `ArpNewError::ProtoAddr` with `LenNonMatching`: the protocol addresses differ in length.
    /// - `ArpNewError::HwAddr` with `LenTooBig`: the hardware addresses are longer than 255 bytes.
    /// - `ArpNewError::ProtoAddr` with `LenTooBig`: the protocol addresses are longer than 255 bytes.
    #[tactic(auto, using(crate::specs::ArpAddresses::hardware_unequal, crate::specs::ArpAddresses::protocol_unequal, crate::specs::ArpAddresses::hardware_too_long, crate::specs::ArpAddresses::protocol_too_long))]
    pub fn new(
        hw_addr_type: ArpHardwareId,
        proto_addr_type: EtherType,
        operation: ArpOperation,
        sender_hw_addr: &[u8],
        sender_protocol_addr: &[u8],
        target_hw_addr: &[u8],
        target_protocol_addr: &[u8],
    ) -> Result<ArpPacket, ArpNewError>
        ensures answers { AnswersAddrs (length sender_hw_addr.now) (length sender_protocol_addr.now)
            (length target_hw_addr.now) (length target_protocol_addr.now) result }
        ensures holds { IfOk result (λ p. p ≡ record {
          hardware_type = hw_addr_type.0;
          protocol_type = proto_addr_type.0;
          operation = operation.0;
          sender_hardware = sender_hw_addr.now;
          sender_protocol = sender_protocol_addr.now;
          target_hardware = target_hw_addr.now;
          target_protocol = target_protocol_addr.now;
        }) }
    {
        if sender_hw_addr.len() != target_hw_addr.len() {
            return Err(ArpNewError::HwAddr(ArpHwAddrError::LenNonMatching(
                sender_hw_addr.len(),
                target_hw_addr.len(),
            )));
        }
        if sender_protocol_addr.len() != target_protocol_addr.len() {
            return Err(ArpNewError::ProtoAddr(ArpProtoAddrError::LenNonMatching(
                sender_protocol_addr.len(),
                target_protocol_addr.len(),
            )));
        }
        if sender_hw_addr.len() > MAX_ADDR_LEN {
            return Err(ArpNewError::HwAddr(ArpHwAddrError::LenTooBig(sender_hw_addr.len())));
        }
        if sender_protocol_addr.len() > MAX_ADDR_LEN {
            return Err(ArpNewError::ProtoAddr(ArpProtoAddrError::LenTooBig(
                sender_protocol_addr.len(),
            )));
        }
        Ok(ArpPacket::holding(
            hw_addr_type,
            proto_addr_type,
            operation,
            sender_hw_addr,
            sender_protocol_addr,
            target_hw_addr,
            target_protocol_addr,
        ))
    }

    /// The packet with these fields. The addresses of each kind have the same length, at most 255 bytes.
    pub(crate) fn holding(
        hw_addr_type: ArpHardwareId,
        proto_addr_type: EtherType,
        operation: ArpOperation,
        sender_hw_addr: &[u8],
        sender_protocol_addr: &[u8],
        target_hw_addr: &[u8],
        target_protocol_addr: &[u8],
    ) -> ArpPacket
        requires hardware { length target_hw_addr.now ≡ length sender_hw_addr.now }
        requires protocol { length target_protocol_addr.now ≡ length sender_protocol_addr.now }
        requires hardware_size { length sender_hw_addr.now ≤ 255 }
        requires protocol_size { length sender_protocol_addr.now ≤ 255 }
        ensures { result ≡ record {
          hardware_type = hw_addr_type.0;
          protocol_type = proto_addr_type.0;
          operation = operation.0;
          sender_hardware = sender_hw_addr.now;
          sender_protocol = sender_protocol_addr.now;
          target_hardware = target_hw_addr.now;
          target_protocol = target_protocol_addr.now;
        } }
    {
        ArpPacket {
            hw_addr_type,
            proto_addr_type,
            operation,
            sender_hw_addr: arp_addrs::address(sender_hw_addr),
            sender_protocol_addr: arp_addrs::address(sender_protocol_addr),
            target_hw_addr: arp_addrs::address(target_hw_addr),
            target_protocol_addr: arp_addrs::address(target_protocol_addr),
        }
    }

    /// Copies the packet that a slice begins with. What follows it is ignored.
    ///
    /// # Errors
    ///
    /// Those of [`ArpPacketSlice::from_slice`].
    pub fn from_slice(slice: &[u8]) -> Result<ArpPacket, LenError>
        ensures accepted { IfOk result (λ p. Accepts sources.Slice slice.now kinds.Arp) }
        ensures value { IfOk result (λ p. Means slice.now (headers.Arp p)) }
        ensures refused { IfErr result (IsRefusedLen slice.now kinds.Arp) }
        ensures short { IfErr result (λ e. length slice.now < e.required_len) }
    {
        Ok(ArpPacketSlice::from_slice(slice)?.to_packet())
    }

    /// The size of a hardware address in bytes.
    pub const fn hw_addr_size(&self) -> u8
        ensures sender { result ≡ length self.now.sender_hardware }
        ensures target { result ≡ length self.now.target_hardware }
    {
        self.sender_hw_addr.len() as u8
    }

    /// The size of a protocol address in bytes.
    pub const fn protocol_addr_size(&self) -> u8
        ensures sender { result ≡ length self.now.sender_protocol }
        ensures target { result ≡ length self.now.target_protocol }
    {
        self.sender_protocol_addr.len() as u8
    }

    /// The hardware address of the sender.
    pub fn sender_hw_addr(&self) -> &[u8]
        ensures { result.now ≡ self.now.sender_hardware }
    {
        self.sender_hw_addr.as_slice()
    }

    /// The protocol address of the sender.
    pub fn sender_protocol_addr(&self) -> &[u8]
        ensures { result.now ≡ self.now.sender_protocol }
    {
        self.sender_protocol_addr.as_slice()
    }

    /// The hardware address of the target. In a request it is not known yet.
    pub fn target_hw_addr(&self) -> &[u8]
        ensures { result.now ≡ self.now.target_hardware }
    {
        self.target_hw_addr.as_slice()
    }

    /// The protocol address of the target.
    pub fn target_protocol_addr(&self) -> &[u8]
        ensures { result.now ≡ self.now.target_protocol }
    {
        self.target_protocol_addr.as_slice()
    }

    /// Replaces both hardware addresses, and with them their size.
    ///
    /// # Errors
    ///
    /// [`ArpHwAddrError::LenNonMatching`] if the addresses differ in length, else [`ArpHwAddrError::LenTooBig`] if
    /// they are longer than 255 bytes. The packet is then unchanged.
    #[tactic(auto, using(crate::specs::ArpAddresses::hw_unequal, crate::specs::ArpAddresses::hw_too_long))]
    pub fn set_hw_addrs(
        &mut self,
        sender_hw_addr: &[u8],
        target_hw_addr: &[u8],
    ) -> Result<(), ArpHwAddrError>
        ensures answers { AnswersHwAddrs (length sender_hw_addr.now)
            (length target_hw_addr.now) result }
        ensures set { OnOk result (self.new ≡ record self.old {
          sender_hardware = sender_hw_addr.now;
          target_hardware = target_hw_addr.now;
        }) }
        ensures unchanged { OnErr result (self.new ≡ self.old) }
    {
        let len = sender_hw_addr.len();
        if len != target_hw_addr.len() {
            return Err(ArpHwAddrError::LenNonMatching(len, target_hw_addr.len()));
        }
        if len > MAX_ADDR_LEN {
            return Err(ArpHwAddrError::LenTooBig(len));
        }
        self.sender_hw_addr = arp_addrs::address(sender_hw_addr);
        self.target_hw_addr = arp_addrs::address(target_hw_addr);
        Ok(())
    }

    /// Replaces both protocol addresses, and with them their size.
    ///
    /// # Errors
    ///
    /// [`ArpProtoAddrError::LenNonMatching`] if the addresses differ in length, else [`ArpProtoAddrError::LenTooBig`]
    /// if they are longer than 255 bytes. The packet is then unchanged.
    #[tactic(auto, using(crate::specs::ArpAddresses::proto_unequal, crate::specs::ArpAddresses::proto_too_long))]
    pub fn set_protocol_addrs(
        &mut self,
        sender_protocol_addr: &[u8],
        target_protocol_addr: &[u8],
    ) -> Result<(), ArpProtoAddrError>
        ensures answers { AnswersProtoAddrs (length sender_protocol_addr.now)
            (length target_protocol_addr.now) result }
        ensures set { OnOk result (self.new ≡ record self.old {
          sender_protocol = sender_protocol_addr.now;
          target_protocol = target_protocol_addr.now;
        }) }
        ensures unchanged { OnErr result (self.new ≡ self.old) }
    {
        let len = sender_protocol_addr.len();
        if len != target_protocol_addr.len() {
            return Err(ArpProtoAddrError::LenNonMatching(len, target_protocol_addr.len()));
        }
        if len > MAX_ADDR_LEN {
            return Err(ArpProtoAddrError::LenTooBig(len));
        }
        self.sender_protocol_addr = arp_addrs::address(sender_protocol_addr);
        self.target_protocol_addr = arp_addrs::address(target_protocol_addr);
        Ok(())
    }

    /// The length of the packet in bytes, 8 to [`ArpPacket::MAX_LEN`].
    pub fn packet_len(&self) -> usize
        ensures value { result ≡ arp_len (arp_front_of self.now) }
        ensures bound { result ≤ 1028 }
    {
        8 + 2 * usize::from(self.hw_addr_size()) + 2 * usize::from(self.protocol_addr_size())
    }

    /// The bytes of the packet on the wire. Their number is [`ArpPacket::packet_len`].
    ///
    /// They are read back as this packet, whatever follows them.
    pub fn to_bytes(&self) -> ArrayVec<u8, 1028>
        ensures value { result.items ≡ arp_bytes self.now }
        ensures len { length result.items ≡ arp_len (arp_front_of self.now) }
        ensures fits { FitsArp self.now }
        ensures accepted { (more : List ℕ)
            → Accepts sources.Slice (result.items ++ more) kinds.Arp }
        ensures read { (more : List ℕ) → Means (result.items ++ more) (headers.Arp self.now) }
    {
        self.spelled()
    }

    /// The bytes of the packet. Each number fits in its field.
    fn spelled(&self) -> ArrayVec<u8, 1028>
        ensures value { result.items ≡ arp_bytes self.now }
        ensures fits { FitsArp self.now }
    {
        let mut bytes = ArrayVec::new();
        arp_addrs::append(&mut bytes, &self.front());
        arp_addrs::append(&mut bytes, self.sender_hw_addr());
        arp_addrs::append(&mut bytes, self.sender_protocol_addr());
        arp_addrs::append(&mut bytes, self.target_hw_addr());
        arp_addrs::append(&mut bytes, self.target_protocol_addr());
        bytes
    }

    /// The bytes before the addresses.
    fn front(&self) -> [u8; 8]
        ensures value { result ≡ spelled 8 (arp_front_number (arp_front_of self.now)) }
        ensures fits { FitsArp self.now }
    {
        arp_front::front_bytes(
            self.hw_addr_type.0,
            self.proto_addr_type.0,
            self.hw_addr_size(),
            self.protocol_addr_size(),
            self.operation.0,
        )
    }

    /// The packet as a packet of Ethernet and IPv4.
    ///
    /// # Errors
    ///
    /// The first of these that holds; each error has what the packet has instead:
    ///
    /// - [`ArpEthIpv4FromError::NonMatchingHwType`]: the hardware type is not 1, Ethernet.
    /// - [`ArpEthIpv4FromError::NonMatchingProtocolType`]: the protocol type is not 0x0800, IPv4.
    /// - [`ArpEthIpv4FromError::NonMatchingHwAddrSize`]: the hardware addresses are not 6 bytes long.
    /// - [`ArpEthIpv4FromError::NonMatchingProtoAddrSize`]: the protocol addresses are not 4 bytes long.
    #[tactic(auto, using(crate::proofs::Refusals::row_hardware_type, crate::proofs::Refusals::row_protocol_type, crate::proofs::Refusals::row_hardware_size, crate::proofs::Refusals::row_protocol_size, crate::proofs::Refusals::differs, crate::proofs::Refusals::agrees))]
    pub fn try_eth_ipv4(&self) -> Result<ArpEthIpv4Packet, ArpEthIpv4FromError>
        ensures { AnswersEthIpv4 self.now result }
    {
        if self.hw_addr_type != ArpHardwareId::ETHERNET {
            return Err(ArpEthIpv4FromError::NonMatchingHwType(self.hw_addr_type));
        }
        if self.proto_addr_type != EtherType::IPV4 {
            return Err(ArpEthIpv4FromError::NonMatchingProtocolType(self.proto_addr_type));
        }
        let hw_addr_size = self.hw_addr_size();
        if hw_addr_size != 6 {
            return Err(ArpEthIpv4FromError::NonMatchingHwAddrSize(hw_addr_size));
        }
        let protocol_addr_size = self.protocol_addr_size();
        if protocol_addr_size != 4 {
            return Err(ArpEthIpv4FromError::NonMatchingProtoAddrSize(protocol_addr_size));
        }
        Ok(ArpEthIpv4Packet {
            operation: self.operation,
            sender_mac: array(self.sender_hw_addr()),
            sender_ipv4: array(self.sender_protocol_addr()),
            target_mac: array(self.target_hw_addr()),
            target_ipv4: array(self.target_protocol_addr()),
        })
    }
}

/// An address of `N` bytes as an array. Its length is tested once.
fn array<const N: usize>(address: &[u8]) -> [u8; N]
    requires { length address.now ≡ N }
    ensures { result ≡ address.now }
{
    match address.first_chunk::<N>() {
        Some(array) => *array,
        None => unreachable!(),
    }
}

impl From<ArpEthIpv4Packet> for ArpPacket {
    ghost use Rattle.std.specs.Prelude.{◌≡◌};
    ghost use Rattle.ether_arp.specs.ArpEthIpv4.{eth_ipv4_view};

    ghost from_gives = { λ packet a. a ≡ eth_ipv4_view packet };

    fn from(packet: ArpEthIpv4Packet) -> ArpPacket {
        packet.to_arp_packet()
    }
}

impl Clone for ArpPacket {
    ghost is_clone = { λ a b. b ≡ a };

    ghost is_infallible = { λ _. ⊤ };

    fn clone(&self) -> Result<Self, AllocError> {
        Ok(ArpPacket {
            hw_addr_type: self.hw_addr_type,
            proto_addr_type: self.proto_addr_type,
            operation: self.operation,
            sender_hw_addr: self.sender_hw_addr.clone()?,
            sender_protocol_addr: self.sender_protocol_addr.clone()?,
            target_hw_addr: self.target_hw_addr.clone()?,
            target_protocol_addr: self.target_protocol_addr.clone()?,
        })
    }
}

impl PartialEq for ArpPacket {
    ghost eq = { eq_of_both (on (λ a. a.hardware_type) ◌==◌)
        (eq_of_both (on (λ a. a.protocol_type) ◌==◌)
        (eq_of_both (on (λ a. a.operation) ◌==◌)
        (eq_of_both (on (λ a. a.sender_hardware) (pointwise ◌==◌))
        (eq_of_both (on (λ a. a.sender_protocol) (pointwise ◌==◌))
        (eq_of_both (on (λ a. a.target_hardware) (pointwise ◌==◌)) (on (λ a. a.target_protocol) (pointwise ◌==◌))))))) };

    ghost laws = { Prim.search (comparing, rules) depth 16 };

    fn eq(&self, other: &ArpPacket) -> bool {
        self.hw_addr_type == other.hw_addr_type
            && self.proto_addr_type == other.proto_addr_type
            && self.operation == other.operation
            && self.sender_hw_addr == other.sender_hw_addr
            && self.sender_protocol_addr == other.sender_protocol_addr
            && self.target_hw_addr == other.target_hw_addr
            && self.target_protocol_addr == other.target_protocol_addr
    }
}

impl Eq for ArpPacket {
    ghost laws = { Prim.search (comparing, rules) depth 16 };
}

impl Hash for ArpPacket {
    ghost hash_input = { λ a. fed.u16 a.hardware_type ++ fed.u16 a.protocol_type ++ fed.u16 a.operation
        ++ fed.slice fed.u8 a.sender_hardware ++ fed.slice fed.u8 a.sender_protocol
        ++ fed.slice fed.u8 a.target_hardware ++ fed.slice fed.u8 a.target_protocol };

    ghost respects_eq = { Prim.search (hashing, rules) depth 16 };

    fn hash<H: Hasher>(&self, state: &mut H) {
        self.hw_addr_type.hash(state);
        self.proto_addr_type.hash(state);
        self.operation.hash(state);
        self.sender_hw_addr().hash(state);
        self.sender_protocol_addr().hash(state);
        self.target_hw_addr().hash(state);
        self.target_protocol_addr().hash(state);
    }
}

impl fmt::Debug for ArpPacket {
    fn fmt<W: fmt::Write>(&self, f: &mut fmt::Formatter<W>) -> fmt::Result {
        f.debug_struct("ArpPacket")
            .field("hw_addr_type", &self.hw_addr_type)
            .field("proto_addr_type", &self.proto_addr_type)
            .field("hw_addr_size", &self.hw_addr_size())
            .field("proto_addr_size", &self.protocol_addr_size())
            .field("operation", &self.operation)
            .field("sender_hw_addr", &self.sender_hw_addr())
            .field("sender_protocol_addr", &self.sender_protocol_addr())
            .field("target_hw_addr", &self.target_hw_addr())
            .field("target_protocol_addr", &self.target_protocol_addr())
            .finish()
    }
}
