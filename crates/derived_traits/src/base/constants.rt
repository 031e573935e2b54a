//! The values of the constants: the numbers of their tables, row by row, and the ends of the ranges.
ghost use Rattle.std.specs.Prelude.{◌≡◌, map, [], ◌∷◌};
ghost use Rattle.ether_base.specs.Enumerations.ArpHardwareId.{assigned_descriptions, device_descriptions, link_descriptions};
ghost use Rattle.ether_base.specs.Enumerations.EtherType.{ether_type_descriptions};
ghost use Rattle.ether_base.specs.Enumerations.LinuxNonstandardEtherType.{nonstandard_descriptions};
ghost use Rattle.ether_base.specs.Enumerations.LinuxSllPacketType.{packet_type_descriptions};

use ether_base::{
    ArpHardwareId, ArpOperation, EtherType, LinuxNonstandardEtherType, LinuxSllPacketType,
    LinuxSllProtocolType, MacsecAn, MacsecShortLen, VlanId, VlanPcp, ether_type,
};

pub fn ether_types() -> [EtherType; 8]
    ensures { map (λ ether_type. ether_type.0) result ≡ map (λ row. row.0) ether_type_descriptions }
{
    [
        EtherType::IPV4,
        EtherType::IPV6,
        EtherType::ARP,
        EtherType::WAKE_ON_LAN,
        EtherType::VLAN_TAGGED_FRAME,
        EtherType::PROVIDER_BRIDGING,
        EtherType::MACSEC,
        EtherType::VLAN_DOUBLE_TAGGED_FRAME,
    ]
}

pub fn ether_types_by_module() -> [EtherType; 8]
    ensures { map (λ ether_type. ether_type.0) result ≡ map (λ row. row.0) ether_type_descriptions }
{
    [
        ether_type::IPV4,
        ether_type::IPV6,
        ether_type::ARP,
        ether_type::WAKE_ON_LAN,
        ether_type::VLAN_TAGGED_FRAME,
        ether_type::PROVIDER_BRIDGING,
        ether_type::MACSEC,
        ether_type::VLAN_DOUBLE_TAGGED_FRAME,
    ]
}

#[tactic(auto, unfolding(ether_base::specs::Enumerations::ArpHardwareId::assigned_descriptions))]
pub fn assigned_hardware_types() -> [ArpHardwareId; 39]
    ensures { map (λ hardware. hardware.0) result ≡ map (λ row. row.0) assigned_descriptions }
{
    [
        ArpHardwareId::NETROM,
        ArpHardwareId::ETHERNET,
        ArpHardwareId::EETHER,
        ArpHardwareId::AX25,
        ArpHardwareId::PRONET,
        ArpHardwareId::CHAOS,
        ArpHardwareId::IEEE802,
        ArpHardwareId::ARCNET,
        ArpHardwareId::HYPERCHANNEL,
        ArpHardwareId::LANSTAR,
        ArpHardwareId::AUTONET_SHORT_ADDRESS,
        ArpHardwareId::LOCAL_TALK,
        ArpHardwareId::LOCAL_NET,
        ArpHardwareId::ULTRA_LINK,
        ArpHardwareId::SMDS,
        ArpHardwareId::DLCI,
        ArpHardwareId::ATM_JXB2,
        ArpHardwareId::HDLC,
        ArpHardwareId::FIBRE_CHANNEL,
        ArpHardwareId::ATM,
        ArpHardwareId::SERIAL_LINE,
        ArpHardwareId::ATM_21,
        ArpHardwareId::MIL_STD_188_220,
        ArpHardwareId::METRICOM,
        ArpHardwareId::IEEE1394,
        ArpHardwareId::MAPOS,
        ArpHardwareId::TWINAXIAL,
        ArpHardwareId::EUI64,
        ArpHardwareId::HIPARP,
        ArpHardwareId::IP_AND_ARP_OVER_ISO_7816_3,
        ArpHardwareId::ARPSEC,
        ArpHardwareId::IPSEC_TUNNEL,
        ArpHardwareId::INFINIBAND,
        ArpHardwareId::CAI,
        ArpHardwareId::WIEGAND_INTERFACE,
        ArpHardwareId::PURE_IP,
        ArpHardwareId::HW_EXP1,
        ArpHardwareId::HFI,
        ArpHardwareId::UNIFIED_BUS,
    ]
}

#[tactic(auto, unfolding(ether_base::specs::Enumerations::ArpHardwareId::link_descriptions))]
pub fn link_hardware_types() -> [ArpHardwareId; 16]
    ensures { map (λ hardware. hardware.0) result ≡ map (λ row. row.0) link_descriptions }
{
    [
        ArpHardwareId::SLIP,
        ArpHardwareId::CSLIP,
        ArpHardwareId::SLIP6,
        ArpHardwareId::CSLIP6,
        ArpHardwareId::RSRVD,
        ArpHardwareId::ADAPT,
        ArpHardwareId::ROSE,
        ArpHardwareId::X25,
        ArpHardwareId::HWX25,
        ArpHardwareId::CAN,
        ArpHardwareId::PPP,
        ArpHardwareId::CISCO_HDLC,
        ArpHardwareId::LAPB,
        ArpHardwareId::DDCMP,
        ArpHardwareId::RAWHDLC,
        ArpHardwareId::RAWIP,
    ]
}

#[tactic(auto, unfolding(ether_base::specs::Enumerations::ArpHardwareId::device_descriptions))]
pub fn device_hardware_types() -> [ArpHardwareId; 35]
    ensures { map (λ hardware. hardware.0) result ≡ map (λ row. row.0) device_descriptions }
{
    [
        ArpHardwareId::TUNNEL,
        ArpHardwareId::TUNNEL6,
        ArpHardwareId::FRAD,
        ArpHardwareId::SKIP,
        ArpHardwareId::LOOPBACK,
        ArpHardwareId::LOCALTLK,
        ArpHardwareId::FDDI,
        ArpHardwareId::BIF,
        ArpHardwareId::SIT,
        ArpHardwareId::IPDDP,
        ArpHardwareId::IPGRE,
        ArpHardwareId::PIMREG,
        ArpHardwareId::HIPPI,
        ArpHardwareId::ASH,
        ArpHardwareId::ECONET,
        ArpHardwareId::IRDA,
        ArpHardwareId::FCPP,
        ArpHardwareId::FCAL,
        ArpHardwareId::FCPL,
        ArpHardwareId::FCFABRIC,
        ArpHardwareId::IEEE802_TR,
        ArpHardwareId::IEEE80211,
        ArpHardwareId::IEEE80211_PRISM,
        ArpHardwareId::IEEE80211_RADIOTAP,
        ArpHardwareId::IEEE802154,
        ArpHardwareId::IEEE802154_MONITOR,
        ArpHardwareId::PHONET,
        ArpHardwareId::PHONET_PIPE,
        ArpHardwareId::CAIF,
        ArpHardwareId::IP6GRE,
        ArpHardwareId::NETLINK,
        ArpHardwareId::IPV6LOWPAN,
        ArpHardwareId::VSOCKMON,
        ArpHardwareId::VOID,
        ArpHardwareId::NONE,
    ]
}

/// The hardware types that have a second name, under that name.
pub fn hardware_types_by_another_name() -> [ArpHardwareId; 3]
    ensures { map (λ hardware. hardware.0) result ≡ 1 ∷ 8 ∷ 15 ∷ [] }
{
    [
        ArpHardwareId::ETHER,
        ArpHardwareId::APPLETLK,
        ArpHardwareId::FRAME_RELAY,
    ]
}

/// Netlink, GRE over IP, radiotap, frame relay and Ethernet, in this order.
pub fn supported_hardware_types() -> [ArpHardwareId; 5]
    ensures { map (λ hardware. hardware.0) result ≡ 824 ∷ 778 ∷ 803 ∷ 770 ∷ 1 ∷ [] }
{
    LinuxSllProtocolType::SUPPORTED_ARPHWD
}

pub fn nonstandard_ether_types() -> [LinuxNonstandardEtherType; 28]
    ensures { result ≡ map (λ row. row.0) nonstandard_descriptions }
{
    [
        LinuxNonstandardEtherType::N802_3,
        LinuxNonstandardEtherType::AX25,
        LinuxNonstandardEtherType::ALL,
        LinuxNonstandardEtherType::N802_2,
        LinuxNonstandardEtherType::SNAP,
        LinuxNonstandardEtherType::DDCMP,
        LinuxNonstandardEtherType::WAN_PPP,
        LinuxNonstandardEtherType::PPP_MP,
        LinuxNonstandardEtherType::LOCALTALK,
        LinuxNonstandardEtherType::CAN,
        LinuxNonstandardEtherType::CANFD,
        LinuxNonstandardEtherType::CANXL,
        LinuxNonstandardEtherType::PPPTALK,
        LinuxNonstandardEtherType::TR_802_2,
        LinuxNonstandardEtherType::MOBITEX,
        LinuxNonstandardEtherType::CONTROL,
        LinuxNonstandardEtherType::IRDA,
        LinuxNonstandardEtherType::ECONET,
        LinuxNonstandardEtherType::HDLC,
        LinuxNonstandardEtherType::ARCNET,
        LinuxNonstandardEtherType::DSA,
        LinuxNonstandardEtherType::TRAILER,
        LinuxNonstandardEtherType::PHONET,
        LinuxNonstandardEtherType::IEEE802154,
        LinuxNonstandardEtherType::CAIF,
        LinuxNonstandardEtherType::XDSA,
        LinuxNonstandardEtherType::MAP,
        LinuxNonstandardEtherType::MCTP,
    ]
}

pub fn packet_types() -> [LinuxSllPacketType; 8]
    ensures { result ≡ map (λ row. row.0) packet_type_descriptions }
{
    [
        LinuxSllPacketType::HOST,
        LinuxSllPacketType::BROADCAST,
        LinuxSllPacketType::MULTICAST,
        LinuxSllPacketType::OTHERHOST,
        LinuxSllPacketType::OUTGOING,
        LinuxSllPacketType::LOOPBACK,
        LinuxSllPacketType::USER,
        LinuxSllPacketType::KERNEL,
    ]
}

pub fn operations() -> (ArpOperation, ArpOperation)
    ensures request { result.0.0 ≡ 1 }
    ensures reply { result.1.0 ≡ 2 }
{
    (ArpOperation::REQUEST, ArpOperation::REPLY)
}

pub fn zeros() -> (VlanId, VlanPcp, MacsecAn, MacsecShortLen)
    ensures { result ≡ (0, 0, 0, 0) }
{
    (
        VlanId::ZERO,
        VlanPcp::ZERO,
        MacsecAn::ZERO,
        MacsecShortLen::ZERO,
    )
}

/// The greatest VLAN ID, priority, association number, short length (as a byte and as a length) and packet type.
pub fn greatest_numbers() -> (u16, u8, u8, u8, usize, u16)
    ensures { result ≡ (4095, 7, 3, 63, 63, 7) }
{
    (
        VlanId::MAX_U16,
        VlanPcp::MAX_U8,
        MacsecAn::MAX_U8,
        MacsecShortLen::MAX_U8,
        MacsecShortLen::MAX_USIZE,
        LinuxSllPacketType::MAX_VAL,
    )
}
