//! Words for what a walk says.
ghost use Rattle.std.specs.Prelude.{◌≡◌};
ghost use Rattle.ether_output.specs.Words.{source_text};

use etherparse::LenSource;

/// The word for the source of a length.
pub fn source_of(source: LenSource) -> &'static str
    ensures { result.now ≡ source_text source }
{
    match source {
        LenSource::Slice => "slice",
        LenSource::MacsecShortLength => "macsec_short_length",
        LenSource::Ipv4HeaderTotalLen => "ipv4_total_len",
        LenSource::Ipv6HeaderPayloadLen => "ipv6_payload_len",
        LenSource::UdpHeaderLen => "udp_len",
        LenSource::TcpHeaderLen => "tcp_len",
        LenSource::ArpAddrLengths => "arp_addr_lengths",
    }
}
