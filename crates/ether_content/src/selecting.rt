//! Which packets of a capture a filter selects.
ghost use Rattle.std.specs.Prelude.{◌≡◌, ◌↔◌, Bool, Option, IsTrue};
ghost use Rattle.ether_pcap.specs.CaptureViews.{captured_packet_view};
ghost use Rattle.ether_content.specs.Selecting.{IsOutcome, IsUndecided, Selects};

use crate::program;
use ether_filter::Filter;
use ether_pcap::CapturedPacket;

/// Returns `true` if a filter selects a packet: if its expression holds for the part of the packet that is walked.
///
/// A packet is never selected if the walk does not know its link type, or if it is of cooked capture v2 and its
/// payload has no ether type.
///
/// ```
/// let packet = CapturedPacket {
///     time: None,
///     interface: None,
///     direction: None,
///     comment: None,
///     original_len: 60,
///     link_type: LinkType::ETHERNET,
///     snap_len: 262_144,
///     fcs_len: None,
///     packet: &[
///         0xFF, 0xFF, 0xFF, 0xFF, 0xFF, 0xFF, 0x02, 0x00, 0x00, 0x00, 0x00, 0x01, 0x81, 0x00, // Ethernet II
///         0xB1, 0x23, 0x08, 0x00, // VLAN 291
///     ],
/// };
/// assert!(rt; selects(&Filter::parse(b"vlan 291 and cut")?, &packet));
/// assert!(rt; !selects(&Filter::parse(b"arp")?, &packet));
/// ```
pub fn selects(filter: &Filter, packet: &CapturedPacket<'_>) -> bool
    ensures { IsTrue result ↔ Selects filter.now (captured_packet_view packet.now) }
{
    program::selects(filter.instructions(), packet)
}

/// Returns `true` if the captured bytes of a packet do not decide whether a filter selects it: if [`decide`] returns
/// `None`.
#[inline(always)]
pub fn is_undecided(filter: &Filter, packet: &CapturedPacket<'_>) -> bool
    ensures { IsTrue result ↔ IsUndecided filter.now (captured_packet_view packet.now) }
{
    program::is_undecided(filter.instructions(), packet)
}

/// Decides whether a filter selects a packet whose bytes may not all be there: `Some` if it does, or does not, whatever
/// the missing bytes are, as [`Filter::decide`] says; `None` if they can change it.
///
/// Missing bytes of a frame check sequence change nothing, if the capture gives its length. A packet whose header of
/// cooked capture was cut is undecided: the header says what is walked.
///
/// [`selects`] goes by the captured bytes alone.
///
/// ```
/// let packet = CapturedPacket {
///     time: None,
///     interface: None,
///     direction: None,
///     comment: None,
///     original_len: 60,
///     link_type: LinkType::ETHERNET,
///     snap_len: 16,
///     fcs_len: None,
///     packet: &[
///         0xFF, 0xFF, 0xFF, 0xFF, 0xFF, 0xFF, 0x02, 0x00, 0x00, 0x00, 0x00, 0x01, 0x81, 0x00, // Ethernet II
///         0xB1, 0x23, // the first bytes of a VLAN tag
///     ],
/// };
/// assert_eq!(rt; decide(&Filter::parse(b"vlan 291")?, &packet), Some(true));
/// assert_eq!(rt; decide(&Filter::parse(b"vlan 292")?, &packet), None);
/// assert_eq!(rt; decide(&Filter::parse(b"not vlan")?, &packet), Some(false));
/// assert!(rt; !selects(&Filter::parse(b"vlan 291")?, &packet));
/// ```
#[inline(always)]
pub fn decide(filter: &Filter, packet: &CapturedPacket<'_>) -> Option<bool>
    ensures { (outcome : Option Bool) → (result ≡ outcome)
        ↔ IsOutcome filter.now (captured_packet_view packet.now) outcome }
{
    program::decide(filter.instructions(), packet)
}
