//! What is wrong with the bytes that should be a header.
ghost use Rattle.std.specs.Prelude.{◌≡◌};
ghost use Rattle.ether_sll2.specs.Views.{refusal_view};
ghost use Rattle.ether_format.specs.Causes.{cause_of_v2, cause_shown, linux_sll_cause, macsec_cause};

use ether_peel::PeelError;
use ether_sll2::LinuxSll2Error;
use etherparse::err::Layer;
use etherparse::{LenSource, err};

/// What is wrong with the bytes that should be a header.
#[derive(Clone, Copy, Debug)]
pub enum Cause {
    /// They are fewer than are required: how many are required and available, what names the number of those that are
    /// available, and the layer that was read. A header of cooked capture of either version is `LinuxSllHeader`.
    Length(usize, usize, LenSource, Layer),
    /// The packet type of a cooked capture has no meaning.
    UnknownPacketType(u16),
    /// The hardware type of a cooked capture is not supported.
    UnknownHardwareType(u16),
    /// A SecTag has version 1.
    Version,
    /// The short length of a SecTag is 1, though its payload is unmodified.
    ShortLength,
}

impl Cause {
    /// What is wrong with a header of the walk.
    pub(crate) fn of(error: &PeelError) -> Cause
        ensures { result ≡ cause_shown error.now }
    {
        match error {
            PeelError::Len(error) => Cause::Length(
                error.required_len,
                error.len,
                error.len_source,
                error.layer,
            ),
            PeelError::LinuxSll(error) => linux_sll_cause(error),
            PeelError::Macsec(error) => macsec_cause(error),
        }
    }

    /// What is wrong with a header of cooked capture v2.
    pub(crate) fn of_v2(error: &LinuxSll2Error) -> Cause
        ensures { result ≡ cause_of_v2 (refusal_view error.now) }
    {
        match error {
            LinuxSll2Error::Len { required_len, len } => Cause::Length(
                *required_len,
                *len,
                LenSource::Slice,
                Layer::LinuxSllHeader,
            ),
            LinuxSll2Error::PacketType(number) => Cause::UnknownPacketType(u16::from(*number)),
        }
    }
}

/// What is wrong with a header of cooked capture v1.
fn linux_sll_cause(error: &err::linux_sll::HeaderError) -> Cause
    ensures { result ≡ linux_sll_cause error.now }
{
    match error {
        err::linux_sll::HeaderError::UnsupportedPacketTypeField { packet_type } => {
            Cause::UnknownPacketType(*packet_type)
        }
        err::linux_sll::HeaderError::UnsupportedArpHardwareId { arp_hardware_type } => {
            Cause::UnknownHardwareType(arp_hardware_type.0)
        }
    }
}

/// What is wrong with a SecTag.
fn macsec_cause(error: &err::macsec::HeaderError) -> Cause
    ensures { result ≡ macsec_cause error.now }
{
    match error {
        err::macsec::HeaderError::UnexpectedVersion => Cause::Version,
        err::macsec::HeaderError::InvalidUnmodifiedShortLen => Cause::ShortLength,
    }
}
