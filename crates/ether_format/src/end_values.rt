//! The values of what is left of a packet, and of a fault.
ghost use Rattle.std.specs.Prelude.{◌≡◌, codes};
ghost use Rattle.std.specs.Option.{option_map};
ghost use Rattle.ether_format.specs.Members.{Nothing, rest_values};
ghost use Rattle.ether_format.specs.Told.{cause_available, cause_number, cause_required, cause_source, cause_word, end_values, fault_values, kind_value, kind_word, protocol_value, protocol_word};
ghost use Rattle.ether_format.specs.Values.{value_at, value_view};

use crate::cause::Cause;
use crate::end::End;
use crate::value::Value;
use ether_output::source_of;
use ether_peel::RestKind;
use etherparse::LinuxSllProtocolType;

/// The value of a field of how a walk ends.
#[inline(always)]
pub(crate) fn end_value<'a>(end: &End, index: usize) -> Option<Value<'a>>
    ensures { option_map value_view result ≡ value_at (end_values end.now) index }
{
    match end {
        End::Rest(start, end, kind) => rest_value(*start, *end, kind, index),
        End::Skipped(len) => skipped_value(*len, index),
        End::Fault(start, closed, cause) => fault_value(*start, *closed, cause, index),
    }
}

/// The value of a field of what is left.
#[inline(always)]
pub(crate) fn rest_value<'a>(
    start: usize,
    end: usize,
    kind: &RestKind,
    index: usize,
) -> Option<Value<'a>>
    ensures { option_map value_view result
        ≡ value_at (rest_values start end (kind_word kind.now) (kind_value kind.now)) index }
{
    match index {
        0 => Some(Value::Number(start as u64)),
        1 => Some(Value::Number(end as u64)),
        2 => Some(Value::Word(kind_word(kind))),
        3 => Some(kind_value(kind)),
        _ => None,
    }
}

/// The value of a field of a packet that is skipped.
#[inline(never)]
pub(crate) fn skipped_value<'a>(len: usize, index: usize) -> Option<Value<'a>>
    ensures { option_map value_view result ≡ value_at (rest_values 0 len (codes "skipped") Nothing) index }
{
    match index {
        0 => Some(Value::Number(0)),
        1 => Some(Value::Number(len as u64)),
        2 => Some(Value::Word("skipped")),
        3 => Some(Value::Nothing),
        _ => None,
    }
}

/// The word for what a rest is announced as.
pub(crate) fn kind_word(kind: &RestKind) -> &'static str
    ensures { result.now ≡ kind_word kind.now }
{
    match kind {
        RestKind::Start => "start",
        RestKind::EtherType(_) => "ether_type",
        RestKind::Sll(protocol) => protocol_word(protocol),
        RestKind::Sealed => "sealed",
        RestKind::AfterArp => "after_arp",
    }
}

/// The word for a protocol of cooked capture.
fn protocol_word(protocol: &LinuxSllProtocolType) -> &'static str
    ensures { result.now ≡ protocol_word protocol.now }
{
    match protocol {
        LinuxSllProtocolType::Ignored(_) => "sll_ignored",
        LinuxSllProtocolType::NetlinkProtocolType(_) => "sll_netlink",
        LinuxSllProtocolType::GenericRoutingEncapsulationProtocolType(_) => "sll_gre",
        LinuxSllProtocolType::EtherType(_) => "ether_type",
        LinuxSllProtocolType::LinuxNonstandardEtherType(_) => "sll",
    }
}

/// The protocol number that a rest is announced by.
fn kind_value<'a>(kind: &RestKind) -> Value<'a>
    ensures { value_view result ≡ kind_value kind.now }
{
    match kind {
        RestKind::EtherType(ether_type) => Value::Protocol(ether_type.0),
        RestKind::Sll(protocol) => protocol_value(protocol),
        _ => Value::Nothing,
    }
}

/// The number of a protocol of cooked capture.
fn protocol_value<'a>(protocol: &LinuxSllProtocolType) -> Value<'a>
    ensures { value_view result ≡ protocol_value protocol.now }
{
    match protocol {
        LinuxSllProtocolType::Ignored(number)
        | LinuxSllProtocolType::NetlinkProtocolType(number)
        | LinuxSllProtocolType::GenericRoutingEncapsulationProtocolType(number) => {
            Value::Protocol(*number)
        }
        LinuxSllProtocolType::EtherType(ether_type) => Value::Protocol(ether_type.0),
        LinuxSllProtocolType::LinuxNonstandardEtherType(_) => Value::Nothing,
    }
}

/// The value of a field of a fault.
#[inline(never)]
pub(crate) fn fault_value<'a>(
    start: usize,
    closed: bool,
    cause: &Cause,
    index: usize,
) -> Option<Value<'a>>
    ensures { option_map value_view result ≡ value_at (fault_values start closed cause.now) index }
{
    match index {
        0 => Some(Value::Number(start as u64)),
        1 => Some(Value::Flag(closed)),
        2 => Some(Value::Word(cause_word(cause))),
        3 => Some(required_value(cause)),
        4 => Some(available_value(cause)),
        5 => Some(source_value(cause)),
        6 => Some(number_value(cause)),
        _ => None,
    }
}

/// The word for what is wrong.
fn cause_word(cause: &Cause) -> &'static str
    ensures { result.now ≡ cause_word cause.now }
{
    match cause {
        Cause::Length(_, _, _, _) => "length",
        Cause::UnknownPacketType(_) => "sll_packet_type",
        Cause::UnknownHardwareType(_) => "sll_hardware_type",
        Cause::Version => "macsec_version",
        Cause::ShortLength => "macsec_short_len",
    }
}

/// The number of bytes that are required, if they are too few.
fn required_value<'a>(cause: &Cause) -> Value<'a>
    ensures { value_view result ≡ cause_required cause.now }
{
    match cause {
        Cause::Length(required, _, _, _) => Value::Number(*required as u64),
        _ => Value::Nothing,
    }
}

/// The number of bytes that are available, if they are too few.
fn available_value<'a>(cause: &Cause) -> Value<'a>
    ensures { value_view result ≡ cause_available cause.now }
{
    match cause {
        Cause::Length(_, available, _, _) => Value::Number(*available as u64),
        _ => Value::Nothing,
    }
}

/// What names the number of bytes that are available, if they are too few.
fn source_value<'a>(cause: &Cause) -> Value<'a>
    ensures { value_view result ≡ cause_source cause.now }
{
    match cause {
        Cause::Length(_, _, source, _) => Value::Word(source_of(*source)),
        _ => Value::Nothing,
    }
}

/// The number that has no meaning, if that is what is wrong.
fn number_value<'a>(cause: &Cause) -> Value<'a>
    ensures { value_view result ≡ cause_number cause.now }
{
    match cause {
        Cause::UnknownPacketType(number) | Cause::UnknownHardwareType(number) => {
            Value::Number(u64::from(*number))
        }
        _ => Value::Nothing,
    }
}
