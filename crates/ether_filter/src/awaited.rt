//! What may follow at a place of an expression.
ghost use Rattle.std.specs.Prelude.{◌≡◌};
ghost use Rattle.ether_filter.specs.Subjects.{existence_of, tested as tested_of};
ghost use Rattle.ether_filter.specs.Steps.{kind_of as kind_awaited, value_for as value_for_of, masked as masked_of, related as related_of, member as member_of, value_kind as value_kind_of, most_of as most_awaited, numbered as numbered_of, addressed as addressed_of, first_step as first_step_of, next_step as next_step_of};

use crate::field_test::Relation;
use crate::filter_error::FilterErrorKind;
use crate::primitive::Primitive;
use crate::subject::{Literal, Subject, Takes, tested};
use crate::token::Token;

/// A primitive whose last word is a number.
#[derive(Clone, Copy)]
pub(crate) enum Numbered {
    VlanId,
    OuterVlan,
    InnerVlan,
    EtherType,
    Less,
    Greater,
}

/// A primitive whose last word is an address.
#[derive(Clone, Copy)]
pub(crate) enum Addressed {
    Source,
    Destination,
    Host,
}

/// What may follow at a place of an expression.
#[derive(Clone, Copy)]
pub(crate) enum Awaited {
    Operand,
    Operator,
    /// The identifier after `vlan`, or what may follow an operand.
    VlanId,
    /// `vlan`, before a number.
    Vlan(Numbered),
    Number(Numbered),
    EtherWord,
    Address(Addressed),
    /// A relation or `&` after a field, or what may follow an operand.
    Relation(Subject),
    /// The mask after `&`.
    Mask(Subject),
    /// A relation after a mask.
    MaskedRelation(Subject, u64),
    /// The value after a mask and a relation.
    Value(Subject, u64, Relation),
    /// `{` after `in`.
    Set(Subject, u64),
    /// The first value of a set.
    FirstMember(Subject, u64),
    /// A further value of a set.
    Member(Subject, u64),
    /// `,` or `}` after a value of a set.
    SetEnd(Subject, u64),
}

/// What a word does to a primitive that is partly read.
#[derive(Clone, Copy)]
pub(crate) enum Step {
    /// It completes the primitive.
    Done(Primitive),
    /// The primitive goes on, and awaits this.
    More(Awaited),
    /// It does not fit.
    Fails,
}

/// What a word does as the first word of a primitive.
pub(crate) fn first_step(token: Token) -> Step
    ensures { result ≡ first_step_of token }
{
    match token {
        Token::Vlan => Step::More(Awaited::VlanId),
        Token::Outer => Step::More(Awaited::Vlan(Numbered::OuterVlan)),
        Token::Inner => Step::More(Awaited::Vlan(Numbered::InnerVlan)),
        Token::Macsec => Step::Done(Primitive::Macsec),
        Token::Arp => Step::Done(Primitive::EtherType(0x0806)),
        Token::Ip => Step::Done(Primitive::EtherType(0x0800)),
        Token::Ip6 => Step::Done(Primitive::EtherType(0x86DD)),
        Token::Ether => Step::More(Awaited::EtherWord),
        Token::Refused => Step::Done(Primitive::Refused),
        Token::Cut => Step::Done(Primitive::Cut),
        Token::Less => Step::More(Awaited::Number(Numbered::Less)),
        Token::Greater => Step::More(Awaited::Number(Numbered::Greater)),
        Token::Field(subject) => Step::More(Awaited::Relation(subject)),
        _ => Step::Fails,
    }
}

/// What a word does to a primitive that awaits this.
pub(crate) fn next_step(awaited: Awaited, token: Token) -> Step
    ensures { result ≡ next_step_of awaited token }
{
    match (awaited, token) {
        (Awaited::Vlan(numbered), Token::Vlan) => Step::More(Awaited::Number(numbered)),
        (Awaited::Number(numbered), Token::Number(Some(number))) => with_number(numbered, number),
        (Awaited::Address(addressed), Token::Address(address)) => {
            Step::Done(with_address(addressed, address))
        }
        (Awaited::EtherWord, Token::Proto) => Step::More(Awaited::Number(Numbered::EtherType)),
        (Awaited::EtherWord, Token::Src) => Step::More(Awaited::Address(Addressed::Source)),
        (Awaited::EtherWord, Token::Dst) => Step::More(Awaited::Address(Addressed::Destination)),
        (Awaited::EtherWord, Token::Host) => Step::More(Awaited::Address(Addressed::Host)),
        (Awaited::EtherWord, Token::Broadcast) => Step::Done(Primitive::Broadcast),
        (Awaited::EtherWord, Token::Multicast) => Step::Done(Primitive::Multicast),
        (Awaited::Relation(subject), Token::Mask) => Step::More(Awaited::Mask(subject)),
        (Awaited::Relation(subject), Token::Relation(relation)) => {
            Step::More(Awaited::Value(subject, u64::MAX, relation))
        }
        (Awaited::MaskedRelation(subject, mask), Token::Relation(relation)) => {
            Step::More(Awaited::Value(subject, mask, relation))
        }
        (Awaited::Relation(subject), Token::In) => Step::More(Awaited::Set(subject, u64::MAX)),
        (Awaited::MaskedRelation(subject, mask), Token::In) => {
            Step::More(Awaited::Set(subject, mask))
        }
        (Awaited::Set(subject, mask), Token::OpenSet) => {
            Step::More(Awaited::FirstMember(subject, mask))
        }
        (Awaited::SetEnd(subject, mask), Token::Comma) => {
            Step::More(Awaited::Member(subject, mask))
        }
        (Awaited::Mask(subject), token) => masked(subject, value_for(subject.takes, token)),
        (Awaited::Value(subject, mask, relation), token) => {
            related(subject, mask, relation, value_for(subject.takes, token))
        }
        _ => Step::Fails,
    }
}

/// The value that a word is for a field, if the field takes it.
fn value_for(takes: Takes, token: Token) -> Option<Literal>
    ensures { result ≡ value_for_of takes token }
{
    match token {
        Token::Number(Some(number)) => takes.number(number),
        Token::Address(number) => takes.bytes(Literal { len: 6, number }),
        Token::Bytes(bytes) => takes.bytes(bytes),
        Token::Time(time) => takes.time(time),
        Token::Eth => takes.name(b"eth"),
        Token::Sll => takes.name(b"sll"),
        Token::Vlan => takes.name(b"vlan"),
        Token::Macsec => takes.name(b"macsec"),
        Token::Arp => takes.name(b"arp"),
        _ => None,
    }
}

/// Goes on after a mask.
fn masked(subject: Subject, mask: Option<Literal>) -> Step
    ensures { result ≡ masked_of subject mask }
{
    match mask {
        Some(mask) => Step::More(Awaited::MaskedRelation(subject, mask.number)),
        None => Step::Fails,
    }
}

/// Completes a test of a field by its value.
fn related(subject: Subject, mask: u64, relation: Relation, value: Option<Literal>) -> Step
    ensures { result ≡ related_of subject mask relation value }
{
    match value {
        Some(value) => Step::Done(tested(subject.test(mask, relation, value))),
        None => Step::Fails,
    }
}

/// The test that a field has a value of a set, if the word is a value of the field.
pub(crate) fn member(subject: Subject, mask: u64, token: Token) -> Option<Primitive>
    ensures { result ≡ member_of subject mask token }
{
    let value = value_for(subject.takes, token)?;
    Some(tested(subject.test(mask, Relation::Equal, value)))
}

/// The test that there is a value of a field.
pub(crate) fn existence(subject: Subject) -> Primitive
    ensures { result ≡ tested_of (existence_of subject) }
{
    let none = Literal { len: 0, number: 0 };
    tested(subject.test(u64::MAX, Relation::Exists, none))
}

/// Completes a primitive by its number.
fn with_number(numbered: Numbered, number: u64) -> Step
    ensures { result ≡ numbered_of numbered number }
{
    if number > u64::from(most_of(numbered)) {
        return Step::Fails;
    }
    match numbered {
        Numbered::VlanId => Step::Done(Primitive::VlanId(number as u16)),
        Numbered::OuterVlan => Step::Done(Primitive::OuterVlan(number as u16)),
        Numbered::InnerVlan => Step::Done(Primitive::InnerVlan(number as u16)),
        Numbered::EtherType => Step::Done(Primitive::EtherType(number as u16)),
        Numbered::Less => Step::Done(Primitive::Less(number as u32)),
        Numbered::Greater => Step::Done(Primitive::Greater(number as u32)),
    }
}

/// The greatest number that a primitive takes.
fn most_of(numbered: Numbered) -> u32
    ensures { result ≡ most_awaited numbered }
{
    match numbered {
        Numbered::VlanId | Numbered::OuterVlan | Numbered::InnerVlan => 4095,
        Numbered::EtherType => 65535,
        Numbered::Less | Numbered::Greater => u32::MAX,
    }
}

/// Completes a primitive by its address.
fn with_address(addressed: Addressed, address: u64) -> Primitive
    ensures { result ≡ addressed_of addressed address }
{
    match addressed {
        Addressed::Source => Primitive::Source(address),
        Addressed::Destination => Primitive::Destination(address),
        Addressed::Host => Primitive::Host(address),
    }
}

/// The error for a word that does not fit where this is awaited.
pub(crate) fn kind_of(awaited: Awaited) -> FilterErrorKind
    ensures { result ≡ kind_awaited awaited }
{
    match awaited {
        Awaited::Operand => FilterErrorKind::ExpectedOperand,
        Awaited::Operator => FilterErrorKind::ExpectedOperator,
        Awaited::VlanId => FilterErrorKind::ExpectedNumber(most_of(Numbered::VlanId)),
        Awaited::Vlan(_) => FilterErrorKind::ExpectedVlan,
        Awaited::Number(numbered) => FilterErrorKind::ExpectedNumber(most_of(numbered)),
        Awaited::EtherWord => FilterErrorKind::ExpectedEtherWord,
        Awaited::Address(_) => FilterErrorKind::ExpectedAddress,
        Awaited::Relation(_) | Awaited::MaskedRelation(..) => FilterErrorKind::ExpectedRelation,
        Awaited::Mask(subject)
        | Awaited::Value(subject, ..)
        | Awaited::FirstMember(subject, _)
        | Awaited::Member(subject, _) => value_kind(subject.takes),
        Awaited::Set(..) => FilterErrorKind::ExpectedSet,
        Awaited::SetEnd(..) => FilterErrorKind::ExpectedSetEnd,
    }
}

/// The error for a word that is no value of a field that takes these.
fn value_kind(takes: Takes) -> FilterErrorKind
    ensures { result ≡ value_kind_of takes }
{
    match takes {
        Takes::Number(most) => FilterErrorKind::ExpectedNumber(most),
        Takes::Bytes(len) => FilterErrorKind::ExpectedBytes(len),
        Takes::AnyBytes => FilterErrorKind::ExpectedAnyBytes,
        Takes::Time => FilterErrorKind::ExpectedTime,
        Takes::Header => FilterErrorKind::ExpectedHeader,
    }
}
