//! What the words of an expression mean.
ghost use Rattle.std.specs.Prelude.{◌≡◌, map};
ghost use Rattle.ether_filter.specs.Tokens.{meaning_among, token_of as token_of_bytes};

use crate::byte_text::literal_of;
use crate::field_test::Relation;
use crate::node::Operator;
use crate::numeral::{address_of, wide_number_of};
use crate::subject::{Literal, Subject, subject_of};
use crate::time_text::time_of;

/// What a word of an expression means.
#[derive(Clone, Copy)]
pub(crate) enum Token {
    Open,
    Close,
    Not,
    Join(Operator),
    Vlan,
    Outer,
    Inner,
    Macsec,
    Eth,
    Sll,
    Arp,
    Ip,
    Ip6,
    Ether,
    Proto,
    Src,
    Dst,
    Host,
    Broadcast,
    Multicast,
    Refused,
    Cut,
    Less,
    Greater,
    /// A number; `None` if it does not fit in 64 bits.
    Number(Option<u64>),
    Address(u64),
    /// The bytes of a value, other than those of an address.
    Bytes(Literal),
    /// The nanoseconds since the beginning of 1970.
    Time(u64),
    Field(Subject),
    Relation(Relation),
    /// `&`
    Mask,
    In,
    OpenSet,
    CloseSet,
    Comma,
    /// A word that no expression has.
    Unknown,
}

/// A word with a meaning of its own.
#[derive(Clone, Copy)]
struct Keyword {
    spelling: &'static [u8],
    token: Token,
}

const KEYWORDS: [Keyword; 40] = [
    Keyword {
        spelling: b"(",
        token: Token::Open,
    },
    Keyword {
        spelling: b")",
        token: Token::Close,
    },
    Keyword {
        spelling: b"not",
        token: Token::Not,
    },
    Keyword {
        spelling: b"!",
        token: Token::Not,
    },
    Keyword {
        spelling: b"and",
        token: Token::Join(Operator::And),
    },
    Keyword {
        spelling: b"&&",
        token: Token::Join(Operator::And),
    },
    Keyword {
        spelling: b"or",
        token: Token::Join(Operator::Or),
    },
    Keyword {
        spelling: b"||",
        token: Token::Join(Operator::Or),
    },
    Keyword {
        spelling: b"vlan",
        token: Token::Vlan,
    },
    Keyword {
        spelling: b"outer",
        token: Token::Outer,
    },
    Keyword {
        spelling: b"inner",
        token: Token::Inner,
    },
    Keyword {
        spelling: b"macsec",
        token: Token::Macsec,
    },
    Keyword {
        spelling: b"eth",
        token: Token::Eth,
    },
    Keyword {
        spelling: b"sll",
        token: Token::Sll,
    },
    Keyword {
        spelling: b"arp",
        token: Token::Arp,
    },
    Keyword {
        spelling: b"ip",
        token: Token::Ip,
    },
    Keyword {
        spelling: b"ip6",
        token: Token::Ip6,
    },
    Keyword {
        spelling: b"ether",
        token: Token::Ether,
    },
    Keyword {
        spelling: b"proto",
        token: Token::Proto,
    },
    Keyword {
        spelling: b"src",
        token: Token::Src,
    },
    Keyword {
        spelling: b"dst",
        token: Token::Dst,
    },
    Keyword {
        spelling: b"host",
        token: Token::Host,
    },
    Keyword {
        spelling: b"broadcast",
        token: Token::Broadcast,
    },
    Keyword {
        spelling: b"multicast",
        token: Token::Multicast,
    },
    Keyword {
        spelling: b"refused",
        token: Token::Refused,
    },
    Keyword {
        spelling: b"fault",
        token: Token::Refused,
    },
    Keyword {
        spelling: b"cut",
        token: Token::Cut,
    },
    Keyword {
        spelling: b"less",
        token: Token::Less,
    },
    Keyword {
        spelling: b"greater",
        token: Token::Greater,
    },
    Keyword {
        spelling: b"==",
        token: Token::Relation(Relation::Equal),
    },
    Keyword {
        spelling: b"!=",
        token: Token::Relation(Relation::NotEqual),
    },
    Keyword {
        spelling: b"<",
        token: Token::Relation(Relation::Less),
    },
    Keyword {
        spelling: b"<=",
        token: Token::Relation(Relation::AtMost),
    },
    Keyword {
        spelling: b">",
        token: Token::Relation(Relation::Greater),
    },
    Keyword {
        spelling: b">=",
        token: Token::Relation(Relation::AtLeast),
    },
    Keyword {
        spelling: b"&",
        token: Token::Mask,
    },
    Keyword {
        spelling: b"in",
        token: Token::In,
    },
    Keyword {
        spelling: b"{",
        token: Token::OpenSet,
    },
    Keyword {
        spelling: b"}",
        token: Token::CloseSet,
    },
    Keyword {
        spelling: b",",
        token: Token::Comma,
    },
];

/// What a word means.
pub(crate) fn token_of(word: &[u8]) -> Token
    ensures { result ≡ token_of_bytes word.now }
{
    if let Some(token) = meaning_in(&KEYWORDS, word) {
        return token;
    }
    if let Some(address) = address_of(word) {
        return Token::Address(address);
    }
    if let Some(bytes) = literal_of(word) {
        return Token::Bytes(bytes);
    }
    if let Some(subject) = subject_of(word) {
        return Token::Field(subject);
    }
    if let Some(time) = time_of(word) {
        return Token::Time(time);
    }
    match wide_number_of(word) {
        Some(number) => Token::Number(number),
        None => Token::Unknown,
    }
}

/// What a word means, if it is one of these.
fn meaning_in(keywords: &[Keyword], word: &[u8]) -> Option<Token>
    ensures { result ≡ meaning_among (map (λ k. (k.spelling.now, k.token)) keywords.now) word.now }
{
    for keyword in keywords {
        if keyword.spelling == word {
            return Some(keyword.token);
        }
    }
    None
}
