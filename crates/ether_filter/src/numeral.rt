//! Numbers and addresses as words.
ghost use Rattle.std.specs.Prelude.{◌≡◌, ◌+◌, ◌*◌, ◌^◌, ◌<◌, ◌≤◌, min, None, IfSome, MatchOption, length, nat_eq, slice_index};
ghost use Rattle.std.specs.List.{list_all};
ghost use Rattle.ether_filter.specs.Numerals.{digits_in, IsCapped, IsCappedNumber, whole_number_in, number_in, wide_number_in, narrowed as narrowed_of, colon_places, address_in};

/// Numbers from this one on are read as this one. It is the first that does not fit in 64 bits.
const CAP: u128 = 1 << 64;

/// The number in a word: hexadecimal digits after `0x`, or decimal digits without a leading zero. `None` if the word
/// is not a number, and `Some(None)` if the number does not fit in 32 bits.
///
/// ```
/// assert_eq!(rt; number_of(b"0x88A8"), Some(Some(34984)));
/// assert_eq!(rt; number_of(b"4294967296"), Some(None));
/// assert_eq!(rt; number_of(b"07"), None);
/// ```
pub fn number_of(word: &[u8]) -> Option<Option<u32>>
    ensures { result ≡ number_in word.now }
{
    match capped_number_of(word) {
        Some(number) => Some(u32::try_from(number).ok()),
        None => None,
    }
}

/// The number in a word, as [`number_of`] says, if it fits in 64 bits.
pub(crate) fn wide_number_of(word: &[u8]) -> Option<Option<u64>>
    ensures { result ≡ wide_number_in word.now }
{
    match capped_number_of(word) {
        Some(number) => Some(u64::try_from(number).ok()),
        None => None,
    }
}

/// The number in a word, at most the cap.
fn capped_number_of(word: &[u8]) -> Option<u128>
    ensures { MatchOption result (whole_number_in word.now ≡ None) (IsCappedNumber word.now) }
{
    if word.len() > 1 && word[0] == b'0' {
        if word[1] != b'x' {
            return None;
        }
        digits_of(&word[2..], 16)
    } else {
        digits_of(word, 10)
    }
}

/// The address in a word, as one number: six pairs of hexadecimal digits, with colons between the pairs or without.
pub(crate) fn address_of(word: &[u8]) -> Option<u64>
    ensures { result ≡ address_in word.now }
{
    if word.len() == 12 {
        return narrowed(digits_of(word, 16));
    }
    if word.len() != 17 {
        return None;
    }
    if !has_colons(word) {
        return None;
    }
    let digits = [
        word[0], word[1], word[3], word[4], word[6], word[7], word[9], word[10], word[12],
        word[13], word[15], word[16],
    ];
    narrowed(digits_of(&digits, 16))
}

/// The number of up to sixteen hexadecimal digits.
pub(crate) fn hex_of(digits: &[u8]) -> Option<u64>
    requires { length digits.now ≤ 16 }
    ensures { result ≡ digits_in 16 digits.now }
{
    narrowed(digits_of(digits, 16))
}

/// The number of up to nine decimal digits.
pub(crate) fn decimal_of(digits: &[u8]) -> Option<u64>
    requires { length digits.now ≤ 9 }
    ensures value { result ≡ digits_in 10 digits.now }
    ensures few { IfSome result (λ number. number < 1000000000) }
{
    narrowed(digits_of(digits, 10))
}

/// A number, if it fits in 64 bits.
fn narrowed(number: Option<u128>) -> Option<u64>
    ensures { result ≡ narrowed_of number }
{
    match number {
        Some(number) => u64::try_from(number).ok(),
        None => None,
    }
}

/// Whether the colons of an address are in their places.
fn has_colons(word: &[u8]) -> bool
    requires { length word.now ≡ 17 }
    ensures { result ≡ list_all (λ i. nat_eq (slice_index word.now i) 58) colon_places }
{
    word[2] == b':' && word[5] == b':' && word[8] == b':' && word[11] == b':' && word[14] == b':'
}

/// The number that digits write, at most the cap. `None` if there are no digits, or other characters.
fn digits_of(digits: &[u8], radix: u32) -> Option<u128>
    requires least { 2 ≤ radix }
    requires most { radix ≤ 16 }
    ensures { MatchOption result (digits_in radix digits.now ≡ None) (IsCapped radix digits.now) }
{
    if digits.is_empty() {
        return None;
    }
    let mut number = 0;
    for digit in digits {
        let value = char::from(*digit).to_digit(radix)?;
        number = appended(number, radix, value);
    }
    Some(number)
}

/// The number with a further digit, at most the cap.
fn appended(number: u128, radix: u32, digit: u32) -> u128
    requires number { number ≤ 2 ^ 64 }
    requires radix { radix ≤ 16 }
    requires digit { digit < radix }
    ensures { result ≡ min (number * radix + digit) (2 ^ 64) }
{
    (number * u128::from(radix) + u128::from(digit)).min(CAP)
}
