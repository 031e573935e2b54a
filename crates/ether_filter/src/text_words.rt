//! The words of a text.
ghost use Rattle.std.specs.Prelude.{◌≡◌, ◌+◌, ◌<◌, ◌≤◌, ◌∷◌, [], false, length, slice_index, slice_range, IfNone, IfSome};
ghost use Rattle.ether_filter.specs.Words.{class_of as class_of_byte, is_blank, are_joined as are_joined_of, words_from, IsNextWord};

/// The class of a character.
#[derive(Clone, Copy)]
pub(crate) enum Class {
    /// It separates words.
    Blank,
    /// It is a word of its own.
    Sign,
    /// `!`, which `=` can follow.
    Negation,
    /// `<` or `>`, which `=` can follow.
    Order,
    /// `=`
    Equals,
    /// It is part of a word of `&` or `|`.
    Connective,
    /// It is part of a word of other characters.
    Letter,
}

/// The offsets in a text at which a word begins and ends.
#[derive(Clone, Copy)]
pub(crate) struct Word {
    pub start: usize,
    pub end: usize,
}

/// The first word of a text from the offset `from` on.
pub(crate) fn next_word(text: &[u8], from: usize) -> Option<Word>
    requires { from ≤ length text.now }
    ensures none { IfNone result (words_from text.now from ≡ []) }
    ensures some { IfSome result (IsNextWord text.now from) }
{
    let start = word_start(text, from);
    if start == text.len() {
        return None;
    }
    let end = word_end(text, start);
    Some(Word { start, end })
}

/// The offset at which the blanks from `from` on end.
fn word_start(text: &[u8], from: usize) -> usize
    requires { from ≤ length text.now }
    ensures from { from ≤ result }
    ensures inside { result ≤ length text.now }
    ensures same { words_from text.now from ≡ words_from text.now result }
    ensures word { result < length text.now → is_blank (class_of_byte (slice_index text.now result)) ≡ false }
{
    let mut start = from;
    while start < text.len() {
        if !matches!(class_of(text[start]), Class::Blank) {
            return start;
        }
        start += 1;
    }
    start
}

/// The offset at which the word ends that begins at `start`.
fn word_end(text: &[u8], start: usize) -> usize
    requires inside { start < length text.now }
    requires word { is_blank (class_of_byte (slice_index text.now start)) ≡ false }
    ensures after { start < result }
    ensures inside { result ≤ length text.now }
    ensures word { words_from text.now start ≡ record { at = start; bytes = slice_range text.now start result }
        ∷ words_from text.now result }
{
    let mut end = start + 1;
    while end < text.len() && are_joined(class_of(text[end - 1]), class_of(text[end])) {
        end += 1;
    }
    end
}

/// The class of a character.
fn class_of(byte: u8) -> Class
    ensures { result ≡ class_of_byte byte }
{
    match byte {
        b' ' | b'\t' | b'\n' | b'\r' => Class::Blank,
        b'(' | b')' | b'{' | b'}' | b',' => Class::Sign,
        b'!' => Class::Negation,
        b'<' | b'>' => Class::Order,
        b'=' => Class::Equals,
        b'&' | b'|' => Class::Connective,
        _ => Class::Letter,
    }
}

/// Whether two neighboring characters are in one word.
fn are_joined(first: Class, second: Class) -> bool
    ensures { result ≡ are_joined_of first second }
{
    matches!(
        (first, second),
        (Class::Letter, Class::Letter)
            | (Class::Connective, Class::Connective)
            | (
                Class::Negation | Class::Order | Class::Equals,
                Class::Equals
            )
    )
}
