//! Texts of the input in messages.
use std::fmt;

/// How many characters of a text a message shows.
const MOST: usize = 64;

/// A text of the input as a message shows it, on one line: a character that is not a printable one of ASCII, or a
/// backslash, is an escape of JSON (RFC 8259, 7), and `..` is in the place of what follows 64 characters.
#[derive(Drop)]
pub struct Shown<'a>(pub &'a str);

impl fmt::Display for Shown<'_> {
    fn fmt<W: fmt::Write>(&self, f: &mut fmt::Formatter<W>) -> fmt::Result {
        for (at, character) in self.0.chars().enumerate() {
            if at == MOST {
                return f.write_str("..");
            }
            write!(f, "{}", ShownCharacter(character))?;
        }
        Ok(())
    }
}

/// A character of such a text. Its escape has two numbers if it has more than 16 bits.
#[derive(Drop)]
struct ShownCharacter(char);

impl fmt::Display for ShownCharacter {
    fn fmt<W: fmt::Write>(&self, f: &mut fmt::Formatter<W>) -> fmt::Result {
        let character = self.0;
        let code = u32::from(character);
        match code {
            0x5C => f.write_str("\\\\"),
            0x20..=0x7E => write!(f, "{character}"),
            0..=0xFFFF => write!(f, "\\u{code:04x}"),
            _ => {
                let more = code - 0x1_0000;
                let (high, low) = (0xD800 + more / 0x400, 0xDC00 + more % 0x400);
                write!(f, "\\u{high:04x}\\u{low:04x}")
            }
        }
    }
}
