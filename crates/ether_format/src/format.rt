//! How the text of a packet is formed.
ghost use Rattle.std.specs.Prelude.{IfNone, IfSome};
ghost use Rattle.ether_output.specs.OutputBuffer.{Takes};
ghost use Rattle.ether_format.specs.Formats.{NamesFormat};
ghost use Rattle.ether_format.specs.Texts.{format_heading};

use crate::Columns;
use ether_output::{OutputBuffer, Sink};

/// How the text of a packet is formed.
#[derive(Clone, Copy, PartialEq, Eq, Debug)]
pub enum Format {
    /// A line of JSON (RFC 8259): an object with the packet's members, a list of its headers, and what is left or
    /// wrong.
    Json,
    /// As [`Format::Json`], but with each byte of the packet: what is left or wrong also has the bytes after the headers,
    /// as `bytes`, in hexadecimal digits. A frame check sequence is among these, and so `fcs` is `null`. A SecTag or a
    /// header of cooked capture v2 has its reserved bits, as `reserved`, if they are not 0.
    JsonBytes,
    /// A line for the eye: number and time, addresses, tags and types by name, and what is left or wrong.
    Brief,
    /// A row of columns, with a tab between two.
    Fields(Columns),
    /// A record of CSV (RFC 4180): columns with a comma between two, on a line that ends with CR LF.
    Csv(Columns),
}

impl Format {
    /// Writes the line of the names of columns, if the format has columns.
    pub fn write_heading<W: Sink>(&self, out: &mut OutputBuffer<'_, W>)
        ensures { Takes W.contents W.can_fail out.old (format_heading self.now) out.new }
    {
        match self {
            Format::Json | Format::JsonBytes | Format::Brief => {}
            Format::Fields(columns) => columns.write_heading(out),
            Format::Csv(columns) => columns.write_csv_heading(out),
        }
    }

    /// The format that a text names: `json`, `brief`, or columns, as [`Columns::of_names`] reads them.
    ///
    /// ```
    /// assert_eq!(rt; Format::of_text(b"json"), Some(Format::Json));
    /// assert!(rt; Format::of_text(b"eth.src,vlan.vid").is_some());
    /// assert!(rt; Format::of_text(b"xml").is_none());
    /// ```
    pub fn of_text(text: &[u8]) -> Option<Format>
        ensures some { IfSome result (λ it. NamesFormat text.now it) }
        ensures none { IfNone result ((it : Format) → ¬ (NamesFormat text.now it)) }
    {
        if text == b"json".as_slice() {
            return Some(Format::Json);
        }
        if text == b"brief".as_slice() {
            return Some(Format::Brief);
        }
        match Columns::of_bytes(text) {
            Some(columns) => Some(Format::Fields(columns)),
            None => None,
        }
    }
}
