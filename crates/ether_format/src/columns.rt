//! The columns of a row.
ghost use Rattle.std.specs.Prelude.{◌≡◌, ◌==◌, ◌≤◌, ◌<◌, ◌∷◌, ◌++◌, [], IfNone, IfSome, List, codes, length, map};
ghost use Rattle.std.specs.List.{flat_map, slice_split};
ghost use Rattle.std.specs.Option.{option_map};
ghost use Rattle.ether_output.specs.OutputBuffer.{Takes};
ghost use Rattle.ether_format.specs.Splits.{SplitsWord};
ghost use Rattle.ether_format.specs.Csv.{csv_heading};
ghost use Rattle.ether_format.specs.Columns.{AreColumns, ColumnValue, IsUnknownIn, column_name, column_view, columns_view, common_columns, heading_text, original_column};

use crate::column::Column;
use crate::split::split_at;
use ether_fields::Section;
use ether_output::{OutputBuffer, Sink};

/// How many columns there may be after the first.
const MOST_OTHERS: usize = 31;

/// `headers.header`, `vlan.vid`, `eth.type`, `vlan.type`, `rest.type`, `fault.kind`, `arp.sha` and `arp.spa`.
static COMMON: [Column; 8] = [
    Column {
        section: Section::Headers,
        index: 0,
    },
    Column {
        section: Section::Vlan,
        index: 7,
    },
    Column {
        section: Section::Eth,
        index: 7,
    },
    Column {
        section: Section::Vlan,
        index: 8,
    },
    Column {
        section: Section::Rest,
        index: 3,
    },
    Column {
        section: Section::Fault,
        index: 2,
    },
    Column {
        section: Section::Arp,
        index: 10,
    },
    Column {
        section: Section::Arp,
        index: 11,
    },
];

/// The columns of a row, 1 to 32.
///
/// The name of a column is that of a section and that of one of its fields, with a dot between them: `frame.number`,
/// `vlan.vid`. A field is a member in [`crate::Format::Json`], but for the minute, the hour and the day of a packet's
/// time, which are columns alone. The sections are `frame`, the packet itself; `eth`, `sll`, `sll2`, `vlan`,
/// `macsec` and `arp`, its headers; `headers`, the name and the place of each header; and how the walk through them
/// ends, `rest` or `fault`.
#[derive(Clone, Copy, PartialEq, Eq, Debug)]
pub struct Columns {
    first: Column,
    others: [Column; MOST_OTHERS],
    /// How many of `others` are columns of the row, from the first on.
    count: usize,
}

impl Columns {
    /// The columns that a text names, with a comma between two: `vlan.vid,eth.src`.
    ///
    /// Returns `None` if a name is not that of a column ([`Columns::unknown_name`] gives it), or if there are more than
    /// 32.
    pub fn of_names(text: &str) -> Option<Columns>
        ensures some { IfSome result (λ it. AreColumns text.now (columns_view it)) }
        ensures none { IfNone result ((columns : List ColumnValue) → ¬ (AreColumns text.now columns)) }
    {
        Columns::of_bytes(text.as_bytes())
    }

    /// .. that the bytes of a text name.
    pub(crate) fn of_bytes(text: &[u8]) -> Option<Columns>
        ensures some { IfSome result (λ it. AreColumns text.now (columns_view it)) }
        ensures none { IfNone result ((columns : List ColumnValue) → ¬ (AreColumns text.now columns)) }
    {
        let (word, mut rest) = first_word(text);
        let mut columns = Columns::of_one(Column::of_name(word)?);
        while let Some(text) = rest {
            let (word, after) = first_word(text);
            columns.push(Column::of_name(word)?)?;
            rest = after;
        }
        Some(columns)
    }

    /// The first name in a text, with a comma between two names, that no column has. Returns `None` if each is that
    /// of a column.
    pub fn unknown_name(text: &str) -> Option<&str>
        ensures { IsUnknownIn (slice_split (λ b. b == 44) text.now) (option_map (λ s. s.now) result) }
    {
        let mut rest = text;
        while let Some((name, after)) = rest.split_once(',') {
            if Column::of_name(name.as_bytes()).is_none() {
                return Some(name);
            }
            rest = after;
        }
        if Column::of_name(rest.as_bytes()).is_none() {
            return Some(rest);
        }
        None
    }

    /// The columns that a summary counts if none are named: the headers of a packet, its VLAN identifiers, its ether
    /// types, what is wrong with it, and the senders of ARP.
    pub fn common() -> Columns
        ensures { columns_view result ≡ common_columns }
    {
        let mut others = [COMMON[1]; MOST_OTHERS];
        others[1] = COMMON[2];
        others[2] = COMMON[3];
        others[3] = COMMON[4];
        others[4] = COMMON[5];
        others[5] = COMMON[6];
        others[6] = COMMON[7];
        Columns {
            first: COMMON[0],
            others,
            count: 7,
        }
    }

    /// These columns after `frame.original`, the length that the packet had. Returns `None` if there are 32 already.
    pub fn after_original(&self) -> Option<Columns>
        ensures some { IfSome result (λ it. columns_view it ≡ original_column ∷ columns_view self.now) }
        ensures none { IfNone result (32 ≤ length (columns_view self.now)) }
    {
        let mut columns = Columns::of_one(Column {
            section: Section::Frame,
            index: 4,
        });
        columns.push(self.first)?;
        for column in self.others() {
            columns.push(*column)?;
        }
        Some(columns)
    }

    /// One column.
    fn of_one(column: Column) -> Columns
        ensures { columns_view result ≡ column_view column ∷ [] }
    {
        Columns {
            first: column,
            others: [column; MOST_OTHERS],
            count: 0,
        }
    }

    /// Appends a column. Returns `None` if there are 32 already.
    fn push(&mut self, column: Column) -> Option<()>
        ensures some { IfSome result (λ _. columns_view self.new ≡ columns_view self.old ++ (column_view column ∷ [])) }
        ensures room { IfSome result (λ _. length (columns_view self.old) < 32) }
        ensures none { IfNone result (32 ≤ length (columns_view self.old)) }
    {
        if self.count >= MOST_OTHERS {
            return None;
        }
        self.others[self.count] = column;
        self.count += 1;
        Some(())
    }

    /// The first column.
    pub(crate) fn first(&self) -> Column
        ensures { result ≡ self.now.first }
    {
        self.first
    }

    /// The columns after it.
    pub(crate) fn others(&self) -> &[Column]
        ensures { columns_view self.now ≡ column_view self.now.first ∷ map column_view result.now }
    {
        &self.others[..self.count.min(MOST_OTHERS)]
    }

    /// Writes the line of their names, with a tab between two.
    pub fn write_heading<W: Sink>(&self, out: &mut OutputBuffer<'_, W>)
        ensures { Takes W.contents W.can_fail out.old (heading_text (columns_view self.now)) out.new }
    {
        self.first.write_name(out);
        write_names_after(b"\t", self.others(), out);
        out.append(b"\n");
    }

    /// Writes the line of their names as a record of CSV.
    pub(crate) fn write_csv_heading<W: Sink>(&self, out: &mut OutputBuffer<'_, W>)
        ensures { Takes W.contents W.can_fail out.old (csv_heading (columns_view self.now)) out.new }
    {
        self.first.write_name(out);
        write_names_after(b",", self.others(), out);
        out.append(b"\r\n");
    }
}

/// Writes the names of columns, each after a separator.
fn write_names_after<W: Sink>(separator: &[u8], columns: &[Column], out: &mut OutputBuffer<'_, W>)
    ensures { Takes W.contents W.can_fail out.old
        (flat_map (λ c. separator.now ++ column_name (column_view c)) columns.now) out.new }
{
    for column in columns {
        out.append(separator);
        column.write_name(out);
    }
}

/// The text before the first comma, and that after it, if there is one.
fn first_word(text: &[u8]) -> (&[u8], Option<&[u8]>)
    ensures { SplitsWord text.now result.0.now (option_map (λ t. t.now) result.1) }
{
    match split_at(b',', text) {
        Some((word, after)) => (word, Some(after)),
        None => (text, None),
    }
}
