//! Counts packets by the texts of their rows.
ghost use Rattle.std.specs.Prelude.{◌≡◌, ◌∷◌, [], false, true, OnOk, unwrap_or};
ghost use Rattle.std.specs.Option.{option_map};
ghost use Rattle.ether_capture.specs.CountTable.{count_at};
ghost use Rattle.ether_capture.specs.KeyCounts.{AddsHit};
ghost use Rattle.ether_capture.specs.RowFields.{are_empty, fields_if, key_text, row_fields};
ghost use Rattle.ether_capture.specs.Waiting.{Adds, spread};

use crate::count::Count;
use crate::count_table::CountTable;
use crate::grouping::Grouping;
use crate::heap_text::HeapText;
use ether_format::split_at;
use ether_stream::NoMemory;

/// Counts packets for the texts of their row, of all columns together or of each.
#[inline(always)]
pub(crate) fn count_texts<G: Grouping>(
    heading: &[u8],
    texts: &[u8],
    count: Count,
    key: &mut HeapText,
    counts: &mut CountTable,
) -> Result<(), NoMemory>
    ensures { OnOk result (Adds (spread G.is_joint heading.now (record { key = texts.now; count = count }))
        (count_at counts.old) (count_at counts.new)) }
{
    if G::is_joint() {
        return count_together(heading, texts, count, key, counts);
    }
    count_each(heading, texts, count, key, counts)
}

/// Counts packets for the texts of all columns of their row together, unless all are empty.
fn count_together(
    heading: &[u8],
    texts: &[u8],
    count: Count,
    key: &mut HeapText,
    counts: &mut CountTable,
) -> Result<(), NoMemory>
    ensures { OnOk result (Adds (spread true heading.now (record { key = texts.now; count = count }))
        (count_at counts.old) (count_at counts.new)) }
{
    if are_empty(texts) {
        return Ok(());
    }
    let (_, columns) = first_field(heading);
    count_text(or_nothing(columns), texts, count, key, counts)
}

/// Counts packets for each text of the columns of their row.
fn count_each(
    heading: &[u8],
    texts: &[u8],
    count: Count,
    key: &mut HeapText,
    counts: &mut CountTable,
) -> Result<(), NoMemory>
    ensures { OnOk result (Adds (spread false heading.now (record { key = texts.now; count = count }))
        (count_at counts.old) (count_at counts.new)) }
{
    let (_, mut columns) = first_field(heading);
    let mut fields = Some(texts);
    while let (Some(names), Some(texts)) = (columns, fields) {
        let (column, later_columns) = first_field(names);
        let (text, later_fields) = first_field(texts);
        if !text.is_empty() {
            count_text(column, text, count, key, counts)?;
        }
        columns = later_columns;
        fields = later_fields;
    }
    Ok(())
}

/// Counts packets for the text of a column.
fn count_text(
    column: &[u8],
    text: &[u8],
    count: Count,
    key: &mut HeapText,
    counts: &mut CountTable,
) -> Result<(), NoMemory>
    ensures { OnOk result (AddsHit (record { key = key_text column.now text.now; count = count })
        (count_at counts.old) (count_at counts.new)) }
{
    write_key(column, text, key)?;
    counts.add(key.as_slice(), count)
}

/// Replaces `key` by the key of a column's text: the column, a tab and the text.
fn write_key(column: &[u8], text: &[u8], key: &mut HeapText) -> Result<(), NoMemory>
    ensures { OnOk result (key.new.bytes.items ≡ key_text column.now text.now) }
{
    key.clear();
    key.append(column)?;
    key.append(b"\t")?;
    key.append(text)?;
    Ok(())
}

/// A text, or nothing if there is none.
pub(crate) fn or_nothing(text: Option<&[u8]>) -> &[u8]
    ensures { result.now ≡ unwrap_or (option_map (λ s. s.now) text.entry) [] }
{
    match text {
        Some(text) => text,
        None => b"",
    }
}

/// Tests that all fields are empty.
fn are_empty(texts: &[u8]) -> bool
    ensures { result ≡ are_empty (row_fields texts.now) }
{
    let mut rest = Some(texts);
    while let Some(left) = rest {
        let (text, later) = first_field(left);
        if !text.is_empty() {
            return false;
        }
        rest = later;
    }
    true
}

/// The first field, and the text after the tab that ends it, if there is one.
pub(crate) fn first_field(text: &[u8]) -> (&[u8], Option<&[u8]>)
    ensures { row_fields text.now ≡ result.0.now ∷ fields_if (option_map (λ s. s.now) result.1) }
{
    match split_at(b'\t', text) {
        Some((field, after)) => (field, Some(after)),
        None => (text, None),
    }
}
