//! What is made of columns.
ghost use Rattle.std.specs.Prelude.{◌≡◌};
ghost use Rattle.ether_capture.specs.Options.{AreCountedColumns, format_in, line_of, statistics_format_of, statistics_in, statistics_of};

use crate::statistics_format::{Counting, StatisticsFormat};
use ether_format::{Columns, Format};
use ether_stream::FormatName;

/// What is made of columns.
#[derive(Clone, Copy, Debug)]
pub enum Heading {
    /// Rows, if columns are asked for.
    Absent,
    /// A line of their names in this format, and then rows.
    Line(Format),
    /// Counts of the texts in the rows, whose first column is the length of the packet.
    Statistics(Counting, Columns),
}

impl Heading {
    /// The format of the line of names, if one is written first.
    pub(crate) fn format(&self) -> Option<Format>
        ensures { result ≡ format_in self.now }
    {
        match self {
            Heading::Absent => None,
            Heading::Line(format) => Some(*format),
            Heading::Statistics(_, columns) => Some(Format::Fields(*columns)),
        }
    }

    /// How packets are counted, if that is asked for.
    pub(crate) fn statistics(&self) -> Option<Counting>
        ensures { result ≡ statistics_in self.now }
    {
        match self {
            Heading::Statistics(counting, _) => Some(*counting),
            Heading::Absent | Heading::Line(_) => None,
        }
    }
}

/// Counts of the texts of columns, of each or of all together, in a format.
pub(crate) fn statistics_of(
    is_joint: bool,
    format: &Option<FormatName>,
    columns: &Option<Columns>,
) -> Heading
    ensures { result ≡ statistics_of is_joint format.now columns.now }
{
    match columns {
        Some(columns) => Heading::Statistics(
            Counting {
                is_joint,
                format: statistics_format_of(format),
            },
            *columns,
        ),
        None => Heading::Absent,
    }
}

/// The format of counts.
pub(crate) fn statistics_format_of(format: &Option<FormatName>) -> StatisticsFormat
    ensures { result ≡ statistics_format_of format.now }
{
    match format {
        Some(FormatName::Json) => StatisticsFormat::Json,
        _ => StatisticsFormat::Text,
    }
}

/// A line of the names of columns in a format.
pub(crate) fn line_of(format: &Option<Format>) -> Heading
    ensures { result ≡ line_of format.now }
{
    match format {
        Some(format) => Heading::Line(*format),
        None => Heading::Absent,
    }
}

/// The columns whose texts are counted: the length of the packet, and then these, or common ones. Returns `None` if
/// nothing is counted, or if these would be more than 32.
pub(crate) fn counted_of(is_counted: bool, fields: &Option<Columns>) -> Option<Columns>
    ensures { AreCountedColumns is_counted fields.now result }
{
    if !is_counted {
        return None;
    }
    match fields {
        Some(columns) => columns.after_original(),
        None => Columns::common().after_original(),
    }
}
