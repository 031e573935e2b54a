//! What the options together ask for.
ghost use Rattle.std.specs.Prelude.{◌≡◌, IfOk, IfErr, IfSome, IfNone, map};
ghost use Rattle.ether_content.specs.EditingViews.{edit_view};
ghost use Rattle.std.specs.Option.{is_some, option_map};
ghost use Rattle.ether_pcap.specs.CopiedUnits.{copy_mode_view};
ghost use Rattle.ether_stream.specs.Copying.{growth_if};
ghost use Rattle.ether_stream.specs.Task.{form_view, lines_view};
ghost use Rattle.ether_capture.specs.Options.{Fits, IsFaultOf, IsRequestOf, RefusesAsked, are_several, asked_view, edit_option, excuses, first_columns, is_json, lacking, lacking_copy, names_input, names_input_twice, surplus, clashes, clashes_in_columns, clashes_with_by, columns_asked, format_named, is_brief, is_csv, statistics_asked, form_of, format_asked, heading_of, mode_of, options_of, request_view, input_of, makes_copy, named, output_of, selection_of, chooses_packets, clashes_with_merge, clashes_with_copy, forms_packets, makes_packets};

use crate::heading::{Heading, line_of, statistics_format_of, statistics_of};
use crate::statistics_format::{Counting, StatisticsFormat};
use ether_content::PacketEdit;
use ether_filter::{Filter, FilterError};
use ether_format::{Columns, Format};
use ether_pcap::CopyMode;
use ether_stream::{
    DependentOption, Form, FormatName, LineOptions, Selection, Task, Undecided, Usage, filter_of,
};
use std::num::NonZeroUsize;

/// Why the arguments ask for nothing.
#[derive(Clone, Copy, Debug)]
pub enum RequestError<'a> {
    /// They are wrong in this way.
    Usage(Usage<'a>),
    /// Memory for them was refused.
    Memory,
    /// The filter is not an expression.
    Filter(FilterError),
}

impl<'a> From<Usage<'a>> for RequestError<'a> {
    ghost use Rattle.ether_capture.specs.declared.request.RequestError.TheVariants as reasons;

    ghost from_gives = { λ usage error. error ≡ reasons.Usage usage };

    fn from(usage: Usage<'a>) -> RequestError<'a> {
        RequestError::Usage(usage)
    }
}

/// What the arguments ask for.
#[derive(Debug, Drop)]
pub enum Request<'a> {
    /// What is made of one capture.
    Run(Job<'a>),
    /// The lines of several captures.
    List(Listing<'a>),
    /// The sums of counts that were printed.
    Merge(StatisticsFormat),
    /// How the program is used.
    Help,
    /// The program's name and version.
    Version,
}

/// What is made of one capture.
#[derive(Debug, Drop)]
pub struct Job<'a> {
    /// Whether lines or a copy are made, and of what packets.
    pub task: Task<'a>,
    /// The name of the capture's file, unless it is read from standard input.
    pub input: Option<&'a str>,
    /// The name of the copy's file, unless what is made goes to standard output.
    pub output: Option<&'a str>,
    /// What is made of columns.
    pub heading: Heading,
    /// Whether to show how far it is read.
    pub is_shown: bool,
    /// How many threads are to make its lines.
    pub jobs: Option<NonZeroUsize>,
}

/// Which lines of several captures.
#[derive(Debug, Drop)]
pub struct Listing<'a> {
    /// Which packets are chosen; all of them without a selection.
    pub selection: Option<Selection>,
    /// The number of these after which the run ends; with `None` it ends at the end of the last capture.
    pub count: Option<NonZeroUsize>,
    /// Which lines a packet has.
    pub options: LineOptions<'a>,
    /// The names of their files, two at least.
    pub files: Vec<&'a str>,
    /// What is made of columns.
    pub heading: Heading,
    /// Whether to show how far they are read.
    pub is_shown: bool,
    /// How many threads are to make their lines.
    pub jobs: Option<NonZeroUsize>,
}

/// What options ask for.
#[derive(Drop)]
pub(crate) struct Asked<'a> {
    pub(crate) is_plain: bool,
    pub(crate) is_write: bool,
    pub(crate) is_shown: bool,
    pub(crate) has_bytes: bool,
    pub(crate) has_header: bool,
    pub(crate) is_counted: bool,
    pub(crate) is_merge: bool,
    pub(crate) edit: Option<PacketEdit>,
    pub(crate) text: Option<&'a str>,
    pub(crate) undecided: Option<Undecided>,
    pub(crate) status_on_fault: Option<bool>,
    pub(crate) count: Option<NonZeroUsize>,
    pub(crate) jobs: Option<NonZeroUsize>,
    pub(crate) limit: Option<usize>,
    pub(crate) format: Option<FormatName>,
    pub(crate) fields: Option<Columns>,
    pub(crate) by: Option<Columns>,
    /// The columns whose texts are counted, if that is asked for and there are 32 at most.
    pub(crate) counted: Option<Columns>,
    pub(crate) input: Option<&'a str>,
    pub(crate) output: Option<&'a str>,
    pub(crate) files: Vec<&'a str>,
}

impl<'a> Asked<'a> {
    /// Tests that there are several names.
    fn has_several(&self) -> bool
        ensures { result ≡ are_several (map (λ s. s.now) self.now.files.items) }
    {
        matches!(self.files.as_slice(), [_, _, ..])
    }

    /// Tests that a copy is asked for.
    fn is_copy(&self) -> bool
        ensures { result ≡ makes_copy (asked_view self.now) }
    {
        self.is_write || self.output.is_some()
    }

    /// What is wrong with the options and names together, if anything is.
    fn fault(&self) -> Option<Usage<'a>>
        ensures none { IfNone result (Fits (asked_view self.now)) }
        ensures some { IfSome result (IsFaultOf (asked_view self.now)) }
    {
        if let Some(option) = self.lacking() {
            return Some(Usage::Lacks(option));
        }
        if let Some(name) = self.surplus() {
            return Some(Usage::Surplus(name));
        }
        if names_input_twice(self.files.as_slice()) {
            return Some(Usage::InputTwice);
        }
        if self.clashes() {
            return Some(Usage::Clash);
        }
        None
    }

    /// The option that is there without the one that it needs, if there is one.
    fn lacking(&self) -> Option<DependentOption>
        ensures { result ≡ lacking (asked_view self.now) }
    {
        if self.undecided.is_some() && self.text.is_none() {
            return Some(DependentOption::Undecided);
        }
        if self.has_header && self.fields.is_none() && !self.is_counted {
            return Some(DependentOption::Header);
        }
        if self.is_csv() && self.fields.is_none() && !self.is_counted {
            return Some(DependentOption::Csv);
        }
        if self.has_bytes && !self.is_json() {
            return Some(DependentOption::Bytes);
        }
        if self.by.is_some() && !self.is_counted {
            return Some(DependentOption::By);
        }
        self.lacking_copy()
    }

    /// The option of an edit that is there without a copy.
    fn lacking_copy(&self) -> Option<DependentOption>
        ensures { result ≡ lacking_copy (asked_view self.now) }
    {
        if self.is_copy() {
            return None;
        }
        match &self.edit {
            Some(edit) => Some(option_of(edit)),
            None => None,
        }
    }

    /// The first name of a file after the only one that can be read, if there is one.
    fn surplus(&self) -> Option<&'a str>
        ensures { option_map (λ s. s.now) result ≡ surplus (asked_view self.now) }
    {
        match (self.input, self.files.as_slice()) {
            (Some(_), [name, ..]) => Some(*name),
            (None, [name, ..]) if self.is_merge => Some(*name),
            (None, [_, name, ..]) if self.is_copy() => Some(*name),
            _ => None,
        }
    }

    /// Tests that there is an option that does not go with the others.
    fn clashes(&self) -> bool
        ensures { result ≡ clashes (asked_view self.now) }
    {
        self.clashes_with_copy() || self.clashes_in_columns() || self.clashes_with_merge()
    }

    /// Tests that a copy is asked for with options of lines, or lines that are plain in another format.
    fn clashes_with_copy(&self) -> bool
        ensures { result ≡ clashes_with_copy (asked_view self.now) }
    {
        if self.is_copy() {
            return self.is_plain || self.limit.is_some() || self.has_format();
        }
        self.is_plain && self.has_format()
    }

    /// Tests that sums of counts are asked for with an option of captures.
    fn clashes_with_merge(&self) -> bool
        ensures { result ≡ clashes_with_merge (asked_view self.now) }
    {
        self.is_merge && (self.chooses_packets() || self.makes_packets() || self.forms_packets())
    }

    /// Tests that packets or a capture are chosen.
    fn chooses_packets(&self) -> bool
        ensures { result ≡ chooses_packets (asked_view self.now) }
    {
        self.text.is_some() || self.count.is_some() || self.input.is_some()
    }

    /// Tests that something is to be made of packets.
    fn makes_packets(&self) -> bool
        ensures { result ≡ makes_packets (asked_view self.now) }
    {
        self.is_copy()
            || self.is_plain
            || self.is_counted
            || self.limit.is_some()
            || self.fields.is_some()
    }

    /// Tests that packets are to have a form that sums of counts do not have, or that their faults count.
    fn forms_packets(&self) -> bool
        ensures { result ≡ forms_packets (asked_view self.now) }
    {
        self.status_on_fault.is_some() || self.has_bytes || self.is_brief() || self.is_csv()
    }

    /// Tests that there is an option of columns that does not go with the others.
    fn clashes_in_columns(&self) -> bool
        ensures { result ≡ clashes_in_columns (asked_view self.now) }
    {
        if self.is_counted {
            return self.has_header
                || self.has_bytes
                || self.counted.is_none()
                || self.is_brief()
                || self.is_csv()
                || self.clashes_with_by();
        }
        (self.is_brief() || self.is_json()) && self.fields.is_some()
    }

    /// Tests that columns are counted together, and others by themselves.
    fn clashes_with_by(&self) -> bool
        ensures { result ≡ clashes_with_by (asked_view self.now) }
    {
        self.by.is_some() && self.fields.is_some()
    }

    /// Tests that objects of JSON are asked for.
    fn is_json(&self) -> bool
        ensures { result ≡ is_json self.now.format }
    {
        matches!(self.format, Some(FormatName::Json))
    }

    /// Tests that CSV is asked for.
    fn is_csv(&self) -> bool
        ensures { result ≡ is_csv self.now.format }
    {
        matches!(self.format, Some(FormatName::Csv))
    }

    /// Tests that lines for the eye are asked for.
    fn is_brief(&self) -> bool
        ensures { result ≡ is_brief self.now.format }
    {
        matches!(self.format, Some(FormatName::Brief))
    }

    /// Tests that another format than lines is asked for.
    fn has_format(&self) -> bool
        ensures { result ≡ is_some (format_asked (asked_view self.now)) }
    {
        self.format().is_some()
    }

    /// The columns of rows, if these are asked for.
    fn columns(&self) -> Option<Columns>
        ensures { result ≡ columns_asked (asked_view self.now) }
    {
        if self.is_counted {
            return self.counted;
        }
        self.fields
    }

    /// The format that is asked for, if it is another than lines.
    fn format(&self) -> Option<Format>
        ensures { result ≡ format_asked (asked_view self.now) }
    {
        match self.columns() {
            Some(columns) if self.is_csv() => Some(Format::Csv(columns)),
            Some(columns) => Some(Format::Fields(columns)),
            None => format_named(self.format, self.has_bytes),
        }
    }

    /// What is made of columns.
    fn heading(&self) -> Heading
        ensures { result ≡ heading_of (asked_view self.now) }
    {
        if self.is_counted {
            return statistics_of(self.by.is_some(), &self.format, &self.counted);
        }
        if self.has_header {
            return line_of(&self.format());
        }
        Heading::Absent
    }

    /// What all options together ask for.
    pub(crate) fn request(self) -> Result<Request<'a>, RequestError<'a>>
        ensures ok { IfOk result (λ request. IsRequestOf (asked_view self.entry) (request_view request)) }
        ensures err { IfErr result (RefusesAsked (asked_view self.entry)) }
    {
        if let Some(usage) = self.fault() {
            return Err(RequestError::Usage(usage));
        }
        match filter_of(self.text) {
            Ok(_) if self.is_merge => Ok(Request::Merge(statistics_format_of(&self.format))),
            Ok(filter) if self.has_several() => Ok(Request::List(Listing {
                selection: self.selection(filter),
                count: self.count,
                options: self.options(),
                heading: self.heading(),
                files: self.files,
                is_shown: self.is_shown,
                jobs: self.jobs,
            })),
            Ok(filter) => {
                let form = self.form();
                let task = Task {
                    selection: self.selection(filter),
                    count: self.count,
                    form,
                };
                Ok(Request::Run(Job {
                    task,
                    input: self.input(),
                    output: self.output(),
                    heading: self.heading(),
                    is_shown: self.is_shown,
                    jobs: self.jobs,
                }))
            }
            Err(error) => Err(RequestError::Filter(error)),
        }
    }

    /// The name of the only file, unless standard input is asked for.
    fn input(&self) -> Option<&'a str>
        ensures { option_map (λ s. s.now) result ≡ input_of (asked_view self.now) }
    {
        match self.input {
            Some(name) => named(name),
            None => named(self.files.first().copied()?),
        }
    }

    /// The name of the copy's file, unless standard output is asked for.
    fn output(&self) -> Option<&'a str>
        ensures { option_map (λ s. s.now) result ≡ output_of (asked_view self.now) }
    {
        named(self.output?)
    }

    /// Which packets a filter selects, if there is one.
    fn selection(&self, filter: Option<Filter>) -> Option<Selection>
        ensures { result ≡ selection_of (asked_view self.now) filter }
    {
        match filter {
            Some(filter) => Some(Selection {
                filter,
                undecided: self.undecided,
            }),
            None => None,
        }
    }

    /// Lines, or a copy if one is asked for.
    fn form(&self) -> Form<'a>
        ensures { form_view result ≡ form_of (asked_view self.now) }
    {
        if self.is_copy() {
            Form::Copy {
                mode: self.mode(),
                edit: self.edit,
            }
        } else {
            Form::Lines(self.options())
        }
    }

    /// A copy is exact if all packets are copied, and none is edited.
    fn mode(&self) -> CopyMode
        ensures { copy_mode_view result ≡ mode_of (asked_view self.now) }
    {
        if self.text.is_some() || self.count.is_some() || self.edit.is_some() {
            CopyMode::Changed {
                raise: self.growth(),
            }
        } else {
            CopyMode::Exact
        }
    }

    /// The most bytes that the edit adds to a packet; 0 without an edit.
    fn growth(&self) -> u32
        ensures { result ≡ growth_if (asked_view self.now).edit }
    {
        match self.edit {
            Some(edit) => edit.growth(),
            None => 0,
        }
    }

    /// Tests that faults of headers are no failure.
    fn excuses(&self) -> bool
        ensures { result ≡ excuses (asked_view self.now).status_on_fault }
    {
        matches!(self.status_on_fault, Some(false))
    }

    /// Which lines are asked for.
    fn options(&self) -> LineOptions<'a>
        ensures { lines_view result ≡ options_of (asked_view self.now) }
    {
        LineOptions {
            file: name_bytes(self.input()),
            is_plain: self.is_plain || self.has_format(),
            format: self.format(),
            limit: self.limit,
            before: None,
            excuses: self.excuses(),
        }
    }
}

/// The option of an edit.
fn option_of(edit: &PacketEdit) -> DependentOption
    ensures { result ≡ edit_option (edit_view edit.now) }
{
    match edit {
        PacketEdit::CutToHeaders => DependentOption::CutToHeaders,
        PacketEdit::PopVlan => DependentOption::PopVlan,
        PacketEdit::PushVlan { .. } => DependentOption::PushVlan,
        PacketEdit::SetVlan { .. } => DependentOption::SetVlan,
    }
}

/// Tests that standard input is among these names twice.
fn names_input_twice(names: &[&str]) -> bool
    ensures { result ≡ names_input_twice (map (λ s. s.now) names.now) }
{
    let mut rest = names;
    while let [name, others @ ..] = rest {
        if *name == "-" {
            return names_input(others);
        }
        rest = others;
    }
    false
}

/// Tests that standard input is among these names.
fn names_input(names: &[&str]) -> bool
    ensures { result ≡ names_input (map (λ s. s.now) names.now) }
{
    let mut rest = names;
    while let [name, others @ ..] = rest {
        if *name == "-" {
            return true;
        }
        rest = others;
    }
    false
}

/// The columns of the first option that is there.
pub(crate) fn first_of(by: Option<Columns>, fields: Option<Columns>) -> Option<Columns>
    ensures { result ≡ first_columns by fields }
{
    match by {
        Some(columns) => Some(columns),
        None => fields,
    }
}

/// The format of this name, unless it has columns; objects of JSON with all bytes of a packet if `has_bytes`.
fn format_named(name: Option<FormatName>, has_bytes: bool) -> Option<Format>
    ensures { result ≡ format_named name has_bytes }
{
    match name {
        Some(FormatName::Json) if has_bytes => Some(Format::JsonBytes),
        Some(FormatName::Json) => Some(Format::Json),
        Some(FormatName::Brief) => Some(Format::Brief),
        Some(FormatName::Csv) | None => None,
    }
}

impl Request<'_> {
    /// How packets are counted, if that is asked for.
    pub(crate) fn statistics(&self) -> Option<Counting>
        ensures { result ≡ statistics_asked (request_view self.now) }
    {
        match self {
            Request::Run(job) => job.heading.statistics(),
            Request::List(listing) => listing.heading.statistics(),
            Request::Merge(_) | Request::Help | Request::Version => None,
        }
    }
}

/// A name of a file, unless it is that of a standard stream.
pub(crate) fn named(name: &str) -> Option<&str>
    ensures { option_map (λ s. s.now) result ≡ named name.entry.now }
{
    if name == "-" {
        return None;
    }
    Some(name)
}

/// The bytes of a name, if there is one.
pub(crate) fn name_bytes(name: Option<&str>) -> Option<&[u8]>
    ensures { option_map (λ n. n.now) result ≡ option_map (λ s. s.now) name.entry }
{
    match name {
        Some(name) => Some(name.as_bytes()),
        None => None,
    }
}
