//! What is wrong with the words of a request.
ghost use Rattle.std.specs.Prelude.{◌≡◌};
ghost use Rattle.ether_stream.specs.Usage.{dependent_text, expected_text, needed_text, option_text};

use crate::messages::{
    BY, BYTES, CLASH, COLUMNS, COPIES, COUNT, CUT_TO_HEADERS, EDITS, FIELDS, FORMAT, FORMAT_CSV,
    FORMAT_JSON, FORMATS, HEADER, HEADERS, INPUT_TWICE, JOBS, KEEP_OR_DROP, LIMIT, NO_COLUMN,
    NO_OPTION, NO_VALUE, PACKETS, POP_VLAN, PUSH_VLAN, PUSHED_TAG, SELECT, SET_VLAN, STATS,
    STATUS_ON_FAULT, SURPLUS, TWICE, TWO_IDENTIFIERS, UNDECIDED, YES_OR_NO,
};
use std::fmt;

/// An option whose value can be wrong.
#[derive(Clone, Copy, PartialEq, Eq, Debug)]
pub enum ValueOption {
    /// `--push-vlan`.
    PushVlan,
    /// `--set-vlan`.
    SetVlan,
    /// `-c`.
    Count,
    /// `--limit`.
    Limit,
    /// `--undecided`.
    Undecided,
    /// `--status-on-fault`.
    StatusOnFault,
    /// `--format`.
    Format,
    /// `--fields`.
    Fields,
    /// `--by`.
    By,
    /// `--jobs`.
    Jobs,
}

impl ValueOption {
    /// The option as it is written.
    fn name(self) -> &'static str
        ensures { result.now ≡ option_text self }
    {
        match self {
            ValueOption::PushVlan => PUSH_VLAN,
            ValueOption::SetVlan => SET_VLAN,
            ValueOption::Count => COUNT,
            ValueOption::Limit => LIMIT,
            ValueOption::Undecided => UNDECIDED,
            ValueOption::StatusOnFault => STATUS_ON_FAULT,
            ValueOption::Format => FORMAT,
            ValueOption::Fields => FIELDS,
            ValueOption::By => BY,
            ValueOption::Jobs => JOBS,
        }
    }

    /// The values that it takes.
    fn expected(self) -> &'static str
        ensures { result.now ≡ expected_text self }
    {
        match self {
            ValueOption::PushVlan => PUSHED_TAG,
            ValueOption::SetVlan => TWO_IDENTIFIERS,
            ValueOption::Count | ValueOption::Jobs => PACKETS,
            ValueOption::Limit => HEADERS,
            ValueOption::Undecided => KEEP_OR_DROP,
            ValueOption::StatusOnFault => YES_OR_NO,
            ValueOption::Format => FORMATS,
            ValueOption::Fields | ValueOption::By => COLUMNS,
        }
    }
}

/// An option that is of no use without another one.
#[derive(Clone, Copy, PartialEq, Eq, Debug)]
pub enum DependentOption {
    /// `--undecided`.
    Undecided,
    /// `--header`.
    Header,
    /// `--format csv`.
    Csv,
    /// `--bytes`.
    Bytes,
    /// `--by`.
    By,
    /// `--cut-to-headers`.
    CutToHeaders,
    /// `--pop-vlan`.
    PopVlan,
    /// `--push-vlan`.
    PushVlan,
    /// `--set-vlan`.
    SetVlan,
}

impl DependentOption {
    /// The option as it is written.
    fn name(self) -> &'static str
        ensures { result.now ≡ dependent_text self }
    {
        match self {
            DependentOption::Undecided => UNDECIDED,
            DependentOption::Header => HEADER,
            DependentOption::Csv => FORMAT_CSV,
            DependentOption::Bytes => BYTES,
            DependentOption::By => BY,
            DependentOption::CutToHeaders => CUT_TO_HEADERS,
            DependentOption::PopVlan => POP_VLAN,
            DependentOption::PushVlan => PUSH_VLAN,
            DependentOption::SetVlan => SET_VLAN,
        }
    }

    /// The option that it needs.
    fn needed(self) -> &'static str
        ensures { result.now ≡ needed_text self }
    {
        match self {
            DependentOption::Undecided => SELECT,
            DependentOption::Header | DependentOption::Csv => FIELDS,
            DependentOption::Bytes => FORMAT_JSON,
            DependentOption::By => STATS,
            DependentOption::CutToHeaders
            | DependentOption::PopVlan
            | DependentOption::PushVlan
            | DependentOption::SetVlan => COPIES,
        }
    }
}

/// What is wrong with the words of a request.
#[derive(Clone, Copy, Debug)]
pub enum Usage<'a> {
    /// There is no such option.
    Unknown(&'a str),
    /// This option lacks its value.
    NoValue(&'a str),
    /// An option occurs twice, or has a value and takes none.
    Words,
    /// Options do not go together.
    Clash,
    /// This option is there without the one that it needs.
    Lacks(DependentOption),
    /// One file can be read, and this is another one.
    Surplus(&'a str),
    /// Standard input is named twice.
    InputTwice,
    /// There are several edits.
    Edits,
    /// No column has this name, which is in the value of an option.
    NoColumn(ValueOption, &'a str),
    /// The value of an option means nothing.
    Value(ValueOption, &'a str),
}

impl fmt::Display for Usage<'_> {
    ghost use Rattle.std.specs.Prelude.{Some};
    ghost use Rattle.ether_stream.specs.Usage.{usage_text};

    ghost output = { λ usage. Some (usage_text usage) };

    fn fmt<W: fmt::Write>(&self, f: &mut fmt::Formatter<W>) -> fmt::Result {
        match self {
            Usage::Unknown(word) => write!(f, "{word}: {NO_OPTION}"),
            Usage::NoValue(word) => write!(f, "{word}: {NO_VALUE}"),
            Usage::Words => write!(f, "{TWICE}"),
            Usage::Clash => write!(f, "{CLASH}"),
            Usage::Lacks(option) => {
                let name = option.name();
                let needed = option.needed();
                write!(f, "{name} needs {needed}")
            }
            Usage::Surplus(name) => write!(f, "{name}: {SURPLUS}"),
            Usage::InputTwice => write!(f, "{INPUT_TWICE}"),
            Usage::Edits => write!(f, "{EDITS}"),
            Usage::NoColumn(option, name) => {
                let option = option.name();
                write!(f, "{option}: {NO_COLUMN} '{name}'")
            }
            Usage::Value(option, text) => {
                let name = option.name();
                let expected = option.expected();
                write!(f, "{name} '{text}': expected {expected}")
            }
        }
    }
}
