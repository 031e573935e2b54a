//! What the arguments ask for, by their words.
ghost use Rattle.std.specs.Prelude.{◌≡◌, ℕ, Some, None, IfOk, IfErr, OnErr, Option, List, [], codes, false, map, string_bytes, unwrap_or};
ghost use Rattle.std.specs.Option.{option_map};
ghost use Rattle.clap.specs.Words.{all_of, app_of, first_of, found_of, rows_of, rule_of};
ghost use Rattle.ether_content.specs.Editing.{EditValue};
ghost use Rattle.ether_content.specs.EditingViews.{edit_view};
ghost use Rattle.ether_capture.specs.Options.{Asks, IsEdit, IsWrongEditOf, KindNames, NamesRequest, RefusesKind, RefusesRows, RefusesWords, asked_view, capture_app, file_rule, is_set, request_view};
ghost use Rattle.ether_capture.specs.OptionTable.{option_rule, option_view, with_option};

use crate::heading::counted_of;
use crate::option_table::{OptionRow, Spelling, all_options};
use crate::request::{Asked, Request, RequestError, first_of};
use crate::wrong_words::usage_of;
use clap::error::ErrorKind;
use clap::{Arg, ArgAction, ArgMatches, Command};
use ether_content::PacketEdit;
use ether_stream::{
    Usage, ValueOption, count_of, edit_of_words, fields_of, format_of, limit_of,
    status_on_fault_of, undecided_of,
};
use std::alloc::{AllocError, Global};
use std::env;

impl<'a> From<AllocError> for RequestError<'a> {
    ghost use Rattle.ether_capture.specs.declared.request.RequestError.TheVariants.{Memory};

    ghost from_gives = { λ _ error. error ≡ Memory };

    fn from(_error: AllocError) -> RequestError<'a> {
        RequestError::Memory
    }
}

/// The argument of an option.
fn argument<'a>(alloc: Global, row: &'static OptionRow<&'static str>) -> Arg<'a>
    ensures { (rule_of result ≡ option_rule (option_view row.now)) × (result.global ≡ false) }
{
    let arg = Arg::new(alloc, row.name);
    let arg = match row.spelling {
        Spelling::Name => arg.long(row.name),
        Spelling::Letter(letter) => arg.short(letter),
        Spelling::Both(letter) => arg.short(letter).long(row.name),
    };
    match row.value {
        Some(_) => arg.action(ArgAction::Set),
        None => arg.action(ArgAction::SetTrue),
    }
}

/// A command with the argument of an option, unless `clap` adds that.
fn with_option<'a>(
    command: Command<'a>,
    alloc: Global,
    row: &'static OptionRow<&'static str>,
) -> Result<Command<'a>, AllocError>
    ensures { IfOk result (λ it. app_of it ≡ with_option (app_of command.entry) (option_view row.now)) }
{
    if row.spelling.is_added() {
        return Ok(command);
    }
    let command = command.arg(argument(alloc, row))?;
    Ok(command)
}

/// The names of files.
fn files<'a>(alloc: Global) -> Arg<'a>
    ensures { (rule_of result ≡ file_rule) × (result.global ≡ false) }
{
    Arg::new(alloc, "file").action(ArgAction::Append)
}

/// The program's arguments.
fn command<'a>(alloc: Global) -> Result<Command<'a>, AllocError>
    ensures { IfOk result (λ it. app_of it ≡ capture_app) }
{
    let mut command = Command::new(alloc, "ether_capture").version("3.0.0");
    let mut rows = all_options();
    while let [row, others @ ..] = rows {
        command = with_option(command, alloc, row)?;
        rows = others;
    }
    let command = command.arg(files(alloc))?;
    Ok(command)
}

/// What the program's arguments ask for. The first of them is its own name. Options, the rows of
/// [`OPTIONS`](crate::option_table::OPTIONS), go before, between and after the names of files.
pub fn request_of_words<'a>(
    words: &'a [String],
    alloc: Global,
) -> Result<Request<'a>, RequestError<'a>>
    ensures ok { IfOk result (λ request. NamesRequest (map string_bytes words.now) (request_view request)) }
    ensures err { IfErr result (RefusesWords (map string_bytes words.now)) }
{
    let command = command(alloc)?;
    match command.try_get_matches_from(words) {
        Ok(matches) => Asked::of(&matches, alloc)?.request(),
        Err(error) => request_of_kind(error.kind(), words),
    }
}

/// What arguments ask for that `clap` answers with an error, as it does for `--help` and `--version`.
fn request_of_kind<'a>(
    kind: ErrorKind,
    words: &'a [String],
) -> Result<Request<'a>, RequestError<'a>>
    ensures ok { IfOk result (λ request. KindNames kind (request_view request)) }
    ensures err { IfErr result (RefusesKind (map string_bytes words.now) kind) }
{
    match kind {
        ErrorKind::DisplayHelp => Ok(Request::Help),
        ErrorKind::DisplayVersion => Ok(Request::Version),
        ErrorKind::OutOfMemory => Err(RequestError::Memory),
        _ => Err(RequestError::Usage(usage_of(words))),
    }
}

impl<'a> Asked<'a> {
    /// What options ask for.
    fn of(matches: &ArgMatches<'a>, alloc: Global) -> Result<Asked<'a>, RequestError<'a>>
        ensures ok { IfOk result (λ it. Asks (rows_of (found_of matches.now)) (asked_view it)) }
        ensures err { IfErr result (RefusesRows (rows_of (found_of matches.now))) }
    {
        let edit = edit_of(matches)?;
        let count = count_of(ValueOption::Count, text_of(matches, "count"))?;
        let limit = limit_of(text_of(matches, "limit"))?;
        let format = format_of(text_of(matches, "format"))?;
        let fields = fields_of(ValueOption::Fields, text_of(matches, "fields"))?;
        let by = fields_of(ValueOption::By, text_of(matches, "by"))?;
        let is_counted = is_set(matches, "stats");
        let undecided = undecided_of(text_of(matches, "undecided"))?;
        let status_on_fault = status_on_fault_of(text_of(matches, "status-on-fault"))?;
        let jobs = count_of(ValueOption::Jobs, text_of(matches, "jobs"))?;
        let files = names_of(matches, alloc)?;
        Ok(Asked {
            is_plain: is_set(matches, "plain"),
            is_write: is_set(matches, "write"),
            is_shown: is_set(matches, "progress"),
            has_bytes: is_set(matches, "bytes"),
            has_header: is_set(matches, "header"),
            is_counted,
            is_merge: is_set(matches, "merge"),
            edit,
            text: text_of(matches, "select"),
            undecided,
            status_on_fault,
            count,
            jobs,
            limit,
            format,
            fields,
            by,
            counted: counted_of(is_counted, &first_of(by, fields)),
            input: text_of(matches, "read"),
            output: text_of(matches, "output"),
            files,
        })
    }
}

/// The value of an option, if it is there.
fn text_of<'a>(matches: &ArgMatches<'a>, name: &str) -> Option<&'a str>
    ensures { option_map (λ s. s.now) result ≡ first_of name.now (rows_of (found_of matches.now)) }
{
    matches.get_str(name)
}

/// Tests that an option without a value is there.
fn is_set(matches: &ArgMatches<'_>, name: &str) -> bool
    ensures { result ≡ is_set name.now (rows_of (found_of matches.now)) }
{
    match text_of(matches, name) {
        Some(text) => text == "true",
        None => false,
    }
}

/// The names of files.
fn names_of<'a>(matches: &ArgMatches<'a>, alloc: Global) -> Result<Vec<&'a str>, AllocError>
    ensures { IfOk result (λ names. map (λ s. s.now) names.items
        ≡ unwrap_or (all_of (codes "file") (rows_of (found_of matches.now))) []) }
{
    let mut names = Vec::new(alloc);
    if let Some(found) = matches.get_strs("file") {
        names.extend_from_slice(found)?;
    }
    Ok(names)
}

/// The edit that is asked for, if there is one.
fn edit_of<'a>(matches: &ArgMatches<'a>) -> Result<Option<PacketEdit>, Usage<'a>>
    ensures ok { IfOk result (λ it. IsEdit (rows_of (found_of matches.now)) (option_map edit_view it)) }
    ensures err { OnErr result ((e : Option EditValue) → ¬ (IsEdit (rows_of (found_of matches.now)) e)) }
    ensures usage { IfErr result (IsWrongEditOf (rows_of (found_of matches.now))) }
{
    let cuts = is_set(matches, "cut-to-headers");
    let pops = is_set(matches, "pop-vlan");
    let push = text_of(matches, "push-vlan");
    edit_of_words(cuts, pops, push, text_of(matches, "set-vlan"))
}
