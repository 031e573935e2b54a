//! What the arguments ask for, by their words.
ghost use Rattle.std.specs.Prelude.{◌≡◌, ℕ, IfSome, IfNone, IfOk, IfErr, OnErr, Option, List, [], codes, false, map, string_bytes, unwrap_or};
ghost use Rattle.std.specs.Option.{option_map};
ghost use Rattle.clap.specs.Words.{all_of, app_of, first_of, found_of, rows_of, rule_of};
ghost use Rattle.ether_make.specs.Options.{Asks, IsIfAny, IsNumber, IsNumberOf, IsWrongValue, KindNames, NamesRequest, RefusesKind, RefusesRows, RefusesWords, file_rule, form_in, is_set, job_view, make_app, request_view};
ghost use Rattle.ether_make.specs.OptionTable.{option_rule, option_view, with_option};

use crate::option_table::{OptionRow, Spelling, all_options};
use crate::request::{Job, NumberOption, Request, RequestError, Usage};
use crate::settings::{Form, Settings};
use crate::wrong_words::usage_of;
use clap::error::ErrorKind;
use clap::{Arg, ArgAction, ArgMatches, Command};
use std::alloc::{AllocError, Global};

impl<'a> From<AllocError> for RequestError<'a> {
    ghost use Rattle.ether_make.specs.declared.request.RequestError.TheVariants.{Memory};

    ghost from_gives = { λ _ error. error ≡ Memory };

    fn from(_error: AllocError) -> RequestError<'a> {
        RequestError::Memory
    }
}

impl<'a> From<Usage<'a>> for RequestError<'a> {
    ghost use Rattle.ether_make.specs.declared.request.RequestError.TheVariants.{Usage as Wrong};

    ghost from_gives = { λ usage error. error ≡ Wrong usage };

    fn from(usage: Usage<'a>) -> RequestError<'a> {
        RequestError::Usage(usage)
    }
}

/// The argument of an option.
fn argument<'a>(alloc: Global, row: &'static OptionRow<&'static str>) -> Arg<'a>
    ensures { (rule_of result ≡ option_rule (option_view row.now)) × (result.global ≡ false) }
{
    let arg = Arg::new(alloc, row.name);
    let arg = match row.spelling {
        Spelling::Name => arg.long(row.name),
        Spelling::Letter(letter) => arg.short(letter),
        Spelling::Both(letter) => arg.short(letter).long(row.name),
    };
    match row.value {
        Some(_) => arg.action(ArgAction::Set),
        None => arg.action(ArgAction::SetTrue),
    }
}

/// A command with the argument of an option, unless `clap` adds that.
fn with_option<'a>(
    command: Command<'a>,
    alloc: Global,
    row: &'static OptionRow<&'static str>,
) -> Result<Command<'a>, AllocError>
    ensures { IfOk result (λ it. app_of it ≡ with_option (app_of command.entry) (option_view row.now)) }
{
    if row.spelling.is_added() {
        return Ok(command);
    }
    let command = command.arg(argument(alloc, row))?;
    Ok(command)
}

/// The names of files.
fn files<'a>(alloc: Global) -> Arg<'a>
    ensures { (rule_of result ≡ file_rule) × (result.global ≡ false) }
{
    Arg::new(alloc, "file").action(ArgAction::Append)
}

/// The program's arguments.
fn command<'a>(alloc: Global) -> Result<Command<'a>, AllocError>
    ensures { IfOk result (λ it. app_of it ≡ make_app) }
{
    let mut command = Command::new(alloc, "ether_make").version("3.0.0");
    let mut rows = all_options();
    while let [row, others @ ..] = rows {
        command = with_option(command, alloc, row)?;
        rows = others;
    }
    let command = command.arg(files(alloc))?;
    Ok(command)
}

/// What the program's arguments ask for. The first of them is its own name. Options, the rows of
/// [`OPTIONS`](crate::option_table::OPTIONS), go before, between and after the names of files.
pub fn request_of_words<'a>(
    words: &'a [String],
    alloc: Global,
) -> Result<Request<'a>, RequestError<'a>>
    ensures ok { IfOk result (λ request. NamesRequest (map string_bytes words.now) (request_view request)) }
    ensures err { IfErr result (RefusesWords (map string_bytes words.now)) }
{
    let command = command(alloc)?;
    match command.try_get_matches_from(words) {
        Ok(matches) => Ok(Request::Make(job_of(&matches, alloc)?)),
        Err(error) => request_of_kind(error.kind(), words),
    }
}

/// What arguments ask for that `clap` answers with an error, as it does for `--help` and `--version`.
fn request_of_kind<'a>(
    kind: ErrorKind,
    words: &'a [String],
) -> Result<Request<'a>, RequestError<'a>>
    ensures ok { IfOk result (λ request. KindNames kind (request_view request)) }
    ensures err { IfErr result (RefusesKind (map string_bytes words.now) kind) }
{
    match kind {
        ErrorKind::DisplayHelp => Ok(Request::Help),
        ErrorKind::DisplayVersion => Ok(Request::Version),
        ErrorKind::OutOfMemory => Err(RequestError::Memory),
        _ => Err(RequestError::Usage(usage_of(words))),
    }
}

/// The frames that options ask for.
fn job_of<'a>(matches: &ArgMatches<'a>, alloc: Global) -> Result<Job<'a>, RequestError<'a>>
    ensures ok { IfOk result (λ it. Asks (rows_of (found_of matches.now)) (job_view it)) }
    ensures err { IfErr result (RefusesRows (rows_of (found_of matches.now))) }
{
    let count = number_of(NumberOption::Count, text_of(matches, "count"))?;
    let seed = number_of(NumberOption::Seed, text_of(matches, "seed"))?;
    let rate = number_of(NumberOption::Rate, text_of(matches, "rate"))?;
    let files = names_of(matches, alloc)?;
    Ok(Job {
        settings: Settings {
            pad: is_set(matches, "pad"),
            fcs: is_set(matches, "fcs"),
            form: form_of(is_set(matches, "hex")),
            count,
            seed: seed.unwrap_or(0),
            rate,
        },
        output: text_of(matches, "output"),
        files,
    })
}

/// How frames are written.
fn form_of(is_hex: bool) -> Form
    ensures { result ≡ form_in is_hex }
{
    if is_hex { Form::Hex } else { Form::Capture }
}

/// The value of an option, if it is there.
fn text_of<'a>(matches: &ArgMatches<'a>, name: &str) -> Option<&'a str>
    ensures { option_map (λ s. s.now) result ≡ first_of name.now (rows_of (found_of matches.now)) }
{
    matches.get_str(name)
}

/// Tests that an option without a value is there.
fn is_set(matches: &ArgMatches<'_>, name: &str) -> bool
    ensures { result ≡ is_set name.now (rows_of (found_of matches.now)) }
{
    match text_of(matches, name) {
        Some(text) => text == "true",
        None => false,
    }
}

/// The names of files.
fn names_of<'a>(matches: &ArgMatches<'a>, alloc: Global) -> Result<Vec<&'a str>, AllocError>
    ensures { IfOk result (λ names. map (λ s. s.now) names.items
        ≡ unwrap_or (all_of (codes "file") (rows_of (found_of matches.now))) []) }
{
    let mut names = Vec::new(alloc);
    if let Some(found) = matches.get_strs("file") {
        names.extend_from_slice(found)?;
    }
    Ok(names)
}

/// The value of an option that has a number, if it is there.
fn number_of<'a>(option: NumberOption, text: Option<&'a str>) -> Result<Option<u64>, Usage<'a>>
    ensures ok { IfOk result (IsIfAny (IsNumberOf option) (option_map (λ s. s.now) text.entry)) }
    ensures err { OnErr result ((n : Option ℕ)
        → ¬ (IsIfAny (IsNumberOf option) (option_map (λ s. s.now) text.entry) n)) }
    ensures usage { IfErr result (IsWrongValue option (option_map (λ s. s.now) text.entry)) }
{
    let Some(text) = text else {
        return Ok(None);
    };
    let Some(number) = number_in(text) else {
        return Err(Usage::Value(option, text));
    };
    if number == 0 && option == NumberOption::Rate {
        return Err(Usage::Value(option, text));
    }
    Ok(Some(number))
}

/// The number that a text is.
fn number_in(text: &str) -> Option<u64>
    ensures some { IfSome result (IsNumber text.now) }
    ensures none { IfNone result ((n : ℕ) → ¬ (IsNumber text.now n)) }
{
    text.parse::<u64>().ok()
}
