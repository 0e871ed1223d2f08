//! Usage errors of our own, and tips for clap's.

ghost use Rattle.std.specs.Prelude.{◌≡◌, IfOk, IfSome, false, true};
ghost use Rattle.clap.specs.Values.{kind_of};
ghost use Rattle.sixel_commands.specs.Commands.{may_get_a_tip};

use crate::commands::{
    MOST_SCREEN_SIDE, check_command, differ_command, encode_command, explain_command, list_command,
    mend_command, render_command, scan_command, show_command, sixel_command, survey_command,
};
use clap::error::ErrorKind;
use clap::{Command, Error};
use sixel_printing::printed;
use std::alloc::{AllocError, Global};

/// What clap's text of a usage error begins with.
const START: &str = "error: ";

/// What clap's text of a value that isn't taken has before its reason, if the option is a side.
const SIDE: &str = " <N>': ";

/// How clap's text of an argument that isn't expected begins if that is a backslash behind one dash.
const BACKSLASH: &str = "unexpected argument '-\\'";

/// How clap's tip on `--` begins.
const DASHES: &str = "  tip: to pass '--";

/// A usage error for this reason, with the usage text of this command.
fn error_of(
    command: Command<'_>,
    name: &str,
    kind: ErrorKind,
    reason: &str,
) -> Result<Error, AllocError>
    ensures { IfOk result (λ e. kind_of e ≡ kind) }
{
    let mut command = command.bin_name(name)?;
    command.error(kind, reason)
}

/// A usage error without a subcommand.
pub fn usage_error(alloc: Global, reason: &str) -> Result<Error, AllocError>
    ensures { IfOk result (λ e. kind_of e ≡ ErrorKind.ValueValidation) }
{
    error_of(
        sixel_command(alloc)?,
        "sixel",
        ErrorKind::ValueValidation,
        reason,
    )
}

/// A usage error of `show`: options that can't be combined.
pub fn conflict_error(alloc: Global, reason: &str) -> Result<Error, AllocError>
    ensures { IfOk result (λ e. kind_of e ≡ ErrorKind.ArgumentConflict) }
{
    error_of(
        show_command(alloc)?,
        "sixel show",
        ErrorKind::ArgumentConflict,
        reason,
    )
}

/// A usage error of `show`: no terminal has this name.
pub fn terminal_error(alloc: Global, name: &str) -> Result<Error, AllocError>
    ensures { IfOk result (λ e. kind_of e ≡ ErrorKind.InvalidValue) }
{
    let name = printed(alloc, name)?;
    let reason = format!(in alloc;
        "invalid value '{name}' for '--on <NAME>'\n  [possible values: xterm, mlterm, foot, konsole]"
    )?;
    error_of(
        show_command(alloc)?,
        "sixel show",
        ErrorKind::InvalidValue,
        reason.as_str(),
    )
}

/// What is wrong with the terminals or the rules that `check` or `survey` was given.
#[derive(Clone, Copy, Debug, PartialEq, Eq)]
pub enum NamesFault<'a> {
    /// This value of `--on` names no terminals.
    Terminals(&'a str),
    /// This value of `--ignore` names no rules.
    Rules(&'a str),
    /// This value of `--ignore` names a rule of portable pictures.
    Portable(&'a str),
    /// `--ignore` is given without `--on`.
    Alone,
}

/// A usage error of `check`: its terminals or the rules to ignore.
pub fn unchecked_error(alloc: Global, fault: NamesFault<'_>) -> Result<Error, AllocError>
    ensures { IfOk result (λ e. kind_of e ≡ ErrorKind.InvalidValue) }
{
    let reason = names_reason(alloc, fault)?;
    error_of(
        check_command(alloc)?,
        "sixel check",
        ErrorKind::InvalidValue,
        reason.as_str(),
    )
}

/// The same of `survey`.
pub fn unsurveyed_error(alloc: Global, fault: NamesFault<'_>) -> Result<Error, AllocError>
    ensures { IfOk result (λ e. kind_of e ≡ ErrorKind.InvalidValue) }
{
    let reason = names_reason(alloc, fault)?;
    error_of(
        survey_command(alloc)?,
        "sixel survey",
        ErrorKind::InvalidValue,
        reason.as_str(),
    )
}

/// A subcommand that makes pictures which named terminals show.
#[derive(Clone, Copy, Debug)]
pub enum Maker {
    Encode,
    Mend,
}

/// A usage error of this subcommand.
fn maker_error(
    alloc: Global,
    maker: Maker,
    kind: ErrorKind,
    reason: &str,
) -> Result<Error, AllocError>
    ensures { IfOk result (λ e. kind_of e ≡ kind) }
{
    match maker {
        Maker::Encode => error_of(encode_command(alloc)?, "sixel encode", kind, reason),
        Maker::Mend => error_of(mend_command(alloc)?, "sixel mend", kind, reason),
    }
}

/// This value of `--on` names no terminals.
pub fn unfitted_error(alloc: Global, maker: Maker, value: &str) -> Result<Error, AllocError>
    ensures { IfOk result (λ e. kind_of e ≡ ErrorKind.InvalidValue) }
{
    let reason = names_reason(alloc, NamesFault::Terminals(value))?;
    maker_error(alloc, maker, ErrorKind::InvalidValue, reason.as_str())
}

/// This value of `--pad` is no colour.
pub fn unpadded_error(alloc: Global, maker: Maker, value: &str) -> Result<Error, AllocError>
    ensures { IfOk result (λ e. kind_of e ≡ ErrorKind.ValueValidation) }
{
    let reason = colour_reason(alloc, "pad", value)?;
    maker_error(alloc, maker, ErrorKind::ValueValidation, reason.as_str())
}

/// `--pad` without `--on`.
pub fn lone_pad_error(alloc: Global, maker: Maker) -> Result<Error, AllocError>
    ensures { IfOk result (λ e. kind_of e ≡ ErrorKind.ArgumentConflict) }
{
    maker_error(
        alloc,
        maker,
        ErrorKind::ArgumentConflict,
        "the argument '--pad <COLOUR>' cannot be used without '--on <NAMES>'",
    )
}

fn names_reason(alloc: Global, fault: NamesFault<'_>) -> Result<String, AllocError> {
    match fault {
        NamesFault::Terminals(value) => {
            let value = printed(alloc, value)?;
            format!(in alloc;
                "invalid value '{value}' for '--on <NAMES>'\n  \
                [possible values: xterm, mlterm, foot, konsole with commas between them, or all]"
            )
        }
        NamesFault::Rules(value) => {
            let value = printed(alloc, value)?;
            format!(in alloc;
                "invalid value '{value}' for '--ignore <RULES>'\n  \
                [possible values: RasterLate, Dropped, Stale, Large, Rows, Past, Hue, Far, Introducer,\n  \
                Bare, SpaceAfter with commas between them]"
            )
        }
        NamesFault::Portable(value) => {
            let value = printed(alloc, value)?;
            format!(in alloc;
                "invalid value '{value}' for '--ignore <RULES>'\n  \
                a rule of portable pictures can't be ignored; 'sixel survey' lists each broken rule"
            )
        }
        NamesFault::Alone => String::from_str(
            alloc,
            "the argument '--ignore <RULES>' cannot be used without '--on <NAMES>'",
        ),
    }
}

/// A usage error of `mend`: this value of `--background` is no colour.
pub fn background_error(alloc: Global, value: &str) -> Result<Error, AllocError>
    ensures { IfOk result (λ e. kind_of e ≡ ErrorKind.ValueValidation) }
{
    let reason = colour_reason(alloc, "background", value)?;
    error_of(
        mend_command(alloc)?,
        "sixel mend",
        ErrorKind::ValueValidation,
        reason.as_str(),
    )
}

/// The same of `show`.
pub fn uncoloured_error(alloc: Global, value: &str) -> Result<Error, AllocError>
    ensures { IfOk result (λ e. kind_of e ≡ ErrorKind.ValueValidation) }
{
    let reason = colour_reason(alloc, "background", value)?;
    error_of(
        show_command(alloc)?,
        "sixel show",
        ErrorKind::ValueValidation,
        reason.as_str(),
    )
}

/// The same of `differ`.
pub fn undiffered_error(alloc: Global, value: &str) -> Result<Error, AllocError>
    ensures { IfOk result (λ e. kind_of e ≡ ErrorKind.ValueValidation) }
{
    let reason = colour_reason(alloc, "background", value)?;
    error_of(
        differ_command(alloc)?,
        "sixel differ",
        ErrorKind::ValueValidation,
        reason.as_str(),
    )
}

/// A usage error of `differ`: a sheet of several files.
pub fn sheet_error(alloc: Global) -> Result<Error, AllocError>
    ensures { IfOk result (λ e. kind_of e ≡ ErrorKind.ArgumentConflict) }
{
    error_of(
        differ_command(alloc)?,
        "sixel differ",
        ErrorKind::ArgumentConflict,
        "the argument '--sheet' cannot be used with several files",
    )
}

fn colour_reason(alloc: Global, option: &str, value: &str) -> Result<String, AllocError> {
    let value = printed(alloc, value)?;
    format!(in alloc;
        "invalid value '{value}' for '--{option} <COLOUR>': \
        expected three percentages, as in 100,50,0, samples, as in '#ff8000', or a name, as in navy"
    )
}

/// A usage error of `explain`: a word is no name.
pub fn unnamed_error(alloc: Global, reason: &str) -> Result<Error, AllocError>
    ensures { IfOk result (λ e. kind_of e ≡ ErrorKind.ValueValidation) }
{
    error_of(
        explain_command(alloc)?,
        "sixel explain",
        ErrorKind::ValueValidation,
        reason,
    )
}

/// This usage error of clap, with control characters by number. It gets a tip if a file was named in place of a
/// subcommand, or a second file; it loses clap's tip on `--`, and says which numbers a side may have. The kind stays.
pub fn with_tip(alloc: Global, words: &[String], error: Error) -> Error
    ensures kind { kind_of result ≡ kind_of error }
    ensures kept { may_get_a_tip (kind_of error) ≡ false → result ≡ error }
{
    if !may_get_a_tip(error.kind()) {
        return error;
    }
    match error_in_print(alloc, words, error.kind()) {
        Ok(Some(again)) => again,
        Ok(None) => error,
        Err(_) => error,
    }
}

/// Whether we may change the text of such an error.
fn may_get_a_tip(kind: ErrorKind) -> bool
    ensures { may_get_a_tip kind ≡ result }
{
    match kind {
        ErrorKind::InvalidSubcommand | ErrorKind::UnknownArgument => true,
        ErrorKind::ValueValidation | ErrorKind::TooManyValues => true,
        _ => false,
    }
}

/// Whether two kinds, of which we may change the text, are the same.
fn is_same_tip(a: ErrorKind, b: ErrorKind) -> bool
    ensures { result ≡ true → a ≡ b }
{
    match (a, b) {
        (ErrorKind::InvalidSubcommand, ErrorKind::InvalidSubcommand) => true,
        (ErrorKind::UnknownArgument, ErrorKind::UnknownArgument) => true,
        (ErrorKind::ValueValidation, ErrorKind::ValueValidation) => true,
        (ErrorKind::TooManyValues, ErrorKind::TooManyValues) => true,
        _ => false,
    }
}

/// The error of this kind that clap finds in the words as they are printed, with our text if there is one. clap prints
/// words as they are, so one with a line feed would end the line.
fn error_in_print(
    alloc: Global,
    words: &[String],
    kind: ErrorKind,
) -> Result<Option<Error>, AllocError>
    ensures { IfOk result (λ found. IfSome found (λ e. kind_of e ≡ kind)) }
{
    let words = printed_words(alloc, words)?;
    let Some(error) = error_of_words(alloc, words.as_slice(), kind)? else {
        return Ok(None);
    };
    match tipped(alloc, words.as_slice(), &error)? {
        Some(tipped) => Ok(Some(tipped)),
        None => Ok(Some(error)),
    }
}

fn printed_words(alloc: Global, words: &[String]) -> Result<Vec<String>, AllocError> {
    let mut lines = Vec::new(alloc);
    for word in words {
        lines.push(printed(alloc, word.as_str())?)?;
    }
    Ok(lines)
}

/// The error that clap finds in the words, if it is of this kind.
fn error_of_words(
    alloc: Global,
    words: &[String],
    kind: ErrorKind,
) -> Result<Option<Error>, AllocError>
    ensures { IfOk result (λ found. IfSome found (λ e. kind_of e ≡ kind)) }
{
    let command = sixel_command(alloc)?;
    let error = match command.try_get_matches_from(words) {
        Ok(_matches) => return Ok(None),
        Err(error) => error,
    };
    if is_same_tip(error.kind(), kind) {
        Ok(Some(error))
    } else {
        Ok(None)
    }
}

/// The usage error with another text, if there is one for it.
fn tipped(alloc: Global, words: &[String], error: &Error) -> Result<Option<Error>, AllocError>
    ensures { IfOk result (λ tipped. IfSome tipped (λ e. kind_of e ≡ kind_of error.now)) }
{
    let [_, name, ..] = words else {
        return Ok(None);
    };
    match error.kind() {
        ErrorKind::InvalidSubcommand if is_path(name.as_str()) => {
            let tipped = path_error(alloc, name.as_str())?;
            Ok(Some(tipped))
        }
        ErrorKind::UnknownArgument => unknown_error(alloc, words, name.as_str(), error),
        ErrorKind::ValueValidation => side_error(alloc, error),
        _ => Ok(None),
    }
}

/// Whether the name of a subcommand looks like that of a file.
fn is_path(name: &str) -> bool {
    name.contains('.') || name.contains('/')
}

/// A file in place of the subcommand.
fn path_error(alloc: Global, name: &str) -> Result<Error, AllocError>
    ensures { IfOk result (λ e. kind_of e ≡ ErrorKind.InvalidSubcommand) }
{
    let reason = format!(in alloc;
        "unrecognized subcommand '{name}'\n\n  tip: to check a file, use 'sixel check {name}'"
    )?;
    error_of(
        sixel_command(alloc)?,
        "sixel",
        ErrorKind::InvalidSubcommand,
        reason.as_str(),
    )
}

/// The error of clap for a value of a side, with the numbers that a side may have.
fn side_error(alloc: Global, error: &Error) -> Result<Option<Error>, AllocError>
    ensures { IfOk result (λ tipped. IfSome tipped (λ e. kind_of e ≡ ErrorKind.ValueValidation)) }
{
    let told = format!(in alloc; "{error}")?;
    let Some(reason) = side_reason(alloc, told.as_str())? else {
        return Ok(None);
    };
    let kind = ErrorKind::ValueValidation;
    let tipped = error_of(show_command(alloc)?, "sixel show", kind, reason.as_str())?;
    Ok(Some(tipped))
}

/// What clap's text says of a side, with the numbers that it may have.
fn side_reason(alloc: Global, told: &str) -> Result<Option<String>, AllocError> {
    let told = told.strip_prefix(START).unwrap_or(told);
    let Some((value, _)) = told.split_once(SIDE) else {
        return Ok(None);
    };
    let reason = format!(in alloc; "{value}{SIDE}expected a number from 1 to {MOST_SCREEN_SIDE}")?;
    Ok(Some(reason))
}

/// The error of clap for an argument that isn't expected, if its text changes.
fn unknown_error(
    alloc: Global,
    words: &[String],
    name: &str,
    error: &Error,
) -> Result<Option<Error>, AllocError>
    ensures { IfOk result (λ tipped. IfSome tipped (λ e. kind_of e ≡ ErrorKind.UnknownArgument)) }
{
    let told = format!(in alloc; "{error}")?;
    let told = told.as_str();
    let Some(reason) = unknown_reason(alloc, words, name, told)? else {
        return Ok(None);
    };
    let command = match name {
        "list" => list_command(alloc)?,
        "check" => check_command(alloc)?,
        "survey" => survey_command(alloc)?,
        "scan" => scan_command(alloc)?,
        "render" => render_command(alloc)?,
        "encode" => encode_command(alloc)?,
        "show" => show_command(alloc)?,
        "differ" => differ_command(alloc)?,
        "mend" => mend_command(alloc)?,
        "explain" => explain_command(alloc)?,
        _ => return Ok(None),
    };
    let called = format!(in alloc; "sixel {name}")?;
    let kind = ErrorKind::UnknownArgument;
    let tipped = error_of(command, called.as_str(), kind, reason.as_str())?;
    Ok(Some(tipped))
}

/// The first option of one dash that has a backslash, as a control character by number has.
fn numbered_option(words: &[String]) -> Option<&str> {
    for word in words {
        let text = word.as_str();
        if text.starts_with('-') && !text.starts_with("--") && text.contains('\\') {
            return Some(text);
        }
    }
    None
}

/// What clap's text says: of an option that begins with `--` without the tip on `--`, and of a second file with a tip.
/// Of an option of one dash that has a control character clap names the backslash, and we the option.
fn unknown_reason(
    alloc: Global,
    words: &[String],
    name: &str,
    told: &str,
) -> Result<Option<String>, AllocError> {
    let told = told.strip_prefix(START).unwrap_or(told);
    if told.starts_with(BACKSLASH) {
        if let Some(option) = numbered_option(words) {
            let reason = format!(in alloc; "unexpected argument '{option}' found")?;
            return Ok(Some(reason));
        }
    }
    let (reason, more) = told.split_once("\n\n").unwrap_or((told, ""));
    if more.starts_with(DASHES) {
        let plain = String::from_str(alloc, reason)?;
        return Ok(Some(plain));
    }
    if told.starts_with("unexpected argument '-") {
        return Ok(None);
    }
    let reason = format!(in alloc;
        "{reason}\n\n  tip: '{name}' reads one file; only 'check', 'survey', 'scan' and 'differ' read several"
    )?;
    Ok(Some(reason))
}
