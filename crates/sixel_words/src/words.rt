//! The command line, over clap.

ghost use Rattle.std.specs.Prelude.{◌≡◌, ℕ, IfOk, IfErr, IfSome, IsNone, List, [], codes, map};
ghost use Rattle.clap.specs.Walk.{all_of, rows_of};
ghost use Rattle.clap.specs.Values.{kind_of};
ghost use Rattle.clap.specs.Matches.{found_of};
ghost use Rattle.std.specs.String.{string_bytes};
ghost use Rattle.sixel_report.specs.declared.task.Task.{Task as ATask};
ghost use Rattle.sixel_report.specs.Outputs.{HasSides};
ghost use Rattle.sixel_words.specs.Words.{HoldsError, IsExplanationOf, IsAskedIn, IsFaultFor, IsRefusal, IsRequestOf};
ghost use Rattle.sixel_words.specs.Words.{IsNoHelp, IsSortedOut, IsTask, IsTaskOf, IsUnexplained, files_of, is_given};
ghost use Rattle.sixel_words.specs.Words.{kinds_of, lines_of};
ghost use Rattle.sixel_explain.specs.Explanations.{Asks};

use crate::check_words::{check_task, names_fault, survey_task};
use crate::differ_words::{differ_error, differ_task};
use crate::explain_errors::explain_error;
use crate::fit_words::{encode_task, maker_error, mend_error, mend_task};
use crate::options::{colour_in, flag_of, format_of, profile_of};
use crate::show_errors::show_error;
use crate::show_words::show_task;
use clap::error::ErrorKind;
use clap::{ArgMatches, Error};
use sixel_commands::{
    Maker, sixel_command, unchecked_error, unsurveyed_error, usage_error, with_tip,
};
use sixel_explain::{Topic, topics_asked};
use sixel_report::{Lines, Request, Task};
use std::alloc::{AllocError, Global};

/// Why the arguments give no task. `Usage` and `Help` hold the text to print, which ends with a newline.
#[derive(Debug, Drop)]
pub enum WordsFault {
    /// A usage error: the arguments are refused, or name no subcommand.
    Usage(Error),
    /// Help or the version was asked for.
    Help(Error),
    /// Explanations were asked for: of topics, or without one the list of names.
    Explanation(Vec<Topic>),
    /// An allocation failed.
    OutOfMemory,
}

/// The task that these arguments ask for; the first is the program's name. `WordsFault` says what an `Err` means.
pub fn parse_words(alloc: Global, words: &[String]) -> Result<Task, WordsFault>
    ensures task { IfOk result (IsTaskOf (map string_bytes words.now)) }
    ensures sides { IfOk result HasSides }
    ensures taken { IfOk result (λ task. kinds_of (map string_bytes words.now) ≡ []) }
    ensures fault { IfErr result (IsFaultFor (map string_bytes words.now)) }
{
    let request = parse_request(alloc, words)?;
    Ok(request.task)
}

/// What these arguments ask for: the task of `parse_words`, which lines it writes, whether it ends with hints, and the
/// files to read.
pub fn parse_request(alloc: Global, words: &[String]) -> Result<Request, WordsFault>
    ensures task { IfOk result (λ asked. IsTaskOf (map string_bytes words.now) asked.task) }
    ensures request { IfOk result (λ asked.
        IsRequestOf (map string_bytes words.now) asked.task asked.lines asked.explains (map string_bytes asked.files.items)) }
    ensures sides { IfOk result (λ asked. HasSides asked.task) }
    ensures taken { IfOk result (λ asked. kinds_of (map string_bytes words.now) ≡ []) }
    ensures fault { IfErr result (IsFaultFor (map string_bytes words.now)) }
{
    let command = match sixel_command(alloc) {
        Ok(command) => command,
        Err(_) => return Err(WordsFault::OutOfMemory),
    };
    let matches = match command.try_get_matches_from(words) {
        Ok(matches) => matches,
        Err(error) => return Err(sorted_out(alloc, words, error)),
    };
    match matches.subcommand() {
        Some((name, found)) => match task_of(name, found) {
            Some(task) => request_of(alloc, task, found),
            None => Err(without_task(alloc, name, found)),
        },
        None => Err(unnamed(alloc)),
    }
}

/// The result for a subcommand that gives no task.
fn without_task(alloc: Global, name: &str, matches: &ArgMatches<'_>) -> WordsFault
    ensures sorted { IsSortedOut result }
    ensures asked { IsAskedIn name.now (rows_of (found_of matches.now)) result }
    ensures explained { name.now ≡ codes "explain" → (names : List (List ℕ)) →
        Asks (all_of (codes "name") (rows_of (found_of matches.now))) names → IsExplanationOf names result }
    ensures unhelped { IsNoHelp result }
{
    match name {
        "explain" => asked(alloc, matches),
        "check" => unchecked(alloc, matches),
        "survey" => unsurveyed(alloc, matches),
        "encode" => unencoded(alloc, matches),
        "mend" => unmended(alloc, matches),
        "show" => unshown(alloc, matches),
        "differ" => undiffered(alloc, matches),
        _ => untasked(alloc),
    }
}

/// What these options of `explain` ask for.
fn asked(alloc: Global, matches: &ArgMatches<'_>) -> WordsFault
    ensures sorted { IsSortedOut result }
    ensures asked { IsAskedIn (codes "explain") (rows_of (found_of matches.now)) result }
    ensures explained { (names : List (List ℕ)) →
        Asks (all_of (codes "name") (rows_of (found_of matches.now))) names → IsExplanationOf names result }
    ensures unhelped { IsNoHelp result }
{
    match matches.get_raw("name") {
        None => WordsFault::Explanation(Vec::new(alloc)),
        Some(said) => match topics_asked(alloc, said) {
            Ok(Some(topics)) => WordsFault::Explanation(topics),
            Ok(None) => unexplained(alloc, said),
            Err(_) => WordsFault::OutOfMemory,
        },
    }
}

/// A usage error: not each word is a name, and the line has none.
fn unexplained(alloc: Global, said: &[&str]) -> WordsFault
    ensures sorted { IsSortedOut result }
    ensures refusal { IsRefusal result }
{
    match explain_error(alloc, said) {
        Ok(unnamed) => WordsFault::Usage(unnamed),
        Err(_) => WordsFault::OutOfMemory,
    }
}

/// A usage error of `check`: its terminals, or the rules to ignore.
fn unchecked(alloc: Global, matches: &ArgMatches<'_>) -> WordsFault
    ensures sorted { IsSortedOut result }
    ensures refusal { IsRefusal result }
{
    match unchecked_error(alloc, names_fault(matches)) {
        Ok(unchecked) => WordsFault::Usage(unchecked),
        Err(_) => WordsFault::OutOfMemory,
    }
}

/// The same of `survey`.
fn unsurveyed(alloc: Global, matches: &ArgMatches<'_>) -> WordsFault
    ensures sorted { IsSortedOut result }
    ensures refusal { IsRefusal result }
{
    match unsurveyed_error(alloc, names_fault(matches)) {
        Ok(unsurveyed) => WordsFault::Usage(unsurveyed),
        Err(_) => WordsFault::OutOfMemory,
    }
}

/// A usage error of `encode`.
fn unencoded(alloc: Global, matches: &ArgMatches<'_>) -> WordsFault
    ensures sorted { IsSortedOut result }
    ensures refusal { IsRefusal result }
{
    match maker_error(alloc, Maker::Encode, matches) {
        Ok(unencoded) => WordsFault::Usage(unencoded),
        Err(_) => WordsFault::OutOfMemory,
    }
}

/// A usage error of `mend`.
fn unmended(alloc: Global, matches: &ArgMatches<'_>) -> WordsFault
    ensures sorted { IsSortedOut result }
    ensures refusal { IsRefusal result }
{
    match mend_error(alloc, matches) {
        Ok(unmended) => WordsFault::Usage(unmended),
        Err(_) => WordsFault::OutOfMemory,
    }
}

/// A usage error of `show`.
fn unshown(alloc: Global, matches: &ArgMatches<'_>) -> WordsFault
    ensures sorted { IsSortedOut result }
    ensures refusal { IsRefusal result }
{
    match show_error(alloc, matches) {
        Ok(unshown) => WordsFault::Usage(unshown),
        Err(_) => WordsFault::OutOfMemory,
    }
}

/// A usage error of `differ`.
fn undiffered(alloc: Global, matches: &ArgMatches<'_>) -> WordsFault
    ensures sorted { IsSortedOut result }
    ensures refusal { IsRefusal result }
{
    match differ_error(alloc, matches) {
        Ok(undiffered) => WordsFault::Usage(undiffered),
        Err(_) => WordsFault::OutOfMemory,
    }
}

/// A usage error: no subcommand with a task has this name. clap accepts no such name, but its contract doesn't say so.
fn untasked(alloc: Global) -> WordsFault
    ensures sorted { IsSortedOut result }
    ensures refusal { IsRefusal result }
{
    match usage_error(alloc, "unknown subcommand") {
        Ok(untasked) => WordsFault::Usage(untasked),
        Err(_) => WordsFault::OutOfMemory,
    }
}

/// A usage error: no subcommand.
fn unnamed(alloc: Global) -> WordsFault
    ensures sorted { IsSortedOut result }
    ensures refusal { IsRefusal result }
{
    match usage_error(alloc, "a subcommand is required") {
        Ok(error) => WordsFault::Usage(error),
        Err(_) => WordsFault::OutOfMemory,
    }
}

/// What an error of clap means. A usage error may get a tip.
fn sorted_out(alloc: Global, words: &[String], error: Error) -> WordsFault
    ensures sorted { IsSortedOut result }
    ensures memory { kind_of error ≡ ErrorKind.OutOfMemory → result ≡ WordsFault.OutOfMemory }
    ensures only { result ≡ WordsFault.OutOfMemory → kind_of error ≡ ErrorKind.OutOfMemory }
    ensures kept { HoldsError error result }
    ensures unexplained { IsUnexplained result }
{
    match error.kind() {
        ErrorKind::OutOfMemory => WordsFault::OutOfMemory,
        ErrorKind::DisplayHelp | ErrorKind::DisplayVersion => WordsFault::Help(error),
        _ => WordsFault::Usage(with_tip(alloc, words, error)),
    }
}

/// The task, with the other options of its subcommand.
fn request_of(alloc: Global, task: Task, matches: &ArgMatches<'_>) -> Result<Request, WordsFault>
    ensures task { IfOk result (λ asked. asked.task ≡ task) }
    ensures lines { IfOk result (λ asked. lines_of (rows_of (found_of matches.now)) ≡ asked.lines) }
    ensures explains { IfOk result (λ asked.
        is_given (codes "explain") (rows_of (found_of matches.now)) ≡ asked.explains) }
    ensures files { IfOk result (λ asked.
        files_of (rows_of (found_of matches.now)) ≡ map string_bytes asked.files.items) }
    ensures memory { IfErr result (λ fault. fault ≡ WordsFault.OutOfMemory) }
{
    match files_of(alloc, matches) {
        Ok(files) => Ok(Request {
            task,
            lines: lines_of(matches),
            explains: flag_of(matches, "explain"),
            files,
        }),
        Err(_) => Err(WordsFault::OutOfMemory),
    }
}

/// The lines that the options ask for.
fn lines_of(matches: &ArgMatches<'_>) -> Lines
    ensures { lines_of (rows_of (found_of matches.now)) ≡ result }
{
    let only_failed = flag_of(matches, "failed");
    let is_json = flag_of(matches, "json");
    if flag_of(matches, "quiet") {
        Lines::Nothing { is_json }
    } else if is_json {
        Lines::Json { only_failed }
    } else {
        Lines::Plain { only_failed }
    }
}

/// The names of the files, in the order of the arguments.
fn files_of(alloc: Global, matches: &ArgMatches<'_>) -> Result<Vec<String>, AllocError>
    ensures { IfOk result (λ files. files_of (rows_of (found_of matches.now)) ≡ map string_bytes files.items) }
{
    match matches.get_raw("FILE") {
        Some(names) => copies(alloc, names),
        None => Ok(Vec::new(alloc)),
    }
}

fn copies(alloc: Global, names: &[&str]) -> Result<Vec<String>, AllocError>
    ensures { IfOk result (λ copied. map string_bytes copied.items ≡ map (λ name. name.now) names.now) }
{
    let mut copied = Vec::new(alloc);
    for name in names {
        copied.push(String::from_str(alloc, name)?)?;
    }
    Ok(copied)
}

/// The task of a subcommand with these options.
fn task_of(name: &str, matches: &ArgMatches<'_>) -> Option<Task>
    ensures task { IfSome result (IsTask name.now (rows_of (found_of matches.now))) }
    ensures sides { IfSome result HasSides }
    ensures none { IsNone result → (t : ATask) → IsTask name.now (rows_of (found_of matches.now)) t → ⊥ }
{
    match name {
        "list" => Some(Task::List),
        "check" => check_task(matches),
        "survey" => survey_task(matches),
        "scan" => Some(Task::Scan {
            profile: profile_of(matches),
            eight_bit: flag_of(matches, "eight-bit"),
        }),
        "render" => Some(Task::Render {
            profile: profile_of(matches),
            format: format_of(matches),
        }),
        "encode" => encode_task(matches),
        "show" => show_task(matches),
        "differ" => differ_task(matches),
        "mend" => mend_task(matches),
        _ => None,
    }
}
