//! The usage errors of `show` that clap doesn't find.

ghost use Rattle.std.specs.Prelude.{◌≡◌, IfOk};
ghost use Rattle.clap.specs.Values.{kind_of};
ghost use Rattle.sixel_words.specs.Words.{IsSortedOut};
ghost use Rattle.sixel_words.specs.declared.words.WordsFault.TheVariants.{Usage};

use crate::options::{colour_in, flag_of, is_named};
use crate::show_words::terminal_named;
use clap::{ArgMatches, Error};
use sixel_commands::{conflict_error, terminal_error, uncoloured_error};
use std::alloc::{AllocError, Global};

/// The flags that describe a terminal, in the order of the help.
const FLAGS: [&str; 4] = ["wide", "showing", "fill", "define-selects"];

/// The error for options of `show` that give no task.
pub fn show_error(alloc: Global, matches: &ArgMatches<'_>) -> Result<Error, AllocError>
    ensures { IfOk result (λ e. IsSortedOut (Usage e)) }
{
    match matches.get_str("on") {
        Some(name) => match terminal_named(name) {
            Some(_) => on_error(alloc, matches),
            None => terminal_error(alloc, name),
        },
        None if is_named(matches, "background") => conflict_error(
            alloc,
            "the argument '--background <COLOUR>' cannot be used without '--on <NAME>'",
        ),
        None => area_error(alloc, matches),
    }
}

/// The error for options that can't be combined with `--on`, or for a value of `--background` that is no colour.
fn on_error(alloc: Global, matches: &ArgMatches<'_>) -> Result<Error, AllocError>
    ensures { IfOk result (λ e. IsSortedOut (Usage e)) }
{
    let flags = flags_in(alloc, matches)?;
    if !flags.is_empty() {
        let reason = flags_reason(alloc, flags.as_slice())?;
        return conflict_error(alloc, reason.as_str());
    }
    match colour_in(matches, "background") {
        Some(_) => area_error(alloc, matches),
        None => uncoloured_error(alloc, matches.get_str("background").unwrap_or("")),
    }
}

/// The flags that describe a terminal, of those that are given.
fn flags_in(alloc: Global, matches: &ArgMatches<'_>) -> Result<Vec<&'static str>, AllocError> {
    let mut flags = Vec::new(alloc);
    for flag in FLAGS {
        if flag_of(matches, flag) {
            flags.push(flag)?;
        }
    }
    Ok(flags)
}

/// That `--on` can't be combined with these flags.
fn flags_reason(alloc: Global, flags: &[&str]) -> Result<String, AllocError> {
    if let [flag] = flags {
        return format!(in alloc; "the argument '--on <NAME>' cannot be used with '--{flag}'");
    }
    let mut reason = String::from_str(alloc, "the argument '--on <NAME>' cannot be used with:")?;
    for flag in flags {
        reason.push_str("\n  --")?;
        reason.push_str(flag)?;
    }
    Ok(reason)
}

/// The error for `--box` with `--width` or `--height`. clap accepts no other options without a size, but its contract
/// doesn't say so of all.
fn area_error(alloc: Global, matches: &ArgMatches<'_>) -> Result<Error, AllocError>
    ensures { IfOk result (λ e. IsSortedOut (Usage e)) }
{
    let reason = match (is_named(matches, "width"), is_named(matches, "height")) {
        (true, true) => {
            "the argument '--box' cannot be used with:\n  --width <N>\n  --height <N>"
        }
        (true, false) => "the argument '--box' cannot be used with '--width <N>'",
        (false, true) => "the argument '--box' cannot be used with '--height <N>'",
        (false, false) => "the screen has no size",
    };
    conflict_error(alloc, reason)
}
