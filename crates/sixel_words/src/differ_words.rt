//! What the options of `differ` ask for, and its usage errors that clap doesn't find.

ghost use Rattle.std.specs.Prelude.{◌≡◌, IfOk, IfSome, IsNone, codes, length, nat_lt};
ghost use Rattle.clap.specs.Values.{kind_of};
ghost use Rattle.clap.specs.Walk.{rows_of};
ghost use Rattle.clap.specs.Matches.{found_of};
ghost use Rattle.sixel_report.specs.declared.task.Task.{Task as ATask};
ghost use Rattle.sixel_report.specs.Outputs.{HasSides};
ghost use Rattle.sixel_words.specs.Words.{IsSortedOut, IsTask, files_of};
ghost use Rattle.sixel_words.specs.declared.words.WordsFault.TheVariants.{Usage};

use crate::options::{colour_in, flag_of};
use clap::{ArgMatches, Error};
use sixel_commands::{sheet_error, undiffered_error};
use sixel_report::Task;
use std::alloc::{AllocError, Global};

/// The task of `differ` with these options; none if the value of `--background` is no colour, or for a sheet of several
/// files.
pub fn differ_task(matches: &ArgMatches<'_>) -> Option<Task>
    ensures task { IfSome result (IsTask (codes "differ") (rows_of (found_of matches.now))) }
    ensures sides { IfSome result HasSides }
    ensures none { IsNone result → (t : ATask) → IsTask (codes "differ") (rows_of (found_of matches.now)) t → ⊥ }
{
    let background = colour_in(matches, "background")?;
    if !flag_of(matches, "sheet") {
        return Some(Task::Differ { background });
    }
    if has_several(matches) {
        return None;
    }
    Some(Task::DifferSheet { background })
}

/// Whether there are several files.
fn has_several(matches: &ArgMatches<'_>) -> bool
    ensures { nat_lt 1 (length (files_of (rows_of (found_of matches.now)))) ≡ result }
{
    match matches.get_raw("FILE") {
        Some(names) => names.len() > 1,
        None => false,
    }
}

/// The error for options of `differ` that give no task.
pub fn differ_error(alloc: Global, matches: &ArgMatches<'_>) -> Result<Error, AllocError>
    ensures { IfOk result (λ e. IsSortedOut (Usage e)) }
{
    match colour_in(matches, "background") {
        Some(_) => sheet_error(alloc),
        None => undiffered_error(alloc, matches.get_str("background").unwrap_or("")),
    }
}
