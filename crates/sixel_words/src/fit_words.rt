//! What the options of `encode` and `mend` ask for.

ghost use Rattle.std.specs.Prelude.{◌≡◌, IfOk, IfSome, IsNone, codes};
ghost use Rattle.clap.specs.Walk.{rows_of};
ghost use Rattle.clap.specs.Matches.{found_of};
ghost use Rattle.sixel_fit.specs.declared.making.Fitting.{Fitting as AFitting};
ghost use Rattle.sixel_model.specs.declared.colour.Parts.{Parts};
ghost use Rattle.sixel_report.specs.declared.task.Task.{Task as ATask};
ghost use Rattle.sixel_report.specs.Outputs.{HasSides};
ghost use Rattle.sixel_words.specs.Words.{HasFitting, HasPad, IsSortedOut, IsTask};
ghost use Rattle.sixel_words.specs.declared.words.WordsFault.TheVariants.{Usage};

use crate::check_words::{terminals_of, unnamed_value};
use crate::colours::colour_of;
use crate::options::{colour_in, flag_of, profile_of};
use clap::{ArgMatches, Error};
use sixel_commands::{Maker, background_error, lone_pad_error, unfitted_error, unpadded_error};
use sixel_fit::Fitting;
use sixel_model::Colour;
use sixel_report::Task;
use std::alloc::{AllocError, Global};

/// The task of `encode` with these options; none if they name no terminals, or no colour of rows below.
pub fn encode_task(matches: &ArgMatches<'_>) -> Option<Task>
    ensures task { IfSome result (IsTask (codes "encode") (rows_of (found_of matches.now))) }
    ensures sides { IfSome result HasSides }
    ensures none { IsNone result → (t : ATask) → IsTask (codes "encode") (rows_of (found_of matches.now)) t → ⊥ }
{
    let fitting = fitting_of(matches, Colour::of_percentages(0, 0, 0))?;
    Some(Task::Encode {
        profile: profile_of(matches),
        fitting,
    })
}

/// The task of `mend` with these options; none if the value of `--background` is no colour, or as for `encode`.
pub fn mend_task(matches: &ArgMatches<'_>) -> Option<Task>
    ensures task { IfSome result (IsTask (codes "mend") (rows_of (found_of matches.now))) }
    ensures sides { IfSome result HasSides }
    ensures none { IsNone result → (t : ATask) → IsTask (codes "mend") (rows_of (found_of matches.now)) t → ⊥ }
{
    let background = colour_in(matches, "background")?;
    let fitting = fitting_of(matches, background)?;
    let showing = flag_of(matches, "showing");
    let selects = flag_of(matches, "define-selects");
    Some(Task::Mend {
        profile: profile_of(matches),
        background,
        showing,
        selects,
        fitting,
    })
}

/// The terminals of `--on`, and the colour of `--pad`, which is this one without the option.
fn fitting_of(matches: &ArgMatches<'_>, fallback: Colour) -> Option<Fitting>
    ensures some { IfSome result (HasFitting (rows_of (found_of matches.now)) fallback) }
    ensures none { IsNone result →
        (other : Parts) (f : AFitting) → HasFitting (rows_of (found_of matches.now)) other f → ⊥ }
{
    let terminals = terminals_of(matches)?;
    let pad = pad_of(matches, fallback)?;
    Some(Fitting { terminals, pad })
}

/// The colour of `--pad`; this one without the option. There is none with the option, but without `--on`.
fn pad_of(matches: &ArgMatches<'_>, fallback: Colour) -> Option<Colour>
    ensures some { IfSome result (HasPad (rows_of (found_of matches.now)) fallback) }
    ensures none { IsNone result →
        (other pad : Parts) → HasPad (rows_of (found_of matches.now)) other pad → ⊥ }
{
    match matches.get_str("pad") {
        Some(text) => match matches.get_raw("on") {
            Some(_) => colour_of(text),
            None => None,
        },
        None => Some(fallback),
    }
}

/// The error for options of `mend` that give no task.
pub fn mend_error(alloc: Global, matches: &ArgMatches<'_>) -> Result<Error, AllocError>
    ensures { IfOk result (λ e. IsSortedOut (Usage e)) }
{
    match colour_in(matches, "background") {
        Some(_) => maker_error(alloc, Maker::Mend, matches),
        None => background_error(alloc, matches.get_str("background").unwrap_or("")),
    }
}

/// The error for options of `encode` or `mend` that name no terminals, or no colour of rows below.
pub fn maker_error(
    alloc: Global,
    maker: Maker,
    matches: &ArgMatches<'_>,
) -> Result<Error, AllocError>
    ensures { IfOk result (λ e. IsSortedOut (Usage e)) }
{
    if let Some(value) = unnamed_value(matches) {
        return unfitted_error(alloc, maker, value);
    }
    match matches.get_raw("on") {
        Some(_) => unpadded_error(alloc, maker, matches.get_str("pad").unwrap_or("")),
        None => lone_pad_error(alloc, maker),
    }
}
