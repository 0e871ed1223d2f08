//! What the options of `show` ask for.

ghost use Rattle.std.specs.Prelude.{◌≡◌, IfSome, IsNone, None, Some, codes, false, true};
ghost use Rattle.clap.specs.Walk.{first_of, rows_of};
ghost use Rattle.clap.specs.Matches.{found_of};
ghost use Rattle.sixel_named_terminals.specs.declared.named.Named.{Named as ANamed};
ghost use Rattle.sixel_report.specs.declared.task.Area.{Area as AnArea};
ghost use Rattle.sixel_report.specs.declared.task.Task.{Task as ATask};
ghost use Rattle.sixel_report.specs.Outputs.{HasSides};
ghost use Rattle.sixel_words.specs.Words.{HasArea, IsTask, describes, is_called, is_given, terminal_name};

use crate::options::{colour_in, flag_of, format_of, is_named, profile_of, side_of};
use clap::ArgMatches;
use sixel_named_terminals::Named;
use sixel_report::{Area, Task};

/// The task of `show` with these options: of a terminal that they describe, or of one that `--on` names.
pub fn show_task(matches: &ArgMatches<'_>) -> Option<Task>
    ensures task { IfSome result (IsTask (codes "show") (rows_of (found_of matches.now))) }
    ensures sides { IfSome result HasSides }
    ensures none { IsNone result → (t : ATask) → IsTask (codes "show") (rows_of (found_of matches.now)) t → ⊥ }
{
    match matches.get_str("on") {
        Some(name) => on_task(matches, name),
        None => plain_task(matches),
    }
}

/// The task of `show` without `--on`; none with `--background`, which only goes with it.
fn plain_task(matches: &ArgMatches<'_>) -> Option<Task>
    requires { first_of (codes "on") (rows_of (found_of matches.now)) ≡ None }
    ensures task { IfSome result (IsTask (codes "show") (rows_of (found_of matches.now))) }
    ensures sides { IfSome result HasSides }
    ensures none { IsNone result → (t : ATask) → IsTask (codes "show") (rows_of (found_of matches.now)) t → ⊥ }
{
    if is_named(matches, "background") {
        return None;
    }
    let profile = profile_of(matches);
    let showing = flag_of(matches, "showing");
    let fill = flag_of(matches, "fill");
    let selects = flag_of(matches, "define-selects");
    let format = format_of(matches);
    match area_of(matches)? {
        Area::Box => Some(Task::ShowBox {
            profile,
            showing,
            fill,
            selects,
            format,
        }),
        Area::Sides { width, height } => Some(Task::Show {
            profile,
            showing,
            fill,
            selects,
            width,
            height,
            format,
        }),
    }
}

/// The task of `show --on` with this name; none if no terminal has it, if the value of `--background` is no colour, or
/// with a flag that describes a terminal.
fn on_task(matches: &ArgMatches<'_>, name: &str) -> Option<Task>
    requires { first_of (codes "on") (rows_of (found_of matches.now)) ≡ Some name.now }
    ensures task { IfSome result (IsTask (codes "show") (rows_of (found_of matches.now))) }
    ensures sides { IfSome result HasSides }
    ensures none { IsNone result → (t : ATask) → IsTask (codes "show") (rows_of (found_of matches.now)) t → ⊥ }
{
    let named = terminal_named(name)?;
    let background = colour_in(matches, "background")?;
    let area = area_of(matches)?;
    if describes(matches) {
        return None;
    }
    Some(Task::ShowOn {
        named,
        background,
        area,
        format: format_of(matches),
    })
}

/// The terminal with this name, in any case of letters.
pub(crate) fn terminal_named(text: &str) -> Option<Named>
    ensures some { IfSome result (λ named. is_called (terminal_name named) text.now ≡ true) }
    ensures none { IsNone result → (named : ANamed) → is_called (terminal_name named) text.now ≡ false }
{
    if is_called(text, "xterm") {
        Some(Named::XTerm)
    } else if is_called(text, "mlterm") {
        Some(Named::MlTerm)
    } else if is_called(text, "foot") {
        Some(Named::Foot)
    } else if is_called(text, "konsole") {
        Some(Named::Konsole)
    } else {
        None
    }
}

/// Whether a text is this name, in any case of letters.
pub(crate) fn is_called(text: &str, name: &str) -> bool
    ensures { is_called name.now text.now ≡ result }
{
    text.eq_ignore_ascii_case(name)
}

/// Whether a flag describes a terminal.
fn describes(matches: &ArgMatches<'_>) -> bool
    ensures { describes (rows_of (found_of matches.now)) ≡ result }
{
    flag_of(matches, "wide")
        || flag_of(matches, "showing")
        || flag_of(matches, "fill")
        || flag_of(matches, "define-selects")
}

/// The size of the screen; none if `--box` and `--width` or `--height` are given.
fn area_of(matches: &ArgMatches<'_>) -> Option<Area>
    ensures some { IfSome result (HasArea (rows_of (found_of matches.now))) }
    ensures none { IsNone result → (area : AnArea) → HasArea (rows_of (found_of matches.now)) area → ⊥ }
{
    if flag_of(matches, "box") {
        return box_area(matches);
    }
    match (side_of(matches, "width"), side_of(matches, "height")) {
        (Some(width), Some(height)) => Some(Area::Sides { width, height }),
        _ => None,
    }
}

/// The size of the screen with `--box`.
fn box_area(matches: &ArgMatches<'_>) -> Option<Area>
    requires { is_given (codes "box") (rows_of (found_of matches.now)) ≡ true }
    ensures some { IfSome result (HasArea (rows_of (found_of matches.now))) }
    ensures none { IsNone result → (area : AnArea) → HasArea (rows_of (found_of matches.now)) area → ⊥ }
{
    if is_named(matches, "width") || is_named(matches, "height") {
        None
    } else {
        Some(Area::Box)
    }
}
