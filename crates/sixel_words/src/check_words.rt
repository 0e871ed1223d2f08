//! What the options of `check` and `survey` ask for.

ghost use Rattle.std.specs.Prelude.{◌≡◌, ◌≢◌, IfSome, IsNone, codes, map};
ghost use Rattle.std.specs.List.{list_all, list_any};
ghost use Rattle.clap.specs.Walk.{rows_of};
ghost use Rattle.clap.specs.Matches.{found_of};
ghost use Rattle.sixel_emulator_rules.specs.declared.terminals.Terminals.{Terminals as ATerminals};
ghost use Rattle.sixel_report.specs.declared.task.Task.{Task as ATask};
ghost use Rattle.sixel_report.specs.Outputs.{HasSides};
ghost use Rattle.sixel_emulator_rules.specs.Asked.{no_rules};
ghost use Rattle.sixel_words.specs.Words.{HasTerminals, IsTask, NameTerminals, has_part, is_terminal, names_it, no_terminals};
ghost use Rattle.sixel_words.specs.Words.{names_terminals, parts_of};

use crate::ignored::{has_part, ignored_of, rules_fault, unruled_value};
use crate::options::profile_of;
use crate::show_words::{is_called, terminal_named};
use clap::ArgMatches;
use sixel_commands::NamesFault;
use sixel_emulator_rules::{AskedRules, Terminals};
use sixel_report::Task;

/// The task of `check` with these options; none if a value of `--on` names no terminals, or one of `--ignore` no rules, or
/// if rules are ignored of no terminal.
pub fn check_task(matches: &ArgMatches<'_>) -> Option<Task>
    ensures task { IfSome result (IsTask (codes "check") (rows_of (found_of matches.now))) }
    ensures sides { IfSome result HasSides }
    ensures none { IsNone result → (t : ATask) → IsTask (codes "check") (rows_of (found_of matches.now)) t → ⊥ }
{
    let terminals = terminals_of(matches)?;
    Some(Task::Check {
        profile: profile_of(matches),
        terminals,
    })
}

/// The same of `survey`.
pub fn survey_task(matches: &ArgMatches<'_>) -> Option<Task>
    ensures task { IfSome result (IsTask (codes "survey") (rows_of (found_of matches.now))) }
    ensures sides { IfSome result HasSides }
    ensures none { IsNone result → (t : ATask) → IsTask (codes "survey") (rows_of (found_of matches.now)) t → ⊥ }
{
    let terminals = terminals_of(matches)?;
    Some(Task::Survey {
        profile: profile_of(matches),
        terminals,
    })
}

/// The terminals of `--on`, without the rules of `--ignore`.
pub(crate) fn terminals_of(matches: &ArgMatches<'_>) -> Option<Terminals>
    ensures some { IfSome result (HasTerminals (rows_of (found_of matches.now))) }
    ensures none { IsNone result → (t : ATerminals) → HasTerminals (rows_of (found_of matches.now)) t → ⊥ }
{
    let ignored = ignored_of(matches)?;
    match matches.get_raw("on") {
        Some(values) => terminals_named(values, ignored),
        None => terminals_alone(ignored),
    }
}

/// The terminals that these values name, without some of their rules.
fn terminals_named(values: &[&str], ignored: AskedRules) -> Option<Terminals>
    ensures some { IfSome result (NameTerminals (map (λ value. value.now) values.now) ignored) }
    ensures none { IsNone result →
        (t : ATerminals) → NameTerminals (map (λ value. value.now) values.now) ignored t → ⊥ }
{
    if !all_name_terminals(values) {
        return None;
    }
    Some(Terminals {
        xterm: is_named_in(values, "xterm"),
        mlterm: is_named_in(values, "mlterm"),
        foot: is_named_in(values, "foot"),
        konsole: is_named_in(values, "konsole"),
        ignored,
    })
}

/// No terminals; none if rules are ignored.
fn terminals_alone(ignored: AskedRules) -> Option<Terminals>
    ensures some { IfSome result (λ t. (ignored ≡ no_rules) × (t ≡ no_terminals)) }
    ensures none { IsNone result → ignored ≢ no_rules }
{
    if ignored == AskedRules::none() {
        Some(Terminals::none())
    } else {
        None
    }
}

/// What is wrong with the values of `--on` and `--ignore` where they give no terminals.
pub fn names_fault<'a>(matches: &ArgMatches<'a>) -> NamesFault<'a> {
    if let Some(value) = unnamed_value(matches) {
        return NamesFault::Terminals(value);
    }
    match unruled_value(matches) {
        Some(value) => rules_fault(value),
        None => NamesFault::Alone,
    }
}

/// The first value of `--on` that names no terminals.
pub(crate) fn unnamed_value<'a>(matches: &ArgMatches<'a>) -> Option<&'a str> {
    for value in matches.get_raw("on")? {
        if !names_terminals(value) {
            return Some(*value);
        }
    }
    None
}

/// Whether each value names terminals.
fn all_name_terminals(values: &[&str]) -> bool
    ensures { list_all names_terminals (map (λ value. value.now) values.now) ≡ result }
{
    values.iter().all(|value| names_terminals(value))
}

/// Whether a value names terminals: it is `all`, or has only names between its commas.
fn names_terminals(value: &str) -> bool
    ensures { names_terminals value.now ≡ result }
{
    is_called(value, "all") || has_only_names(value)
}

/// Whether each part of a text between its commas is the name of a terminal.
fn has_only_names(text: &str) -> bool
    ensures { list_all is_terminal (parts_of text.now) ≡ result }
{
    text.split(',').all(|part| is_terminal(part))
}

/// Whether a terminal has this name.
fn is_terminal(part: &str) -> bool
    ensures { is_terminal part.now ≡ result }
{
    terminal_named(part).is_some()
}

/// Whether one of the values names this terminal.
fn is_named_in(values: &[&str], name: &str) -> bool
    ensures { list_any (names_it name.now) (map (λ value. value.now) values.now) ≡ result }
{
    values.iter().any(|value| names_it(value, name))
}

/// Whether a value names this terminal: it is `all`, or has the name between its commas.
fn names_it(value: &str, name: &str) -> bool
    ensures { names_it name.now value.now ≡ result }
{
    is_called(value, "all") || has_part(value, name)
}
