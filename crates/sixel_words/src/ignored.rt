//! Which rules of named terminals `--ignore` of `check` and `survey` leaves out.

ghost use Rattle.std.specs.Prelude.{◌≡◌, IfSome, IsNone, map};
ghost use Rattle.std.specs.List.{list_all, list_any};
ghost use Rattle.clap.specs.Walk.{rows_of};
ghost use Rattle.clap.specs.Matches.{found_of};
ghost use Rattle.sixel_emulator_rules.specs.Counts.{in_order};
ghost use Rattle.sixel_emulator_rules.specs.Names.{name_of};
ghost use Rattle.sixel_emulator_rules.specs.declared.asked_rules.AskedRules.{AskedRules as ASet};
ghost use Rattle.sixel_words.specs.Words.{HasIgnored, NameRules, has_part, is_called, is_rule, names_rules, parts_of};

use crate::show_words::is_called;
use clap::ArgMatches;
use sixel_commands::NamesFault;
use sixel_emulator_rules::{ALL_ASKED_RULES, AskedRule, AskedRules};
use sixel_model::ALL_RULES;
use sixel_report::rule_name;

/// The rules of `--ignore`.
pub(crate) fn ignored_of(matches: &ArgMatches<'_>) -> Option<AskedRules>
    ensures some { IfSome result (HasIgnored (rows_of (found_of matches.now))) }
    ensures none { IsNone result → (s : ASet) → HasIgnored (rows_of (found_of matches.now)) s → ⊥ }
{
    match matches.get_raw("ignore") {
        Some(values) => rules_named(values),
        None => Some(AskedRules::none()),
    }
}

/// The rules that these values name.
fn rules_named(values: &[&str]) -> Option<AskedRules>
    ensures some { IfSome result (NameRules (map (λ value. value.now) values.now)) }
    ensures none { IsNone result → (s : ASet) → NameRules (map (λ value. value.now) values.now) s → ⊥ }
{
    if !all_name_rules(values) {
        return None;
    }
    Some(AskedRules {
        raster_late: is_part_of(values, AskedRule::RasterLate),
        dropped: is_part_of(values, AskedRule::Dropped),
        stale: is_part_of(values, AskedRule::Stale),
        large: is_part_of(values, AskedRule::Large),
        rows: is_part_of(values, AskedRule::Rows),
        past: is_part_of(values, AskedRule::Past),
        hue: is_part_of(values, AskedRule::Hue),
        far: is_part_of(values, AskedRule::Far),
        introducer: is_part_of(values, AskedRule::Introducer),
        bare: is_part_of(values, AskedRule::Bare),
        space_after: is_part_of(values, AskedRule::SpaceAfter),
    })
}

/// The first value of `--ignore` that names no rules.
pub(crate) fn unruled_value<'a>(matches: &ArgMatches<'a>) -> Option<&'a str> {
    for value in matches.get_raw("ignore")? {
        if !names_rules(value) {
            return Some(*value);
        }
    }
    None
}

/// What is wrong with a value of `--ignore` that names no rules.
pub(crate) fn rules_fault<'a>(value: &'a str) -> NamesFault<'a> {
    if value.split(',').any(|part| is_portable_rule(part)) {
        NamesFault::Portable(value)
    } else {
        NamesFault::Rules(value)
    }
}

/// Whether a rule of portable pictures has this name.
fn is_portable_rule(part: &str) -> bool {
    ALL_RULES
        .iter()
        .any(|rule| is_called(part, rule_name(*rule)))
}

/// Whether each value names rules.
fn all_name_rules(values: &[&str]) -> bool
    ensures { list_all names_rules (map (λ value. value.now) values.now) ≡ result }
{
    values.iter().all(|value| names_rules(value))
}

/// Whether each part of a text between its commas is the name of a rule.
fn names_rules(text: &str) -> bool
    ensures { list_all is_rule (parts_of text.now) ≡ result }
{
    text.split(',').all(|part| is_rule(part))
}

/// Whether a rule of named terminals has this name.
fn is_rule(part: &str) -> bool
    ensures { is_rule part.now ≡ result }
{
    is_one_of(&ALL_ASKED_RULES, part)
}

/// Whether one of the rules has this name.
fn is_one_of(rules: &[AskedRule], part: &str) -> bool
    ensures { list_any (λ rule. is_called (name_of rule) part.now) rules.now ≡ result }
{
    rules.iter().any(|rule| is_called(part, rule.name()))
}

/// Whether one of the values has the rule's name between its commas.
fn is_part_of(values: &[&str], rule: AskedRule) -> bool
    ensures { list_any (has_part (name_of rule)) (map (λ value. value.now) values.now) ≡ result }
{
    let name = rule.name();
    values.iter().any(|value| has_part(value, name))
}

/// Whether this is one of the parts of a text between its commas.
pub(crate) fn has_part(text: &str, name: &str) -> bool
    ensures { has_part name.now text.now ≡ result }
{
    text.split(',').any(|part| is_called(part, name))
}
