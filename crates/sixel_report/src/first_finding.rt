//! The first broken rule of a survey for named terminals.

ghost use Rattle.std.specs.Prelude.{◌≡◌, [], MatchOption, true};
ghost use Rattle.std.specs.Option.{option_map_or};
ghost use Rattle.sixel_emulator_check.specs.Laws.{IsFirstOf};
ghost use Rattle.sixel_report.specs.Firsts.{IsFirstAskedEntry, asked_before, asked_finding};

use sixel_emulator_check::{NamedFinding, NamedSurvey};
use sixel_emulator_rules::{AskedEntry, AskedFinding};
use sixel_survey::first_finding;

/// Whether the entry has a smaller place than the other, or the same place and a smaller number; true without another.
fn is_before(entry: AskedEntry, other: Option<AskedEntry>) -> bool
    ensures { result ≡ option_map_or (asked_before entry) other true }
{
    match other {
        Some(other) => {
            entry.place < other.place
                || (entry.place == other.place && entry.rule.number() < other.rule.number())
        }
        None => true,
    }
}

/// The entry with the least place, and of these the least number.
fn first_asked(entries: &[AskedEntry]) -> Option<AskedEntry>
    ensures { MatchOption result (entries.now ≡ []) (IsFirstAskedEntry entries.now) }
{
    let mut first = None;
    for entry in entries {
        if is_before(*entry, first) {
            first = Some(*entry);
        }
    }
    first
}

/// The first broken rule, as a check finds it, if there is an entry.
pub fn first_of(survey: &NamedSurvey) -> Option<NamedFinding>
    ensures { MatchOption result ((survey.now.entries.items ≡ []) × (survey.now.asked.items ≡ []))
        (IsFirstOf survey.now.entries.items survey.now.asked.items) }
{
    let portable = first_finding(survey.entries.as_slice());
    let asked = first_asked(survey.asked.as_slice());
    match (portable, asked) {
        (Some(finding), Some(entry)) if entry.place < finding.place => Some(finding_of(entry)),
        (Some(finding), _) => Some(NamedFinding::Portable(finding)),
        (None, Some(entry)) => Some(finding_of(entry)),
        (None, None) => None,
    }
}

/// The finding of an entry.
fn finding_of(entry: AskedEntry) -> NamedFinding
    ensures { result ≡ asked_finding entry }
{
    NamedFinding::Asked(AskedFinding {
        rule: entry.rule,
        place: entry.place,
    })
}
