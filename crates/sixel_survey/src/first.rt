//! The first broken rule of a survey.

ghost use Rattle.std.specs.Prelude.{◌≡◌, [], MatchOption, true};
ghost use Rattle.std.specs.Option.{option_map_or};
ghost use Rattle.sixel_model.specs.Rules.{number_of};
ghost use Rattle.sixel_survey.specs.Laws.{IsFirstEntry, IsFirstFinding, comes_before};

use crate::entry::{Entry, Survey};
use sixel_judge::{Finding, Rule};

/// The number of the rule.
fn number(rule: Rule) -> u8
    ensures { result ≡ number_of rule }
{
    rule as u8
}

/// Whether the entry has a smaller place than the other, or the same place and a smaller number; true without another.
fn is_before(entry: Entry, other: Option<Entry>) -> bool
    ensures { result ≡ option_map_or (comes_before entry) other true }
{
    match other {
        Some(other) => {
            entry.place < other.place
                || (entry.place == other.place && number(entry.rule) < number(other.rule))
        }
        None => true,
    }
}

/// The entry with the least place, and of these the least number.
fn first_entry(entries: &[Entry]) -> Option<Entry>
    ensures { MatchOption result (entries.now ≡ []) (IsFirstEntry entries.now) }
{
    let mut first = None;
    for entry in entries {
        if is_before(*entry, first) {
            first = Some(*entry);
        }
    }
    first
}

/// The finding of the entry with the least place, and of these the least number, if there is an entry.
pub fn first_finding(entries: &[Entry]) -> Option<Finding>
    ensures { MatchOption result (entries.now ≡ []) (IsFirstFinding entries.now) }
{
    match first_entry(entries) {
        Some(entry) => Some(Finding {
            rule: entry.rule,
            place: entry.place,
            pixel: entry.pixel,
        }),
        None => None,
    }
}

impl Survey {
    /// The first broken rule, as `check` finds it, if there is an entry.
    pub fn first(&self) -> Option<Finding>
        ensures { MatchOption result (self.now.entries.items ≡ [])
            (λ finding. IsFirstFinding self.now.entries.items finding) }
    {
        first_finding(self.entries.as_slice())
    }
}
