//! What one line of a check, a survey, a scan or a comparison says.

ghost use Rattle.std.specs.Prelude.{◌≡◌, ◌+◌, ◌≤◌, ◌++◌, length, map};
ghost use Rattle.arrayvec.specs.ArrayVec.{array_vec_len};
ghost use Rattle.sixel_report.specs.declared.item.Item.TheVariants.{Entry as EntryItem, AskedEntry as AskedItem};
ghost use Rattle.sixel_report.specs.Texts.{item_line, item_of, survey_items};

use crate::differences::{Group, group_line, same_line, unmodelled_line};
use crate::lines::{Line, asked_line, outcome_line};
use crate::string_lines::{StringLine, string_line};
use crate::survey_lines::{asked_entry_line, entry_line};
use arrayvec::ArrayVec;
use sixel_check::Outcome;
use sixel_emulator_check::{NamedOutcome, NamedSurvey};
use sixel_emulator_rules::{AskedEntry, AskedFinding};
use sixel_named_terminals::Named;
use sixel_scan::Scanned;
use sixel_survey::Entry;

/// What one line says.
#[derive(Clone, Copy, Debug, PartialEq, Eq, Drop)]
pub enum Item {
    /// What a check found, or the size of the picture that a survey found portable.
    Outcome(Outcome),
    /// A rule that a check found broken and that a named terminal asks for.
    Asked(AskedFinding),
    /// A rule that a survey found broken.
    Entry(Entry),
    /// The same of a rule that a named terminal asks for.
    AskedEntry(AskedEntry),
    /// A string that a scan found.
    String(Scanned),
    /// All four named terminals show the same, on screens of these sides.
    Same { width: u32, height: u32 },
    /// Named terminals that show the same, if not all four do.
    Group(Group),
    /// A named terminal whose model ends at the event with this offset.
    Unmodelled { named: Named, place: u64 },
}

/// What fills the room of an `ArrayVec` that isn't in use.
impl Default for Item {
    fn default() -> Item {
        Item::Outcome(Outcome::Portable {
            width: 0,
            height: 0,
        })
    }
}

/// The line of an item.
pub fn item_line(item: &Item) -> StringLine
    ensures { result.items ≡ item_line item.now }
{
    match item {
        Item::Outcome(outcome) => widened(&outcome_line(outcome)),
        Item::Asked(finding) => widened(&asked_line(finding)),
        Item::Entry(entry) => widened(&entry_line(entry)),
        Item::AskedEntry(entry) => widened(&asked_entry_line(entry)),
        Item::String(scanned) => string_line(scanned),
        Item::Same { width, height } => widened(&same_line(*width, *height)),
        Item::Group(group) => widened(&group_line(group)),
        Item::Unmodelled { named, place } => widened(&unmodelled_line(*named, *place)),
    }
}

/// The same line, with room for the line of a string.
fn widened(line: &Line) -> StringLine
    ensures { result.items ≡ line.now.items }
{
    let mut wide = ArrayVec::new();
    let _ = wide.try_extend_from_slice(line.as_slice());
    wide
}

/// What a check found.
pub fn item_of(outcome: &NamedOutcome) -> Item
    ensures { result ≡ item_of outcome.now }
{
    match outcome {
        NamedOutcome::Portable { width, height } => Item::Outcome(Outcome::Portable {
            width: *width,
            height: *height,
        }),
        NamedOutcome::Broken(finding) => Item::Outcome(Outcome::Broken(*finding)),
        NamedOutcome::Asked(finding) => Item::Asked(*finding),
    }
}

/// The items of a survey, at most 24 rules and a size, or of a comparison.
pub type Items = ArrayVec<Item, 25>;

/// The items of a survey: one for each entry, and the size if there is one.
pub fn survey_items(survey: &NamedSurvey) -> Items
    ensures items { result.items ≡ survey_items survey.now }
    ensures few { array_vec_len result ≤ 25 }
{
    let mut items = ArrayVec::new();
    push_entries(&mut items, survey.entries.as_slice());
    push_asked(&mut items, survey.asked.as_slice());
    if let Some((width, height)) = survey.size {
        items.push(Item::Outcome(Outcome::Portable { width, height }));
    }
    items
}

/// Appends an item for each entry.
fn push_entries(items: &mut Items, entries: &[Entry])
    requires room { array_vec_len items.old ≤ 0 }
    requires few { length entries.now ≤ 13 }
    ensures items { items.new.items ≡ items.old.items ++ map EntryItem entries.now }
    ensures few { array_vec_len items.new ≤ 13 }
{
    for entry in entries {
        items.push(Item::Entry(*entry));
    }
}

/// The same for each entry of a rule that a named terminal asks for.
fn push_asked(items: &mut Items, entries: &[AskedEntry])
    requires room { array_vec_len items.old ≤ 13 }
    requires few { length entries.now ≤ 11 }
    ensures items { items.new.items ≡ items.old.items ++ map AskedItem entries.now }
    ensures few { array_vec_len items.new ≤ 24 }
{
    for entry in entries {
        items.push(Item::AskedEntry(*entry));
    }
}
