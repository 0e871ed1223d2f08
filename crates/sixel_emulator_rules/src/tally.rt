//! How often a rule has counted so far, and where first.

ghost use Rattle.std.specs.Prelude.{◌≡◌, ◌-◌, ◌<◌, ℕ, None, Some, filter_map, slice_set, true};
ghost use Rattle.sixel_emulator_rules.specs.Asked.{number_of};
ghost use Rattle.sixel_emulator_rules.specs.Tallying.{next_tally, tally_in};
ghost use Rattle.sixel_emulator_rules.specs.declared.rule.AskedRule.{AskedRule as ARule};

use crate::rule::{ASKED_COUNT, AskedRule};
use arrayvec::ArrayVec;

/// A broken rule: how often it counts, and where it counts first.
///
/// A rule counts at each event that breaks it. `Stale` counts only for registers up to 255.
#[derive(Clone, Copy, Debug, PartialEq, Eq, Drop)]
pub struct AskedEntry {
    pub rule: AskedRule,
    /// The number of events at which it counts.
    pub count: u64,
    /// The offset of the first byte of the first of these, from the start of the document.
    pub place: u64,
}

/// An entry for each rule that counts anywhere, in order of the rules' numbers.
pub type AskedEntries = ArrayVec<AskedEntry, ASKED_COUNT>;

impl Default for AskedEntry {
    /// An entry that counts nothing: what an `ArrayVec` holds where it has no entry.
    fn default() -> AskedEntry {
        AskedEntry {
            rule: AskedRule::RasterLate,
            count: 0,
            place: 0,
        }
    }
}

/// The place of the rule in the order, counted from 0.
#[inline(always)]
fn index_of(rule: AskedRule) -> usize
    ensures value { result ≡ number_of rule - 14 }
    ensures below { result < ASKED_COUNT }
{
    rule as usize
}

/// The tally of the rule.
#[inline(always)]
pub(crate) fn tally_of(
    tallies: &[Option<AskedEntry>; ASKED_COUNT],
    rule: AskedRule,
) -> Option<AskedEntry>
    ensures { result ≡ tally_in tallies.now rule }
{
    tallies[index_of(rule)]
}

/// Sets the tally of the rule.
#[inline(always)]
pub(crate) fn put(
    tallies: &mut [Option<AskedEntry>; ASKED_COUNT],
    rule: AskedRule,
    tally: Option<AskedEntry>,
)
    ensures { tallies.new ≡ slice_set tallies.old (number_of rule - 14) tally }
{
    tallies[index_of(rule)] = tally;
}

/// The tally of a rule after the first event at which it counts, which has this offset.
#[inline(always)]
pub(crate) fn begun(rule: AskedRule, place: u64) -> AskedEntry
    ensures { Some result ≡ next_tally rule place true None }
{
    AskedEntry {
        rule,
        count: 1,
        place,
    }
}

/// The tally after one more event at which its rule counts. The count stops at `u64::MAX`.
#[inline(always)]
pub(crate) fn counted(tally: AskedEntry) -> AskedEntry
    ensures { (rule : ARule) (place : ℕ) → Some result ≡ next_tally rule place true (Some tally) }
{
    AskedEntry {
        count: tally.count.saturating_add(1),
        ..tally
    }
}

/// The tallies of the rules that counted, in the same order.
pub(crate) fn entries_of(tallies: &[Option<AskedEntry>; ASKED_COUNT]) -> AskedEntries
    ensures { result.items ≡ filter_map (λ tally. tally) tallies.now }
{
    let mut entries = ArrayVec::new();
    for index in 0..ASKED_COUNT {
        match tallies[index] {
            Some(entry) => entries.push(entry),
            None => {}
        }
    }
    entries
}
