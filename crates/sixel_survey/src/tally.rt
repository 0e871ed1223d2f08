//! How often a rule has counted so far, and where first.

ghost use Rattle.std.specs.Prelude.{◌≡◌, Some};
ghost use Rattle.sixel_survey.specs.Tallies.{next_tally, tally_with};

use crate::entry::Entry;
use sixel_judge::Rule;
use sixel_judge::hits::Hit;

/// The tally of a rule after an event at this offset, at which the rule counts. The count stops at `u64::MAX`.
#[inline(always)]
pub(crate) fn counted(tally: Option<Entry>, rule: Rule, place: u64, hit: Hit) -> Entry
    ensures { Some result ≡ next_tally rule place (Some hit) tally }
{
    match tally {
        None => Entry {
            rule,
            count: 1,
            place,
            pixel: hit.pixel,
        },
        Some(tally) => Entry {
            count: tally.count.saturating_add(1),
            ..tally
        },
    }
}

/// The tally of a rule after `more` more events at which it counts, without a pixel; the first one has this offset, if
/// there is one.
#[inline(always)]
pub(crate) fn counted_more(
    tally: Option<Entry>,
    rule: Rule,
    first: Option<u64>,
    more: u64,
) -> Option<Entry>
    ensures { result ≡ tally_with rule first more tally }
{
    match (first, tally) {
        (None, _) => tally,
        (Some(place), None) => Some(Entry {
            rule,
            count: more,
            place,
            pixel: None,
        }),
        (Some(_), Some(tally)) => Some(Entry {
            count: tally.count.saturating_add(more),
            ..tally
        }),
    }
}
