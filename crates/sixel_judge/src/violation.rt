//! The first rule that counts at an event.

ghost use Rattle.std.specs.Prelude.{ℕ, List, None};
ghost use Rattle.std.specs.Option.{option_map};
ghost use Rattle.sixel_grammar.specs.declared.command.Event.{Event as EventValue};
ghost use Rattle.sixel_model.specs.Profiles.{count_of};
ghost use Rattle.sixel_plane.specs.Covers.{kept_by};
ghost use Rattle.sixel_judge.specs.Counting.{IsFirstUpTo};
ghost use Rattle.sixel_judge.specs.Covering.{IsCoverOf};
ghost use Rattle.sixel_judge.specs.Judging.{IsGridAfter};
ghost use Rattle.sixel_judge.specs.Notes.{IsNotesAfter};

use crate::events::is_eight_bit;
use crate::hits::{outside_at, uncovered_at};
use crate::notes::Notes;
use crate::rules::first_by_notes;
use sixel_grammar::Event;
use sixel_model::{Profile, RULE_COUNT, Rule};
use sixel_plane::Cover;

/// A broken rule, and its pixel as in `Finding`.
#[derive(Clone, Copy, Debug)]
pub(crate) struct Violation {
    pub rule: Rule,
    pub pixel: Option<(u64, u64)>,
}

/// A violation of `EightBit`, the last rule.
#[inline]
fn violation_of_eight_bit(event: &Event) -> Option<Violation>
    ensures { (registers : ℕ) (before : List EventValue) → IsFirstUpTo registers 12 before event.now None
        → IsFirstUpTo registers RULE_COUNT before event.now result }
{
    if is_eight_bit(event) {
        Some(Violation {
            rule: Rule::EightBit,
            pixel: None,
        })
    } else {
        None
    }
}

/// A violation of `Outside`, `Uncovered` or `EightBit`, the first of them that counts.
#[inline(always)]
fn violation_of_pixels<P: Cover>(notes: &Notes, plane: &P, event: &Event) -> Option<Violation>
    ensures { (registers : ℕ) (before : List EventValue) → IsNotesAfter notes.now before
        → IsCoverOf (P.grid plane.now) before → IsFirstUpTo registers 10 before event.now None
        → IsFirstUpTo registers RULE_COUNT before event.now result }
{
    match outside_at(notes, plane, event) {
        Some(pixel) => Some(Violation {
            rule: Rule::Outside,
            pixel: Some(pixel),
        }),
        None => match uncovered_at(notes, plane, event) {
            Some(pixel) => Some(Violation {
                rule: Rule::Uncovered,
                pixel: Some(pixel),
            }),
            None => violation_of_eight_bit(event),
        },
    }
}

/// The first of the rules that count at the event. It is inlined, and so are its callees: a caller that knows the kind
/// of the event keeps only the tests for that kind.
#[inline(always)]
pub(crate) fn violation_of<P: Cover>(
    profile: Profile,
    notes: &Notes,
    plane: &Option<P>,
    event: &Event,
) -> Option<Violation>
    ensures { (before : List EventValue) → IsNotesAfter notes.now before
        → IsGridAfter (kept_by P.keeps) (option_map P.grid plane.now) before
        → IsFirstUpTo (count_of profile) RULE_COUNT before event.now result }
{
    match (
        first_by_notes(profile, notes, plane.is_some(), event),
        plane,
    ) {
        (Some(rule), _) => Some(Violation { rule, pixel: None }),
        (None, Some(plane)) => violation_of_pixels(notes, plane, event),
        (None, None) => violation_of_eight_bit(event),
    }
}
