//! Where a rule counts.

ghost use Rattle.std.specs.Prelude.{◌≡◌, ℕ, List, None, Some, false, true, if◌then◌else◌};
ghost use Rattle.std.specs.Option.{option_map};
ghost use Rattle.sixel_grammar.specs.declared.command.Event.{Event as EventValue};
ghost use Rattle.sixel_model.specs.Events as said;
ghost use Rattle.sixel_model.specs.Profiles.{count_of};
ghost use Rattle.sixel_model.specs.Rules.{StaysBlank};
ghost use Rattle.sixel_model.specs.declared.rule.Rule.TheVariants.{Outside, Uncovered};
ghost use Rattle.sixel_judge.specs.Counting.{IsHit, at_pixel, paints_early};
ghost use Rattle.sixel_judge.specs.Covering.{IsCoverAfter, IsCoverOf};
ghost use Rattle.sixel_judge.specs.Notes.{IsNotesAfter};
ghost use Rattle.sixel_judge.specs.Outside.{IsFirstIfAny};

use crate::events::{bits_of, columns_of, is_finish};
use crate::notes::Notes;
use crate::outside::outside_pixel;
use crate::rules::counts_by_notes;
use sixel_grammar::Event;
use sixel_model::{Profile, Rule};
use sixel_plane::Cover;

/// A rule counts at an event.
#[derive(Clone, Copy, Debug)]
pub struct Hit {
    /// The pixel of the event, as in `Finding`.
    pub pixel: Option<(u64, u64)>,
}

/// The first pixel outside the box, in row order, that the event paints: there `Outside` counts.
#[inline(always)]
pub(crate) fn outside_at<P: Cover>(notes: &Notes, plane: &P, event: &Event) -> Option<(u64, u64)>
    ensures { (registers : ℕ) (before : List EventValue) → IsNotesAfter notes.now before
        → IsCoverOf (P.grid plane.now) before → IsHit registers Outside before event.now (at_pixel result) }
{
    outside_pixel(
        notes.column,
        notes.band,
        columns_of(event),
        bits_of(event),
        plane.width(),
        plane.height(),
    )
}

/// The first blank pixel of the box.
#[inline]
fn pixel_blank<P: Cover>(plane: &P) -> Option<(u64, u64)>
    ensures { (before : List EventValue) → (c : IsCoverOf (P.grid plane.now) before) → paints_early before ≡ false
        → IsFirstIfAny (StaysBlank before c.box) result }
{
    match plane.first_blank() {
        Some((x, y)) => Some((x as u64, y as u64)),
        None => None,
    }
}

/// The pixel at which `Uncovered` counts at the finish, if it counts. It takes no event: one that is handed to a call
/// stays in memory.
#[inline(never)]
fn uncovered_at_finish<P: Cover>(notes: &Notes, plane: &P) -> Option<(u64, u64)>
    ensures { (registers : ℕ) (before : List EventValue) (e : EventValue) → said.is_finish e ≡ true
        → IsNotesAfter notes.now before → IsCoverOf (P.grid plane.now) before
        → IsHit registers Uncovered before e (at_pixel result) }
{
    if notes.early {
        None
    } else {
        pixel_blank(plane)
    }
}

/// The pixel at which `Uncovered` counts, if it counts.
#[inline(always)]
pub(crate) fn uncovered_at<P: Cover>(notes: &Notes, plane: &P, event: &Event) -> Option<(u64, u64)>
    ensures { (registers : ℕ) (before : List EventValue) → IsNotesAfter notes.now before
        → IsCoverOf (P.grid plane.now) before → IsHit registers Uncovered before event.now (at_pixel result) }
{
    if is_finish(event) {
        uncovered_at_finish(notes, plane)
    } else {
        None
    }
}

/// A hit at the pixel, if there is one.
#[inline]
fn hit_at(pixel: Option<(u64, u64)>) -> Option<Hit>
    ensures { result ≡ at_pixel pixel }
{
    match pixel {
        Some(pixel) => Some(Hit { pixel: Some(pixel) }),
        None => None,
    }
}

/// Where `Outside` counts.
#[inline(always)]
fn hit_outside<P: Cover>(notes: &Notes, plane: &Option<P>, event: &Event) -> Option<Hit>
    ensures { (registers : ℕ) (before : List EventValue) → IsNotesAfter notes.now before
        → IsCoverAfter (option_map P.grid plane.now) before → IsHit registers Outside before event.now result }
{
    match plane {
        Some(plane) => hit_at(outside_at(notes, plane, event)),
        None => None,
    }
}

/// Where `Uncovered` counts.
#[inline(always)]
fn hit_uncovered<P: Cover>(notes: &Notes, plane: &Option<P>, event: &Event) -> Option<Hit>
    ensures { (registers : ℕ) (before : List EventValue) → IsNotesAfter notes.now before
        → IsCoverAfter (option_map P.grid plane.now) before → IsHit registers Uncovered before event.now result }
{
    match plane {
        Some(plane) => hit_at(uncovered_at(notes, plane, event)),
        None => None,
    }
}

/// A hit without a pixel, if a rule counts.
#[inline]
fn hit_if(counts: bool) -> Option<Hit>
    ensures { result ≡ (if counts then Some (record { pixel = None }) else None) }
{
    if counts {
        Some(Hit { pixel: None })
    } else {
        None
    }
}

/// Where the rule counts at the event.
#[inline(always)]
pub fn hit_of<P: Cover>(
    profile: Profile,
    notes: &Notes,
    plane: &Option<P>,
    event: &Event,
    rule: Rule,
) -> Option<Hit>
    ensures { (before : List EventValue) → IsNotesAfter notes.now before
        → IsCoverAfter (option_map P.grid plane.now) before
        → IsHit (count_of profile) rule before event.now result }
{
    match rule {
        Rule::Outside => hit_outside(notes, plane, event),
        Rule::Uncovered => hit_uncovered(notes, plane, event),
        _ => hit_if(counts_by_notes(profile, notes, event, rule)),
    }
}
