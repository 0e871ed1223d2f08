//! A checker that gets one event at a time, with its pixels in a plane of bytes.

ghost use Rattle.std.specs.Prelude.{ℕ, List, OnOk};
ghost use Rattle.sixel_grammar.specs.declared.command.Placed.{Placed as PlacedValue};
ghost use Rattle.sixel_judge.specs.Standing.{StandsAfter};

use sixel_check::{Checker, Verdict};
use sixel_grammar::Placed;
use sixel_model::Profile;
use sixel_plane::BytePlane;
use std::alloc::{AllocError, Global};

/// Pushes the event, if it may come next. Returns whether it may.
fn push_next(checker: &mut Checker<BytePlane>, placed: &Placed) -> Result<bool, AllocError>
    requires { (registers : ℕ) × (seen : List PlacedValue) × StandsAfter registers checker.old seen }
    ensures { OnOk result ((registers : ℕ) × (seen : List PlacedValue) × StandsAfter registers checker.new seen) }
{
    if !checker.expects(&placed.event) || !placed.event.is_spellable() {
        return Ok(false);
    }
    checker.push(placed)?;
    Ok(true)
}

/// The verdict of a checker that got these events one by one; `None` if they aren't the events of a document.
pub fn verdict_by_events(
    alloc: Global,
    profile: Profile,
    events: &[Placed],
) -> Result<Option<Verdict>, AllocError> {
    let mut checker: Checker<BytePlane> = Checker::new(alloc, profile);
    for placed in events {
        if !push_next(&mut checker, placed)? {
            return Ok(None);
        }
    }
    if !checker.is_whole() {
        return Ok(None);
    }
    Ok(Some(checker.finish()?))
}
