//! The verdict.

use crate::history::{box_of, command_of};
use crate::pixels::{outside, painted};
use crate::rules::plain_rule;
use sixel_grammar::{Event, InputFault, Placed, read_all};
use sixel_io::SliceSource;
use sixel_judge::{Finding, Rule};
use sixel_model::Profile;
use std::alloc::{AllocError, Global};

/// The plain judge's verdict.
#[derive(Clone, Copy, Debug, PartialEq, Eq, Drop)]
pub enum PlainVerdict {
    /// No rule is broken. The width and the height are those of the box, in pixels.
    Portable { width: u64, height: u64 },
    /// The first broken rule.
    Broken(Finding),
}

/// Whether the event is an 8-bit control.
fn is_eight_bit(event: &Event) -> bool {
    match event {
        Event::Start { eight, .. } | Event::Finish { eight } => *eight,
        Event::Step(_) => false,
    }
}

/// A broken rule, and the first pixel that breaks it.
type Broken = (Rule, (u64, u64));

/// `Uncovered` and the first unpainted pixel of the box, if the event is an end and there is one.
fn blank(
    alloc: Global,
    before: &[Placed],
    event: &Event,
    width: u64,
    height: u64,
) -> Result<Option<Broken>, AllocError> {
    if let Event::Finish { .. } = event {
        let pixels = painted(alloc, before, width, height)?;
        if let Some(pixel) = pixels.uncovered() {
            return Ok(Some((Rule::Uncovered, pixel)));
        }
    }
    Ok(None)
}

/// The broken rule of those on pixels, and its pixel.
fn pixel_rule(
    alloc: Global,
    before: &[Placed],
    placed: &Placed,
) -> Result<Option<Broken>, AllocError> {
    match box_of(before) {
        None => Ok(None),
        Some((width, height)) => {
            if let Some(pixel) = outside(before, command_of(placed), width, height) {
                return Ok(Some((Rule::Outside, pixel)));
            }
            blank(alloc, before, &placed.event, width, height)
        }
    }
}

/// The first rule that the event breaks.
fn finding_at(
    alloc: Global,
    profile: Profile,
    before: &[Placed],
    placed: &Placed,
) -> Result<Option<Finding>, AllocError> {
    let place = placed.place;
    let finding = |rule, pixel| Some(Finding { rule, place, pixel });
    if let Some(rule) = plain_rule(profile, before, &placed.event) {
        return Ok(finding(rule, None));
    }
    if let Some((rule, pixel)) = pixel_rule(alloc, before, placed)? {
        return Ok(finding(rule, Some(pixel)));
    }
    if is_eight_bit(&placed.event) {
        return Ok(finding(Rule::EightBit, None));
    }
    Ok(None)
}

/// The verdict on the events of a document. It takes at least quadratic time.
pub fn judge_events(
    alloc: Global,
    profile: Profile,
    events: &[Placed],
) -> Result<PlainVerdict, AllocError> {
    for (position, placed) in events.iter().enumerate() {
        let before = events.get(..position).unwrap_or(&[]);
        if let Some(finding) = finding_at(alloc, profile, before, placed)? {
            return Ok(PlainVerdict::Broken(finding));
        }
    }
    // Without raster attributes the end would have broken a rule.
    let (width, height) = box_of(events).unwrap_or((0, 0));
    Ok(PlainVerdict::Portable { width, height })
}

/// The verdict on a document; or the fault, if the bytes are no document.
pub fn judge(alloc: Global, profile: Profile, bytes: &[u8]) -> Result<PlainVerdict, InputFault> {
    let events = read_all(alloc, &mut SliceSource::new(bytes, 4096, None))?;
    Ok(judge_events(alloc, profile, &events)?)
}
