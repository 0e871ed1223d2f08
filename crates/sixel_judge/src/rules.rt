//! The rules, one by one.

ghost use Rattle.std.specs.Prelude.{◌≡◌, false, not};
ghost use Rattle.std.specs.List.{find};
ghost use Rattle.std.specs.Option.{option_map, option_map_or};
ghost use Rattle.sixel_model.specs.Events.{is_same_definition};
ghost use Rattle.sixel_model.specs.Profiles.{count_of};
ghost use Rattle.sixel_model.specs.Rules as of;
ghost use Rattle.sixel_judge.specs.Notes as by_notes;

use crate::colours::colour_in;
use crate::events::{
    is_data_command, is_eight_bit, is_finish, is_painting, is_raster, is_repeat_of_zero, is_return,
    named_by,
};
use crate::notes::{Definition, Notes};
use sixel_grammar::{Command, Event};
use sixel_model::{Profile, Rule};

/// The greatest side of a box, in pixels.
const MOST_SIDE: u16 = 2048;

/// A data command, a return or the finish before any raster attributes.
#[inline]
pub fn breaks_raster_first(has_box: bool, event: &Event) -> bool
    ensures { result ≡ by_notes.raster_first_in has_box event.now }
{
    !has_box && (is_data_command(event) || is_return(event) || is_finish(event))
}

/// Raster attributes after raster attributes.
#[inline]
pub fn breaks_raster_twice(has_box: bool, event: &Event) -> bool
    ensures { result ≡ by_notes.raster_twice_in has_box event.now }
{
    has_box && is_raster(event)
}

/// Raster attributes whose aspect ratio isn't written as 1 to 1.
#[tactic(auto, unfolding(sixel_model::specs::Rules::breaks_ratio))]
#[inline]
pub fn breaks_ratio(event: &Event) -> bool
    ensures { result ≡ of.breaks_ratio event.now }
{
    match event {
        Event::Step(Command::Raster { pan, pad, .. }) => !(*pan == 1 && *pad == 1),
        _ => false,
    }
}

/// Raster attributes with a side outside 1 to 2,048 pixels.
#[tactic(auto, unfolding(sixel_model::specs::Rules::breaks_box_size))]
#[inline]
pub fn breaks_box_size(event: &Event) -> bool
    ensures { result ≡ of.breaks_box_size event.now }
{
    match event {
        Event::Step(Command::Raster { width, height, .. }) => {
            !(*width >= 1 && *width <= MOST_SIDE && (*height >= 1 && *height <= MOST_SIDE))
        }
        _ => false,
    }
}

/// A definition that gives no colour in range.
#[tactic(auto, unfolding(sixel_model::specs::Rules::breaks_colour_value))]
#[inline(always)]
pub fn breaks_colour_value(event: &Event) -> bool
    ensures { result ≡ of.breaks_colour_value event.now }
{
    match event {
        Event::Step(
            Command::Define {
                system,
                x,
                y,
                z,
                ..
            },
        ) => colour_in(*system, *x, *y, *z).is_none(),
        _ => false,
    }
}

/// A repeat of 0.
#[tactic(auto, unfolding(sixel_model::specs::Rules::breaks_repeat_zero))]
#[inline]
pub fn breaks_repeat_zero(event: &Event) -> bool
    ensures { result ≡ of.breaks_repeat_zero event.now }
{
    is_repeat_of_zero(event)
}

/// A select or a definition of a register that the profile doesn't have.
#[tactic(auto, unfolding(sixel_model::specs::Rules::breaks_register))]
#[inline]
fn breaks_register(profile: Profile, event: &Event) -> bool
    ensures { result ≡ of.breaks_register (count_of profile) event.now }
{
    match named_by(event) {
        Some(register) => register >= profile.count(),
        None => false,
    }
}

/// A painting command while no register is known.
#[inline(always)]
fn breaks_unselected(notes: &Notes, event: &Event) -> bool
    ensures { result ≡ by_notes.unselected_in notes.now event.now }
{
    is_painting(event) && notes.known().is_none()
}

/// A painting command whose known register is one of the profile's and has no definition.
#[inline(always)]
fn paints_undefined(profile: Profile, notes: &Notes, event: &Event) -> bool
    ensures { result ≡ by_notes.undefined_in (count_of profile) notes.now event.now }
{
    is_painting(event) && notes.lacks_definition(profile)
}

/// Whether there is a definition that says something else.
#[inline]
fn differs(definition: Option<Definition>, other: Definition) -> bool
    ensures { result ≡ option_map_or (λ d. not (is_same_definition d (by_notes.said other)))
        (option_map by_notes.said definition) false }
{
    match definition {
        Some(definition) => {
            !(definition.system == other.system
                && definition.x == other.x
                && definition.y == other.y
                && definition.z == other.z)
        }
        None => false,
    }
}

/// A definition of one of the profile's registers that was painted in and defined, unless it repeats the last one.
#[inline(always)]
fn redefines(profile: Profile, notes: &Notes, event: &Event) -> bool
    ensures { result ≡ by_notes.redefined_in (count_of profile) notes.now event.now }
{
    match event {
        Event::Step(
            Command::Define {
                register,
                system,
                x,
                y,
                z,
            },
        ) => {
            let other = Definition {
                system: *system,
                x: *x,
                y: *y,
                z: *z,
            };
            *register < profile.count()
                && notes.is_painted_in(*register)
                && differs(notes.definition(*register), other)
        }
        _ => false,
    }
}

/// Whether the rule counts at the event, if it isn't one of the two rules on pixels.
#[inline(always)]
pub(crate) fn counts_by_notes(profile: Profile, notes: &Notes, event: &Event, rule: Rule) -> bool
    ensures { result ≡ by_notes.counts_in (count_of profile) notes.now event.now rule }
{
    match rule {
        Rule::RasterFirst => breaks_raster_first(notes.declared, event),
        Rule::RasterTwice => breaks_raster_twice(notes.declared, event),
        Rule::Ratio => breaks_ratio(event),
        Rule::BoxSize => breaks_box_size(event),
        Rule::Register => breaks_register(profile, event),
        Rule::ColourValue => breaks_colour_value(event),
        Rule::RepeatZero => breaks_repeat_zero(event),
        Rule::Unselected => breaks_unselected(notes, event),
        Rule::Undefined => paints_undefined(profile, notes, event),
        Rule::Redefined => redefines(profile, notes, event),
        Rule::Outside | Rule::Uncovered => false,
        Rule::EightBit => is_eight_bit(event),
    }
}

/// The first of the ten rules before `Outside` that counts at the event. `counts_by_notes` for each of them would be
/// too large to be inlined. `has_box` is whether raster attributes came: a caller that has a plane knows it.
#[inline(always)]
pub(crate) fn first_by_notes(
    profile: Profile,
    notes: &Notes,
    has_box: bool,
    event: &Event,
) -> Option<Rule>
    ensures { has_box ≡ notes.now.declared
        → result ≡ find (by_notes.counts_in (count_of profile) notes.now event.now) by_notes.before_outside }
{
    if breaks_raster_first(has_box, event) {
        Some(Rule::RasterFirst)
    } else if breaks_raster_twice(has_box, event) {
        Some(Rule::RasterTwice)
    } else if breaks_ratio(event) {
        Some(Rule::Ratio)
    } else if breaks_box_size(event) {
        Some(Rule::BoxSize)
    } else if breaks_register(profile, event) {
        Some(Rule::Register)
    } else if breaks_colour_value(event) {
        Some(Rule::ColourValue)
    } else if breaks_repeat_zero(event) {
        Some(Rule::RepeatZero)
    } else if breaks_unselected(notes, event) {
        Some(Rule::Unselected)
    } else if paints_undefined(profile, notes, event) {
        Some(Rule::Undefined)
    } else if redefines(profile, notes, event) {
        Some(Rule::Redefined)
    } else {
        None
    }
}
