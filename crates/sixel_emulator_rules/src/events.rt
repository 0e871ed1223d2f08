//! What each event says.

ghost use Rattle.std.specs.Prelude.{◌≡◌, is_some};
ghost use Rattle.std.specs.Option.{option_map};
ghost use Rattle.sixel_model.specs.Events as said;
ghost use Rattle.sixel_emulator_rules.specs.Notes.{AreNarrow, attributes};

use crate::notes::Declared;
use sixel_grammar::{Command, Event};

/// How many columns a data command has; 0 for any other event.
#[inline(always)]
pub(crate) fn columns_of(event: &Event) -> u16
    ensures { result ≡ said.columns_of 0 event.now }
{
    match event {
        Event::Step(Command::Sixel(_)) => 1,
        Event::Step(Command::Repeat { count, .. }) => *count,
        _ => 0,
    }
}

/// Whether it is a sixel or a repeat.
#[inline(always)]
pub(crate) fn is_data_command(event: &Event) -> bool
    ensures { result ≡ said.is_data_command event.now }
{
    matches!(
        event,
        Event::Step(Command::Sixel(_) | Command::Repeat { .. })
    )
}

/// Whether it is a sixel or a repeat with at least one of the six bits set.
#[inline(always)]
pub(crate) fn is_painting(event: &Event) -> bool
    ensures { result ≡ said.is_painting event.now }
{
    match event {
        Event::Step(Command::Sixel(bits) | Command::Repeat { bits, .. }) => *bits % 64 != 0,
        _ => false,
    }
}

/// Whether it goes to the next band.
#[inline(always)]
pub(crate) fn is_next_line(event: &Event) -> bool
    ensures { result ≡ said.is_next_line event.now }
{
    matches!(event, Event::Step(Command::NextLine))
}

/// Whether it goes to the left margin, in the same band or the next.
#[inline(always)]
pub(crate) fn is_return(event: &Event) -> bool
    ensures { result ≡ said.is_return event.now }
{
    matches!(
        event,
        Event::Step(Command::CarriageReturn | Command::NextLine)
    )
}

/// The register that a select names.
#[inline(always)]
pub(crate) fn select_of(event: &Event) -> Option<u16>
    ensures { result ≡ said.select_of event.now }
{
    match event {
        Event::Step(Command::Select(register)) => Some(*register),
        _ => None,
    }
}

/// The register that a select or a definition names.
#[inline(always)]
pub(crate) fn named_by(event: &Event) -> Option<u16>
    ensures { result ≡ said.named_by event.now }
{
    match event {
        Event::Step(Command::Select(register)) => Some(*register),
        Event::Step(Command::Define { register, .. }) => Some(*register),
        _ => None,
    }
}

/// Whether it is raster attributes.
#[inline(always)]
pub(crate) fn is_raster(event: &Event) -> bool
    ensures { result ≡ is_some (said.raster_of event.now) }
{
    matches!(event, Event::Step(Command::Raster { .. }))
}

/// What raster attributes declare.
#[inline(always)]
pub(crate) fn raster_of(event: &Event) -> Option<Declared>
    ensures value { option_map attributes result ≡ said.raster_of event.now }
    ensures narrow { AreNarrow result }
{
    match event {
        Event::Step(
            Command::Raster {
                pan,
                pad,
                width,
                height,
            },
        ) => Some(Declared {
            pan: *pan,
            pad: *pad,
            width: *width,
            height: *height,
        }),
        _ => None,
    }
}
