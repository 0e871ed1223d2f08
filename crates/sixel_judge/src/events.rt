//! What each event says.

ghost use Rattle.std.specs.Prelude.{◌≡◌, ◌≤◌, is_some};
ghost use Rattle.std.specs.Option.{option_map};
ghost use Rattle.sixel_grammar.specs.Spelling.{IsSpellable};
ghost use Rattle.sixel_model.specs.Events as said;
ghost use Rattle.sixel_judge.specs.Standing.{is_start as start_test};

use sixel_grammar::{Command, Event};

/// The bits of a sixel or a repeat: bit 0 is the top pixel. 0 for any other event.
pub fn bits_of(event: &Event) -> u8
    ensures value { result ≡ said.bits_of event.now }
    ensures below { IsSpellable event.now → result ≤ 63 }
{
    match event {
        Event::Step(Command::Sixel(bits)) => *bits,
        Event::Step(Command::Repeat { bits, .. }) => *bits,
        _ => 0,
    }
}

/// The number of columns of a sixel or a repeat; 0 for any other event.
pub fn columns_of(event: &Event) -> u16
    ensures { result ≡ said.columns_of 0 event.now }
{
    match event {
        Event::Step(Command::Sixel(_)) => 1,
        Event::Step(Command::Repeat { count, .. }) => *count,
        _ => 0,
    }
}

/// Whether it is a sixel or a repeat with at least one of the six bits set. A repeat of 0 is one too.
pub fn is_painting(event: &Event) -> bool
    ensures { result ≡ said.is_painting event.now }
{
    bits_of(event) % 64 != 0
}

/// Whether it is a sixel or a repeat.
pub fn is_data_command(event: &Event) -> bool
    ensures { result ≡ said.is_data_command event.now }
{
    matches!(
        event,
        Event::Step(Command::Sixel(_) | Command::Repeat { .. })
    )
}

/// Whether it is a repeat whose count is 0.
pub fn is_repeat_of_zero(event: &Event) -> bool
    ensures { result ≡ said.is_repeat_of_zero event.now }
{
    match event {
        Event::Step(Command::Repeat { count, .. }) => *count == 0,
        _ => false,
    }
}

/// Whether it goes to the next band.
pub fn is_next_line(event: &Event) -> bool
    ensures { result ≡ said.is_next_line event.now }
{
    matches!(event, Event::Step(Command::NextLine))
}

/// Whether it goes to the left margin, in the same band or the next.
pub fn is_return(event: &Event) -> bool
    ensures { result ≡ said.is_return event.now }
{
    matches!(
        event,
        Event::Step(Command::CarriageReturn | Command::NextLine)
    )
}

/// Whether it is the terminator.
pub fn is_finish(event: &Event) -> bool
    ensures { result ≡ said.is_finish event.now }
{
    matches!(event, Event::Finish { .. })
}

/// Whether it is an introducer or a terminator that is written as an 8-bit control.
pub fn is_eight_bit(event: &Event) -> bool
    ensures { result ≡ said.is_eight_bit event.now }
{
    matches!(
        event,
        Event::Start { eight: true, .. } | Event::Finish { eight: true }
    )
}

/// The register that a select names, whether or not the profile has it.
pub fn select_of(event: &Event) -> Option<u16>
    ensures { result ≡ said.select_of event.now }
{
    match event {
        Event::Step(Command::Select(register)) => Some(*register),
        _ => None,
    }
}

/// The register that a select or a definition names, whether or not the profile has it.
pub fn named_by(event: &Event) -> Option<u16>
    ensures { result ≡ said.named_by event.now }
{
    match event {
        Event::Step(Command::Select(register)) => Some(*register),
        Event::Step(Command::Define { register, .. }) => Some(*register),
        _ => None,
    }
}

/// Whether it is raster attributes.
pub fn is_raster(event: &Event) -> bool
    ensures { result ≡ is_some (said.raster_of event.now) }
{
    matches!(event, Event::Step(Command::Raster { .. }))
}

/// The width and the height in pixels of the box that raster attributes declare, in range or not.
pub fn sides_of(event: &Event) -> Option<(u32, u32)>
    ensures { result ≡ option_map (λ a. (a.width, a.height)) (said.raster_of event.now) }
{
    match event {
        Event::Step(Command::Raster { width, height, .. }) => Some((*width as u32, *height as u32)),
        _ => None,
    }
}

/// Whether it is the introducer.
pub fn is_start(event: &Event) -> bool
    ensures { result ≡ start_test event.now }
{
    matches!(event, Event::Start { .. })
}
