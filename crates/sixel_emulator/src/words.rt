//! What several terminals ask of events.

ghost use Rattle.std.specs.Prelude.{◌≡◌, ◌<◌, ◌≤◌, ◌-◌, ℕ, IsTrue, false, is_some, length, slice_index, take};
ghost use Rattle.std.specs.List.{list_any};
ghost use Rattle.sixel_grammar.specs.Bytes.{is_data};
ghost use Rattle.sixel_grammar.specs.declared.command.Command.TheVariants.{Sixel};
ghost use Rattle.sixel_grammar.specs.declared.command.Event.TheVariants.{Step};
ghost use Rattle.sixel_model.specs.Events as said;
ghost use Rattle.sixel_terminal.specs.Stretches.{sixels_of};
ghost use Rattle.sixel_emulator.specs.Words.{defining as defining_command, kept as kept_command, nearest, second_of};
ghost use Rattle.sixel_emulator.specs.Words.{upper};

use arrayvec::ArrayVec;
use sixel_grammar::{Command, Event};
use sixel_model::{BAND_ROWS, Colour, Parts};

/// An introducer with these parameters.
fn introducer(eight: bool, from: &ArrayVec<u16, 3>) -> Event
    ensures { result ≡ Event.Start eight from.now }
{
    let mut parameters = ArrayVec::new();
    let _ = parameters.try_extend_from_slice(from.as_slice());
    Event::Start { eight, parameters }
}

/// The same event.
pub fn same(event: &Event) -> Event
    ensures { result ≡ event.now }
{
    match event {
        Event::Start { eight, parameters } => introducer(*eight, parameters),
        Event::Step(command) => Event::Step(*command),
        Event::Finish { eight } => Event::Finish { eight: *eight },
    }
}

/// The sixel of a data byte.
pub fn sixel(byte: u8) -> Event
    requires { IsTrue (is_data byte) }
    ensures { result ≡ Step (Sixel (byte - 63)) }
{
    Event::Step(Command::Sixel(byte - b'?'))
}

/// The second parameter, if the event is an introducer. 0 if the parameter is missing.
#[inline(always)]
pub fn second_of(event: &Event) -> Option<u16>
    ensures { result ≡ second_of event.now }
{
    match event {
        Event::Start { parameters, .. } => Some(parameters.get(1).copied().unwrap_or(0)),
        _ => None,
    }
}

/// The colour of a definition, each coordinate moved to the nearest value in range. There are two colour systems.
#[inline(always)]
pub fn nearest(system: u16, x: u16, y: u16, z: u16) -> Option<Colour>
    ensures { result ≡ nearest system x y z }
{
    let (second, third) = (y.min(100) as u8, z.min(100) as u8);
    match system {
        1 => Colour::hls(x.min(360), second, third),
        2 => Colour::rgb(x.min(100) as u8, second, third),
        _ => None,
    }
}

/// The definition of a register that gives it this colour.
#[inline(always)]
pub fn defining(register: u16, colour: Colour) -> Command
    ensures { result ≡ defining_command register colour }
{
    let (system, x, y, z) = match colour.parts() {
        Parts::Hls(hue, lightness, saturation) => (1, hue, lightness, saturation),
        Parts::Rgb(red, green, blue) => (2, u16::from(red), green, blue),
    };
    Command::Define {
        register,
        system,
        x,
        y: u16::from(y),
        z: u16::from(z),
    }
}

/// The upper rows of a sixel: so many of its bits, from bit 0 on.
pub fn upper(rows: u32, bits: u8) -> u8
    ensures { result ≡ upper rows bits }
{
    bits % (1 << rows.min(BAND_ROWS))
}

/// What is kept of a data command of so many columns with these bits where so many columns and rows are left: the
/// command itself, if nothing is cut off.
#[inline(always)]
pub fn kept(columns: u16, rows: u32, command: Command, count: u16, bits: u8) -> Command
    ensures { result ≡ kept_command columns rows command count bits }
{
    if count <= columns && rows >= BAND_ROWS {
        command
    } else {
        Command::Repeat {
            count: count.min(columns),
            bits: upper(rows, bits),
        }
    }
}

/// Whether it is a sixel or a repeat.
#[inline(always)]
pub fn is_data_command(event: &Event) -> bool
    ensures { result ≡ said.is_data_command event.now }
{
    matches!(
        event,
        Event::Step(Command::Sixel(_) | Command::Repeat { .. })
    )
}

/// Whether it is a sixel or a repeat with at least one of the six bits set.
#[inline(always)]
pub fn is_painting(event: &Event) -> bool
    ensures { result ≡ said.is_painting event.now }
{
    match event {
        Event::Step(Command::Sixel(bits) | Command::Repeat { bits, .. }) => *bits % 64 != 0,
        _ => false,
    }
}

/// How many columns a data command has; 0 for any other event.
#[inline(always)]
pub fn columns_of(event: &Event) -> u16
    ensures { result ≡ said.columns_of 0 event.now }
{
    match event {
        Event::Step(Command::Sixel(_)) => 1,
        Event::Step(Command::Repeat { count, .. }) => *count,
        _ => 0,
    }
}

/// Whether it is raster attributes.
#[inline(always)]
pub fn is_raster(event: &Event) -> bool
    ensures { result ≡ is_some (said.raster_of event.now) }
{
    matches!(event, Event::Step(Command::Raster { .. }))
}

/// The register that a select or a definition names.
#[inline(always)]
pub fn named_by(event: &Event) -> Option<u16>
    ensures { result ≡ said.named_by event.now }
{
    match event {
        Event::Step(Command::Select(register)) => Some(*register),
        Event::Step(Command::Define { register, .. }) => Some(*register),
        _ => None,
    }
}

/// Whether it is a repeat whose count is 0.
pub fn is_repeat_of_zero(event: &Event) -> bool
    ensures { result ≡ said.is_repeat_of_zero event.now }
{
    matches!(event, Event::Step(Command::Repeat { count: 0, .. }))
}

/// Whether it goes to the left margin, in the same band or the next.
#[inline(always)]
pub fn is_return(event: &Event) -> bool
    ensures { result ≡ said.is_return event.now }
{
    matches!(
        event,
        Event::Step(Command::CarriageReturn | Command::NextLine)
    )
}

/// Whether it is the terminator.
pub fn is_finish(event: &Event) -> bool
    ensures { result ≡ said.is_finish event.now }
{
    matches!(event, Event::Finish { .. })
}

/// How many of these data bytes come before the first whose sixel has a set bit.
pub fn leading_blanks(bytes: &[u8]) -> usize
    ensures within { result ≤ length bytes.now }
    ensures blank { list_any said.is_painting (sixels_of (take result bytes.now)) ≡ false }
{
    for (index, byte) in bytes.iter().enumerate() {
        if *byte != b'?' {
            return index;
        }
    }
    bytes.len()
}

/// Whether one of the sixels of these data bytes has a set bit.
pub fn has_painting(bytes: &[u8]) -> bool
    requires { (k : ℕ) → k < length bytes.now → IsTrue (is_data (slice_index bytes.now k)) }
    ensures { result ≡ list_any said.is_painting (sixels_of bytes.now) }
{
    for byte in bytes {
        if *byte != b'?' {
            return true;
        }
    }
    false
}
