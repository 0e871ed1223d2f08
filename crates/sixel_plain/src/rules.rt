//! The rules that a command or an end breaks by itself, whatever the pixels are.

use crate::history::{box_of, definition, is_painted_in, known};
use sixel_grammar::{Command, Event, Placed};
use sixel_judge::Rule;
use sixel_model::Profile;

/// The lowest-numbered rule that raster attributes break.
fn raster_rule(boxed: bool, pan: u16, pad: u16, width: u16, height: u16) -> Option<Rule> {
    if boxed {
        Some(Rule::RasterTwice)
    } else if pan != 1 || pad != 1 {
        Some(Rule::Ratio)
    } else if width < 1 || width > 2048 || height < 1 || height > 2048 {
        Some(Rule::BoxSize)
    } else {
        None
    }
}

/// The last register of the profile.
fn last_of(profile: Profile) -> u16 {
    match profile {
        Profile::Registers16 => 15,
        Profile::Registers256 => 255,
    }
}

/// Whether the colour system is known and the coordinates are in range.
fn is_colour(given: [u16; 4]) -> bool {
    let [system, x, y, z] = given;
    let most = match system {
        1 => 360,
        2 => 100,
        _ => return false,
    };
    x <= most && y <= 100 && z <= 100
}

/// The lowest-numbered rule that a definition breaks.
fn definition_rule(
    profile: Profile,
    before: &[Placed],
    register: u16,
    given: [u16; 4],
) -> Option<Rule> {
    if register > last_of(profile) {
        Some(Rule::Register)
    } else if !is_colour(given) {
        Some(Rule::ColourValue)
    } else if definition(before, register) != Some(given) && is_painted_in(before, register) {
        Some(Rule::Redefined)
    } else {
        None
    }
}

/// The lowest-numbered rule that data breaks, if raster attributes came before.
fn data_rule(before: &[Placed], columns: u64, bits: u8) -> Option<Rule> {
    if columns == 0 {
        return Some(Rule::RepeatZero);
    }
    if bits == 0 {
        return None;
    }
    match known(before) {
        None => Some(Rule::Unselected),
        Some(register) if definition(before, register).is_none() => Some(Rule::Undefined),
        Some(_) => None,
    }
}

/// The lowest-numbered rule that a select or a definition breaks; `None` for any other command.
fn colour_rule(profile: Profile, before: &[Placed], command: Command) -> Option<Rule> {
    match command {
        Command::Select(register) if register > last_of(profile) => Some(Rule::Register),
        Command::Define {
            register,
            system,
            x,
            y,
            z,
        } => definition_rule(profile, before, register, [system, x, y, z]),
        _ => None,
    }
}

/// The lowest-numbered rule that a command breaks.
fn command_rule(profile: Profile, before: &[Placed], command: Command) -> Option<Rule> {
    let boxed = box_of(before).is_some();
    match command {
        Command::Raster {
            pan,
            pad,
            width,
            height,
        } => raster_rule(boxed, pan, pad, width, height),
        Command::Select(_) | Command::Define { .. } => colour_rule(profile, before, command),
        _ if !boxed => Some(Rule::RasterFirst),
        Command::Sixel(bits) => data_rule(before, 1, bits),
        Command::Repeat { count, bits } => data_rule(before, count as u64, bits),
        Command::CarriageReturn | Command::NextLine => None,
    }
}

/// The lowest-numbered rule that the event breaks, of all except those on pixels and `EightBit`.
pub(crate) fn plain_rule(profile: Profile, before: &[Placed], event: &Event) -> Option<Rule> {
    match event {
        Event::Start { .. } => None,
        Event::Step(command) => command_rule(profile, before, *command),
        Event::Finish { .. } if box_of(before).is_none() => Some(Rule::RasterFirst),
        Event::Finish { .. } => None,
    }
}
