//! What a command needs to know of the events before it.

use sixel_grammar::{Command, Event, Placed};

/// The command, if the event is one.
pub(crate) fn command_of(placed: &Placed) -> Option<Command> {
    match &placed.event {
        Event::Step(command) => Some(*command),
        _ => None,
    }
}

/// The columns and the bits of a sixel or repeat; 0 and 0 for any other command.
pub(crate) fn data_of(command: Option<Command>) -> (u64, u8) {
    match command {
        Some(Command::Sixel(bits)) => (1, bits),
        Some(Command::Repeat { count, bits }) => (count as u64, bits),
        _ => (0, 0),
    }
}

/// The width and the height of the first raster attributes, in pixels.
pub(crate) fn box_of(before: &[Placed]) -> Option<(u64, u64)> {
    for placed in before {
        if let Some(Command::Raster { width, height, .. }) = command_of(placed) {
            return Some((width as u64, height as u64));
        }
    }
    None
}

/// The register of the last select, if the last select or definition names it too.
pub(crate) fn known(before: &[Placed]) -> Option<u16> {
    let mut selected = None;
    let mut named = None;
    for placed in before {
        match command_of(placed) {
            Some(Command::Select(register)) => {
                selected = Some(register);
                named = Some(register);
            }
            Some(Command::Define { register, .. }) => named = Some(register),
            _ => {}
        }
    }
    if selected == named { selected } else { None }
}

/// The colour system and the coordinates that the command gives the register.
fn given_to(command: Option<Command>, wanted: u16) -> Option<[u16; 4]> {
    match command {
        Some(
            Command::Define {
                register,
                system,
                x,
                y,
                z,
            },
        ) if register == wanted => Some([system, x, y, z]),
        _ => None,
    }
}

/// The colour system and the coordinates of the last definition of the register.
pub(crate) fn definition(before: &[Placed], wanted: u16) -> Option<[u16; 4]> {
    let mut last = None;
    for placed in before {
        let given = given_to(command_of(placed), wanted);
        if given.is_some() {
            last = given;
        }
    }
    last
}

/// Whether a command painted in the register.
pub(crate) fn is_painted_in(before: &[Placed], register: u16) -> bool {
    for (position, placed) in before.iter().enumerate() {
        let earlier = before.get(..position).unwrap_or(&[]);
        if data_of(command_of(placed)).1 != 0 && known(earlier) == Some(register) {
            return true;
        }
    }
    false
}

/// The column and the row, in pixels, where the next data command paints.
pub(crate) fn corner(before: &[Placed]) -> (u64, u64) {
    let mut column: u64 = 0;
    let mut row: u64 = 0;
    for placed in before {
        match command_of(placed) {
            Some(Command::CarriageReturn) => column = 0,
            Some(Command::NextLine) => {
                column = 0;
                row = row.saturating_add(6);
            }
            command => column = column.saturating_add(data_of(command).0),
        }
    }
    (column, row)
}
