//! The plain terminal that draws what the reading of mlterm gives.

ghost use Rattle.std.specs.Prelude.{◌≡◌, ◌&&◌, IfOk, IsTrue};
ghost use Rattle.sixel_terminal.specs.Limits.{is_screen_side};
ghost use Rattle.sixel_mlterm.specs.Settings.{mlterm_choices};
ghost use Rattle.sixel_mlterm.specs.Settings.{mlterm_colours, mlterm_display, mlterm_start};
ghost use Rattle.sixel_emulator.specs.Settings.{plain_choices};

use sixel_emulator::plain_choices;
use sixel_model::Colour;
use sixel_terminal::{Choices, Ground, Terminal};
use std::alloc::{AllocError, Global};

/// How many registers mlterm has.
const REGISTERS: u16 = 1024;

/// The choices of mlterm, on a screen of this size.
fn mlterm_choices(width: u32, height: u32) -> Choices
    ensures { result ≡ mlterm_choices width height }
{
    plain_choices(false, Ground::Kept, 0, width, height)
}

/// The colour with which a register of mlterm starts.
fn mlterm_start(background: Colour, register: u16) -> Colour
    ensures { result ≡ mlterm_start background register }
{
    match register {
        0 => Colour::of_percentages(0, 0, 0),
        _ => background,
    }
}

/// The colours with which mlterm's registers start.
fn mlterm_colours(alloc: Global, background: Colour) -> Result<Vec<Colour>, AllocError>
    ensures { IfOk result (λ colours. colours.items ≡ mlterm_colours background) }
{
    let mut colours = Vec::new(alloc);
    for register in 0..REGISTERS {
        colours.push(mlterm_start(background, register))?;
    }
    Ok(colours)
}

/// mlterm, on a screen of this size and of the background.
pub fn mlterm_terminal(
    alloc: Global,
    background: Colour,
    width: u32,
    height: u32,
) -> Result<Terminal, AllocError>
    requires { IsTrue (is_screen_side width && is_screen_side height) }
    ensures { IfOk result (λ terminal. terminal ≡ mlterm_display background width height) }
{
    let colours = mlterm_colours(alloc, background)?;
    match Terminal::plain(mlterm_choices(width, height), colours, background) {
        Ok(terminal) => Ok(terminal),
        Err(_) => unreachable!(),
    }
}
