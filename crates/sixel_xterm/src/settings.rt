//! The plain terminal that draws what the reading of xterm gives.

ghost use Rattle.std.specs.Prelude.{◌≡◌, ◌&&◌, IfOk, IsTrue};
ghost use Rattle.sixel_terminal.specs.Limits.{is_screen_side};
ghost use Rattle.sixel_emulator.specs.Settings.{plain_choices};
ghost use Rattle.sixel_xterm.specs.Settings.{xterm_choices, xterm_colours, xterm_display};

use sixel_emulator::plain_choices;
use sixel_model::Colour;
use sixel_terminal::{Choices, Ground, Terminal, vt340_colour};
use std::alloc::{AllocError, Global};

/// How many registers xterm has.
const REGISTERS: u16 = 1024;

/// The choices of xterm, on a screen of this size.
fn xterm_choices(width: u32, height: u32) -> Choices
    ensures { result ≡ xterm_choices width height }
{
    plain_choices(true, Ground::Filled(0), 3, width, height)
}

/// The colours with which xterm's registers start.
fn xterm_colours(alloc: Global) -> Result<Vec<Colour>, AllocError>
    ensures { IfOk result (λ colours. colours.items ≡ xterm_colours) }
{
    let mut colours = Vec::new(alloc);
    for register in 0..REGISTERS {
        colours.push(vt340_colour(register))?;
    }
    Ok(colours)
}

/// xterm, on a screen of this size and of the background.
pub fn xterm_terminal(
    alloc: Global,
    background: Colour,
    width: u32,
    height: u32,
) -> Result<Terminal, AllocError>
    requires { IsTrue (is_screen_side width && is_screen_side height) }
    ensures { IfOk result (λ terminal. terminal ≡ xterm_display background width height) }
{
    let colours = xterm_colours(alloc)?;
    match Terminal::plain(xterm_choices(width, height), colours, background) {
        Ok(terminal) => Ok(terminal),
        Err(_) => unreachable!(),
    }
}
