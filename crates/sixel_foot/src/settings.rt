//! The plain terminal that draws what the reading of foot gives.

ghost use Rattle.std.specs.Prelude.{◌≡◌, ◌&&◌, IfOk, IsTrue};
ghost use Rattle.sixel_terminal.specs.Limits.{is_screen_side};
ghost use Rattle.sixel_foot.specs.Settings.{foot_choices, foot_colours, foot_display};
ghost use Rattle.sixel_emulator.specs.Settings.{plain_choices};

use crate::foot::UNDEFINED;
use sixel_emulator::plain_choices;
use sixel_model::{Colour, LEAST_REGISTERS};
use sixel_terminal::{Choices, Ground, Terminal};
use std::alloc::{AllocError, Global};

/// The choices of foot, on a screen of this size.
fn foot_choices(width: u32, height: u32) -> Choices
    ensures { result ≡ foot_choices width height }
{
    plain_choices(false, Ground::Kept, UNDEFINED, width, height)
}

/// The colours with which foot's registers start.
fn foot_colours(alloc: Global, background: Colour) -> Result<Vec<Colour>, AllocError>
    ensures { IfOk result (λ colours. colours.items ≡ foot_colours background) }
{
    vec![in alloc; background; LEAST_REGISTERS]
}

/// foot, on a screen of this size and of the background.
pub fn foot_terminal(
    alloc: Global,
    background: Colour,
    width: u32,
    height: u32,
) -> Result<Terminal, AllocError>
    requires { IsTrue (is_screen_side width && is_screen_side height) }
    ensures { IfOk result (λ terminal. terminal ≡ foot_display background width height) }
{
    let colours = foot_colours(alloc, background)?;
    match Terminal::plain(foot_choices(width, height), colours, background) {
        Ok(terminal) => Ok(terminal),
        Err(_) => unreachable!(),
    }
}
