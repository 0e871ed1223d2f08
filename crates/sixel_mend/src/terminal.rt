//! The terminal that shows a string.

ghost use Rattle.std.specs.Prelude.{◌≡◌, ◌&&◌, IfOk, IsTrue};
ghost use Rattle.sixel_model.specs.Pictures.{is_side};
ghost use Rattle.sixel_mend.specs.Screens.{mending_choices, mending_terminal, starting_colour, starting_colours};

use crate::mending::Mending;
use sixel_model::{Colour, MOST_REGISTERS};
use sixel_terminal::{Choices, Ground, Terminal, vt340_colour};
use std::alloc::{AllocError, Global};

/// The colours with which the registers start.
#[tactic(auto, using(crate::proofs::TerminalLemmas::starting_more))]
fn starting_colours(alloc: Global) -> Result<Vec<Colour>, AllocError>
    ensures { IfOk result (λ colours. colours.items ≡ starting_colours) }
{
    let mut colours = Vec::with_capacity(alloc, MOST_REGISTERS)?;
    for register in 0..MOST_REGISTERS as u16 {
        colours.push(vt340_colour(register % 16))?;
    }
    Ok(colours)
}

fn choices(mending: &Mending, width: u32, height: u32) -> Choices
    ensures { result ≡ mending_choices mending.now width height }
{
    Choices {
        binds_at_showing: mending.showing,
        selects: mending.selects,
        ground: Ground::Kept,
        selected: 0,
        zero: 1,
        clamps: true,
        clips: false,
        eight_bit: true,
        tall: 1,
        screen_width: width,
        screen_height: height,
        origin_x: 0,
        origin_y: 0,
    }
}

/// The terminal with a screen of these sides.
pub(crate) fn terminal_of(
    alloc: Global,
    mending: &Mending,
    width: u32,
    height: u32,
) -> Result<Terminal, AllocError>
    requires { IsTrue (is_side width && is_side height) }
    ensures { IfOk result (λ terminal. terminal ≡ mending_terminal mending.now width height) }
{
    let choices = choices(mending, width, height);
    match Terminal::plain(choices, starting_colours(alloc)?, mending.background) {
        Ok(terminal) => Ok(terminal),
        Err(_) => unreachable!(),
    }
}
