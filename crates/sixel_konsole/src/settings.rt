//! The plain terminal that draws what the reading of konsole gives.

ghost use Rattle.std.specs.Prelude.{◌≡◌, ◌&&◌, ◌<◌, IfOk, IsTrue};
ghost use Rattle.sixel_terminal.specs.Limits.{is_screen_side};
ghost use Rattle.sixel_konsole.specs.Settings.{konsole_choices};
ghost use Rattle.sixel_konsole.specs.Settings.{konsole_colours, konsole_display, konsole_start};
ghost use Rattle.sixel_emulator.specs.Settings.{plain_choices};

use sixel_emulator::plain_choices;
use sixel_model::{Colour, MOST_REGISTERS};
use sixel_terminal::{Choices, Ground, Terminal};
use std::alloc::{AllocError, Global};

/// The choices of konsole, on a screen of this size. `tall` is the height of a sixel pixel.
fn konsole_choices(tall: u16, width: u32, height: u32) -> Choices
    ensures { result ≡ konsole_choices tall width height }
{
    Choices {
        tall,
        ..plain_choices(true, Ground::Filled(0), 3, width, height)
    }
}

/// The colour with which a register of konsole starts.
fn konsole_start(register: u16) -> Colour
    ensures { result ≡ konsole_start register }
{
    match register {
        1 => Colour::of_percentages(20, 20, 80),
        2 => Colour::of_percentages(80, 14, 14),
        3 => Colour::of_percentages(20, 80, 20),
        4 => Colour::of_percentages(80, 20, 80),
        5 => Colour::of_percentages(20, 80, 80),
        6 => Colour::of_percentages(80, 80, 20),
        7 => Colour::of_percentages(47, 47, 47),
        8 => Colour::of_percentages(27, 27, 27),
        9 => Colour::of_percentages(34, 34, 60),
        10 => Colour::of_percentages(60, 27, 27),
        11 => Colour::of_percentages(34, 60, 34),
        12 => Colour::of_percentages(60, 34, 60),
        13 => Colour::of_percentages(34, 60, 60),
        14 => Colour::of_percentages(60, 60, 34),
        15 => Colour::of_percentages(80, 80, 80),
        _ => Colour::of_percentages(0, 0, 0),
    }
}

/// The colours with which konsole's registers start.
fn konsole_colours(alloc: Global) -> Result<Vec<Colour>, AllocError>
    ensures { IfOk result (λ colours. colours.items ≡ konsole_colours) }
{
    let mut colours = Vec::new(alloc);
    for register in 0..MOST_REGISTERS as u16 {
        colours.push(konsole_start(register))?;
    }
    Ok(colours)
}

/// konsole, on a screen of this size and of the background. `tall` is the height of a sixel pixel.
pub fn konsole_terminal(
    alloc: Global,
    background: Colour,
    tall: u16,
    width: u32,
    height: u32,
) -> Result<Terminal, AllocError>
    requires tall { 0 < tall }
    requires sides { IsTrue (is_screen_side width && is_screen_side height) }
    ensures { IfOk result (λ terminal. terminal ≡ konsole_display background tall width height) }
{
    let colours = konsole_colours(alloc)?;
    match Terminal::plain(konsole_choices(tall, width, height), colours, background) {
        Ok(terminal) => Ok(terminal),
        Err(_) => unreachable!(),
    }
}
