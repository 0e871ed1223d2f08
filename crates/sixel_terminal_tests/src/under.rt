//! A filled box that is laid under a drawing.

use crate::fixtures::{are_so, grey_colours, plain_choices};
use sixel_grammar::{Command, Event};
use sixel_model::Colour;
use sixel_terminal::{Choices, Drawing, Ground, Terminal};
use std::alloc::Global;
use std::test::Fail;

/// A sixel and a select, and then a definition of the ground's register, on a white screen of 3 by 2 pixels: what the
/// terminal shows over a box of 2 by 9 pixels that is filled before the screen is shown, or with it.
fn is_shown_over(alloc: Global, is_before: bool, expected: &str) -> Result<bool, Fail> {
    let choices = Choices {
        binds_at_showing: true,
        ground: Ground::Filled(5),
        clips: false,
        ..plain_choices(3, 2)
    };
    let white = Colour::rgb(100, 100, 100).ok_or("white")?;
    let terminal = match Terminal::plain(choices, grey_colours(alloc, 16)?, white) {
        Ok(terminal) => terminal,
        Err(_) => return Err("a terminal".into()),
    };
    let mut drawing = Drawing::new(alloc, terminal)?;
    drawing.push(&Event::Step(Command::Select(1)));
    drawing.push(&Event::Step(Command::Sixel(1)));
    drawing.push(&Event::Step(Command::Define {
        register: 5,
        system: 2,
        x: 100,
        y: 0,
        z: 0,
    }));
    let screen = if is_before {
        drawing.fill_under(2, 9);
        drawing.finish()
    } else {
        drawing.finish_over(2, 9)
    };
    Ok(are_so(&screen.colours(alloc)?, expected))
}

/// The box is filled, except where something is painted, in the colour that its register has at the end.
#[test]
fn boxes_lie_under_what_is_painted(rt: HostRuntime) -> Result<(), Fail> {
    assert!(rt; is_shown_over(rt.alloc(), true, "1R.RR.")?);
    assert!(rt; is_shown_over(rt.alloc(), false, "1R.RR.")?);
    Ok(())
}
