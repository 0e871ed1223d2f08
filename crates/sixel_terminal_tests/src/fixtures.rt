//! What the tests share: choices, terminals, and what they show, with one character for each pixel.

use sixel_grammar::{Placed, read_all};
use sixel_io::SliceSource;
use sixel_model::{Colour, Parts};
use sixel_terminal::{Choices, Ground, Terminal};
use std::alloc::Global;
use std::test::Fail;

/// A terminal that binds at painting, keeps its ground and has its origin at the top left.
pub(crate) fn plain_choices(width: u32, height: u32) -> Choices {
    Choices {
        binds_at_showing: false,
        selects: false,
        ground: Ground::Kept,
        selected: 0,
        zero: 1,
        clamps: true,
        clips: false,
        eight_bit: true,
        tall: 1,
        screen_width: width,
        screen_height: height,
        origin_x: 0,
        origin_y: 0,
    }
}

/// Colours to start with: colour n is the grey of 6n percent, from 17 on again.
pub(crate) fn grey_colours(alloc: Global, count: usize) -> Result<Vec<Colour>, Fail> {
    let mut colours = Vec::with_capacity(alloc, count)?;
    for number in 0..count {
        let percent = (6 * (number % 17)) as u8;
        colours.push(Colour::rgb(percent, percent, percent).ok_or("a grey")?)?;
    }
    Ok(colours)
}

/// The character of a colour: a digit n for the grey of 6n percent, `.` for white, `R` for red, `H` for a hue, `?` for any
/// other.
fn sign_of(colour: &Colour) -> u8 {
    match colour.parts() {
        Parts::Rgb(100, 100, 100) => b'.',
        Parts::Rgb(100, 0, 0) => b'R',
        Parts::Rgb(red, green, blue) if red == green && green == blue && red % 6 == 0 && red < 60 =>
            { b'0' + red / 6 }
        Parts::Hls(360, 100, 100) => b'H',
        _ => b'?',
    }
}

/// Whether colours have these characters.
pub(crate) fn are_so(colours: &[Colour], signs: &str) -> bool {
    colours.len() == signs.len()
        && colours
            .iter()
            .zip(signs.as_bytes())
            .all(|(colour, sign)| sign_of(colour) == *sign)
}

/// A terminal of these choices with 17 grey registers and a white screen.
pub(crate) fn terminal(alloc: Global, choices: Choices) -> Result<Terminal, Fail> {
    let pixels = (choices.screen_width as usize).saturating_mul(choices.screen_height as usize);
    let white = Colour::rgb(100, 100, 100).ok_or("white")?;
    let screen = vec![in alloc; white; pixels]?;
    Ok(Terminal::new(choices, grey_colours(alloc, 17)?, screen).or(Err("a terminal"))?)
}

/// The events of a document.
pub(crate) fn events_of(alloc: Global, text: &[u8]) -> Result<Vec<Placed>, Fail> {
    Ok(read_all(alloc, &mut SliceSource::new(text, 64, None)).or(Err("a document"))?)
}

/// Whether a terminal of these choices shows this after a document, at once or, where a growth was refused, at the next
/// call. `rt try --test --fail-alloc N` refuses growth N; the first four make the terminal and the events.
pub(crate) fn is_shown(
    alloc: Global,
    choices: Choices,
    text: &[u8],
    expected: &str,
) -> Result<bool, Fail> {
    let made = terminal(alloc, choices)?;
    let events = events_of(alloc, text)?;
    let shown = made
        .show(alloc, &events)
        .or_else(|_| made.show(alloc, &events))?;
    Ok(are_so(&shown, expected))
}
