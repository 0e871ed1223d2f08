//! What 128 terminals of the class show.
//!
//! They take every combination of the seven choices with two values. Each has a grey screen with room for a box and one
//! pixel around it.

use crate::choice::{Choice, choices_of};
use crate::history::box_of;
use sixel_grammar::Placed;
use sixel_judge::Finding;
use sixel_model::{Colour, Parts, Picture, Profile};
use sixel_terminal::Terminal;
use std::alloc::{AllocError, Global};

/// How many columns and rows of a picture the terminals show at most, in pixels.
pub const MOST_SHOWN: u32 = 256;

/// The colour of a screen before anything is drawn.
const SCREEN: Parts = Parts::Rgb(50, 50, 50);

/// The registers at the start.
#[derive(Clone, Copy)]
struct Start {
    registers: Profile,
    /// All start at 90 percent of red, green and blue. If not, register n starts at 6n modulo 101 percent.
    pale: bool,
}

/// The percentage of red, green and blue that the register starts with.
fn percent_of(start: Start, register: u16) -> u8 {
    if start.pale {
        90
    } else {
        (register.saturating_mul(6) % 101) as u8
    }
}

/// The starting colour of each register.
fn colours_of(alloc: Global, start: Start) -> Result<Vec<Colour>, AllocError> {
    let mut colours = Vec::with_capacity(alloc, 256)?;
    for register in 0..start.registers.count() {
        let percent = percent_of(start, register);
        if let Some(colour) = Colour::rgb(percent, percent, percent) {
            colours.push(colour)?;
        }
    }
    Ok(colours)
}

/// A screen of one grey.
fn screen_of(alloc: Global, width: u32, height: u32) -> Result<Vec<Colour>, AllocError> {
    let mut screen = Vec::new(alloc);
    if let Some(colour) = Colour::rgb(50, 50, 50) {
        let pixels = (width as usize).saturating_mul(height as usize);
        screen.resize(pixels, colour)?;
    }
    Ok(screen)
}

/// What the terminal with this number shows after the events, row by row. It has room for a box of this size.
fn shown(
    alloc: Global,
    number: u8,
    start: Start,
    size: (u32, u32),
    events: &[Placed],
) -> Result<Option<Vec<Colour>>, AllocError> {
    let choices = choices_of(number, size.0, size.1);
    let screen = screen_of(alloc, choices.screen_width, choices.screen_height)?;
    match Terminal::new(choices, colours_of(alloc, start)?, screen) {
        Ok(terminal) => Ok(Some(terminal.show(alloc, events)?)),
        Err(_) => Ok(None),
    }
}

/// The colour that a screen must have in this column and row, if the picture begins at 1, 1 and the rest is untouched;
/// `None` if the register of the pixel has no colour.
fn expected_at(picture: &Picture, x: u32, y: u32) -> Option<Parts> {
    if x < 1 || y < 1 || x > picture.width() || y > picture.height() {
        return Some(SCREEN);
    }
    let register = picture.register_at(x - 1, y - 1);
    picture.palette().get(register).map(|colour| colour.parts())
}

/// The colours that such a screen must have, row by row.
fn framed(alloc: Global, picture: &Picture) -> Result<Vec<Option<Parts>>, AllocError> {
    let mut expected = Vec::new(alloc);
    for y in 0..picture.height().saturating_add(2) {
        for x in 0..picture.width().saturating_add(2) {
            expected.push(expected_at(picture, x, y))?;
        }
    }
    Ok(expected)
}

/// Whether a screen has these colours.
fn is_so(screen: &[Colour], expected: &[Option<Parts>]) -> bool {
    if screen.len() != expected.len() {
        return false;
    }
    for (colour, wanted) in screen.iter().zip(expected.iter()) {
        if Some(colour.parts()) != *wanted {
            return false;
        }
    }
    true
}

/// Whether the 128 terminals, with the registers of the profile, all show the picture after the events and leave the
/// rest of their screens untouched. It is false for a picture with a side above `MOST_SHOWN`.
pub fn all_show(
    alloc: Global,
    profile: Profile,
    events: &[Placed],
    picture: &Picture,
) -> Result<bool, AllocError> {
    let size = (picture.width(), picture.height());
    if size.0 > MOST_SHOWN || size.1 > MOST_SHOWN {
        return Ok(false);
    }
    let expected = framed(alloc, picture)?;
    let start = Start {
        registers: profile,
        pale: false,
    };
    for number in 0..128u8 {
        match shown(alloc, number, start, size, events)? {
            Some(screen) if is_so(&screen, &expected) => {}
            _ => return Ok(false),
        }
    }
    Ok(true)
}

/// A side of the part of the screen to compare: large enough for the box and the pixel, at most `MOST_SHOWN`.
fn side(of_box: u64, pixel: u64) -> u32 {
    let side = of_box.max(pixel.saturating_add(1)).min(MOST_SHOWN as u64);
    side as u32
}

/// The size of the declared box, enlarged to hold the pixel of the finding.
fn size_of(events: &[Placed], finding: &Finding) -> (u32, u32) {
    let (width, height) = box_of(events).unwrap_or((1, 1));
    let (x, y) = finding.pixel.unwrap_or((0, 0));
    (side(width, x), side(height, y))
}

/// Whether two screens differ at the pixel of the finding, or anywhere if it has none.
fn is_different(
    one: &[Colour],
    other: &[Colour],
    size: (u32, u32),
    pixel: Option<(u64, u64)>,
) -> bool {
    match pixel {
        None => one != other,
        Some((x, y)) => {
            let row = y.saturating_add(1).saturating_mul(size.0 as u64 + 2);
            let place = row.saturating_add(x).saturating_add(1) as usize;
            one.get(place) != other.get(place)
        }
    }
}

/// The starting registers of the two terminals that differ in the choice.
fn starts_of(profile: Profile, choice: Choice) -> [Start; 2] {
    let start = Start {
        registers: profile,
        pale: false,
    };
    let other = match choice {
        Choice::Colours => Start {
            pale: true,
            ..start
        },
        Choice::Registers => Start {
            registers: Profile::Registers256,
            ..start
        },
        _ => start,
    };
    [start, other]
}

/// Whether two of the terminals that differ only in the choice show the events differently: at the pixel of the
/// finding, or anywhere if it has none. Columns and rows from `MOST_SHOWN` on aren't shown.
pub fn terminals_differ(
    alloc: Global,
    profile: Profile,
    events: &[Placed],
    finding: &Finding,
    choice: Choice,
) -> Result<bool, AllocError> {
    let size = size_of(events, finding);
    let [first, second] = starts_of(profile, choice);
    for number in 0..128u8 {
        let one = shown(alloc, number, first, size, events)?;
        let other = shown(alloc, number ^ choice.bit(), second, size, events)?;
        if let (Some(one), Some(other)) = (one, other)
            && is_different(&one, &other, size, finding.pixel)
        {
            return Ok(true);
        }
    }
    Ok(false)
}
