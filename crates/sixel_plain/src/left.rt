//! Whether a picture is the one that a document leaves.

use crate::history::{box_of, definition};
use crate::pixels::{Pixels, painted};
use sixel_grammar::Placed;
use sixel_model::{Colour, Parts, Picture, Profile};
use std::alloc::{AllocError, Global};

/// The colour system and the coordinates of a colour.
fn values_of(colour: Colour) -> [u16; 4] {
    match colour.parts() {
        Parts::Rgb(red, green, blue) => [2, red as u16, green as u16, blue as u16],
        Parts::Hls(hue, lightness, saturation) => [1, hue, lightness as u16, saturation as u16],
    }
}

/// Whether each register has the colour of its last definition, and no colour without a definition.
fn has_last_colours(picture: &Picture, events: &[Placed]) -> bool {
    for register in 0..=255u8 {
        let colour = picture.palette().get(register).map(values_of);
        if colour != definition(events, register as u16) {
            return false;
        }
    }
    true
}

/// Whether each pixel has the register that painted it last.
fn has_last_registers(picture: &Picture, pixels: &Pixels) -> bool {
    for y in 0..picture.height() {
        for x in 0..picture.width() {
            let register = picture.register_at(x, y) as u16;
            if pixels.register_over(x as u64, y as u64) != Some(register) {
                return false;
            }
        }
    }
    true
}

/// Whether the picture is of the profile, has the size of the box, and has the registers and the colours that the
/// events leave.
pub fn is_left(
    alloc: Global,
    profile: Profile,
    events: &[Placed],
    picture: &Picture,
) -> Result<bool, AllocError> {
    let (width, height) = (picture.width() as u64, picture.height() as u64);
    if picture.profile() != profile || box_of(events) != Some((width, height)) {
        return Ok(false);
    }
    let pixels = painted(alloc, events, width, height)?;
    Ok(has_last_registers(picture, &pixels) && has_last_colours(picture, events))
}
