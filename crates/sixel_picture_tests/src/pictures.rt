//! Pictures from their parts.

use sixel_model::{Colour, Palette, Parts, Picture, PictureReason, Profile};
use std::alloc::Global;
use std::test::Fail;

/// One entry of a palette: a register and its colour.
pub(crate) type Entry = (u8, Parts);

pub(crate) const RED_AND_BLUE: &[Entry] = &[(0, Parts::Rgb(100, 0, 0)), (3, Parts::Rgb(0, 0, 100))];

fn palette_of(profile: Profile, entries: &[Entry]) -> Result<Palette, Fail> {
    let mut palette = Palette::new(profile);
    for (register, parts) in entries {
        let colour = match *parts {
            Parts::Rgb(red, green, blue) => Colour::rgb(red, green, blue),
            Parts::Hls(hue, lightness, saturation) => Colour::hls(hue, lightness, saturation),
        };
        if u16::from(*register) < palette.profile().count() {
            palette.set(*register, colour.ok_or("a colour")?);
        }
    }
    Ok(palette)
}

/// A picture, or why these are the parts of none.
pub(crate) fn made(
    alloc: Global,
    profile: Profile,
    (width, height): (u32, u32),
    entries: &[Entry],
    registers: &[u8],
) -> Result<Result<Picture, PictureReason>, Fail> {
    let palette = palette_of(profile, entries)?;
    let made = Picture::new(width, height, palette, registers.to_vec(alloc)?);
    Ok(match made {
        Ok(picture) => Ok(picture),
        Err(fault) => Err(fault.reason),
    })
}

/// Several parts can be wrong: the first reason counts.
#[test]
fn pictures_name_the_first_reason(rt: HostRuntime) -> Result<(), Fail> {
    let (narrow, wide) = (Profile::Registers16, Profile::Registers256);
    for (profile, size, registers, expected) in [
        (narrow, (0, 1), [].as_slice(), PictureReason::Size),
        (narrow, (1, 0), [].as_slice(), PictureReason::Size),
        (narrow, (2049, 1), [].as_slice(), PictureReason::Size),
        (narrow, (1, 2049), [].as_slice(), PictureReason::Size),
        (narrow, (0, 1), [16].as_slice(), PictureReason::Size),
        (narrow, (2, 1), [0].as_slice(), PictureReason::Count),
        (narrow, (1, 1), [16, 3].as_slice(), PictureReason::Count),
        (narrow, (1, 1), [16].as_slice(), PictureReason::Register),
        (narrow, (2, 1), [1, 16].as_slice(), PictureReason::Register),
        (narrow, (2, 1), [3, 15].as_slice(), PictureReason::NoColour),
        // No register is above those of the wide profile.
        (wide, (2, 1), [0, 255].as_slice(), PictureReason::NoColour),
    ] {
        let made = made(rt.alloc(), profile, size, RED_AND_BLUE, registers)?;
        assert!(rt; made.err() == Some(expected), "{size:?} {registers:?}");
    }
    Ok(())
}
