//! The samples of many pixels at a time; a table gives those of registers.

ghost use Rattle.std.specs.Prelude.{◌≡◌, ◌+◌, ◌++◌, ◌*◌, ◌<◌, ℕ, List, Some, [], get_or, length, take};
ghost use Rattle.sixel_ppm.specs.PpmTables.{IsTable, rgbx_of, samples_from};

use sixel_model::{Colour, MOST_REGISTERS, Palette, Parts};
use std::simd::prelude::*;

/// How many pixels' samples are sent at once.
pub(crate) const PIXELS: usize = 21_840;

/// Room for a header, for these samples, and for one byte after the last sample.
pub(crate) const ROOM: usize = 29 + 3 * PIXELS + 1;

/// Turns a pixel into red, green, blue and one more byte. One store writes the four, and the next pixel's overwrite the
/// fourth. They are a vector: LLVM takes an array apart, and then doesn't unroll the loop.
pub trait ToRgbx<P> {
    /// The four bytes of a pixel.
    ghost rgbx: { Self → P → List ℕ };

    fn to_rgbx(&self, pixel: P) -> u8x4
        ensures { result ≡ rgbx self.now pixel };
}

/// The four bytes of each register.
pub(crate) type Table = [[u8; 4]; MOST_REGISTERS];

impl ToRgbx<u8> for Table {
    ghost rgbx = { λ table register. get_or table register [] };

    fn to_rgbx(&self, register: u8) -> u8x4 {
        u8x4::from_array(self[register as usize])
    }
}

/// For pixels that are colours and need no table.
pub(crate) struct DirectColour;

impl ToRgbx<Colour> for DirectColour {
    ghost rgbx = { λ _ colour. rgbx_of (Some colour) };

    fn to_rgbx(&self, colour: Colour) -> u8x4 {
        u8x4::from_array(rgbx_of(Some(colour)))
    }
}

/// The samples of an RGB colour, otherwise zeros, and one more byte.
fn rgbx_of(entry: Option<Colour>) -> [u8; 4]
    ensures { result ≡ rgbx_of entry }
{
    match entry {
        None => [0; 4],
        Some(colour) => match colour.parts() {
            Parts::Rgb(red, green, blue) => [red, green, blue, 0],
            Parts::Hls(_, _, _) => [0; 4],
        },
    }
}

/// The table for a palette.
pub(crate) fn table_of(palette: &Palette) -> Table
    ensures { IsTable palette.now result }
{
    let mut table = [[0; 4]; MOST_REGISTERS];
    for register in 0..MOST_REGISTERS {
        table[register] = rgbx_of(palette.get(register as u8));
    }
    table
}

/// Puts the samples of these pixels behind the first bytes of a buffer.
pub(crate) fn put_samples<P: Copy, C: ToRgbx<P>>(
    text: &mut [u8],
    start: usize,
    colours: &C,
    pixels: &[P],
)
    requires { start + 3 * length pixels.now < length text.old }
    ensures { take (start + 3 * length pixels.now) text.new
        ≡ take start text.old ++ samples_from (C.rgbx colours.now) pixels.now }
{
    let mut at = start;
    for pixel in pixels {
        colours.to_rgbx(*pixel).copy_to_slice(&mut text[at..]);
        at += 3;
    }
}
