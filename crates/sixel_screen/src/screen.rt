//! Writes the screen of a terminal as a PPM or a PNG.

ghost use Rattle.std.specs.Prelude.{◌≡◌, IsTrue, true};
ghost use Rattle.std.specs.List.{list_all};
ghost use Rattle.sixel_io.specs.Devices.{Writes};
ghost use Rattle.sixel_ppm.specs.Ppm.{WritesPpm, are_rgb, is_file_side, ppm_text};
ghost use Rattle.sixel_png.specs.Writing.{WritesOnePng, WritesPng, levels_of};
ghost use Rattle.sixel_screen.specs.Whole.{CountsPng, IsWhole};
ghost use Rattle.sixel_terminal.specs.Pixels.{bytes_of, is_rgb_ink};

use sixel_io::{DeviceFault, Sink};
use sixel_png::{PngFault, write_png_pixels};
use sixel_ppm::{PpmFault, ToRgbx, write_ppm_pixels};
use sixel_terminal::{Pixel, Screen};
use std::simd::prelude::*;

/// The greatest side of a screen, in pixels.
const MOST_SIDE: u32 = 4096;

/// The pixels of a screen, whose bytes begin with the percentages if they are RGB.
pub struct ScreenPixels;

impl ToRgbx<Pixel> for ScreenPixels {
    ghost rgbx = { λ _ ink. bytes_of ink };

    #[inline]
    fn to_rgbx(&self, pixel: Pixel) -> u8x4 {
        u8x4::from_array(pixel.bytes())
    }
}

/// Whether each pixel is RGB. It looks at all of them, so that the compiler uses lanes.
fn are_rgb(pixels: &[Pixel]) -> bool
    ensures { result ≡ list_all is_rgb_ink pixels.now }
{
    let mut all = true;
    for pixel in pixels {
        all &= pixel.is_rgb();
    }
    all
}

/// Whether the colour of each pixel is RGB.
pub fn is_rgb_alone(screen: &Screen) -> bool
    ensures { result ≡ are_rgb screen.now.colours }
{
    are_rgb(screen.pixels())
}

fn write_rgb<K: Sink>(screen: &Screen, out: &mut K) -> Result<(), DeviceFault>
    requires { IsTrue (are_rgb screen.now.colours) }
    ensures { Writes result (K.state out.old) (K.state out.new)
        (ppm_text screen.now.width screen.now.height screen.now.colours) }
{
    let pixels = screen.pixels();
    write_ppm_pixels(screen.width(), screen.height(), &ScreenPixels, pixels, out)
}

/// Writes a screen as a PPM. `NotRgb`: the colour of some pixel is HLS, and nothing was written.
pub fn write_ppm_screen<K: Sink>(screen: &Screen, out: &mut K) -> Result<(), PpmFault>
    ensures { WritesPpm result (K.state out.old) (K.state out.new) screen.now.width screen.now.height
        screen.now.colours }
{
    if !is_rgb_alone(screen) {
        return Err(PpmFault::NotRgb);
    }
    write_rgb(screen, out).map_err(|_| PpmFault::Write)
}

/// Writes a screen as a PNG of 8-bit RGB. `NotRgb`: the colour of some pixel is HLS, or the screen hasn't the pixels of
/// its sides, which no terminal's lacks; nothing was written.
pub fn write_png_screen<K: Sink>(screen: &Screen, out: &mut K) -> Result<(), PngFault>
    ensures written { IsWhole screen.now → WritesPng result (K.state out.old) (K.state out.new) screen.now.width
        screen.now.height screen.now.colours }
    ensures counted { CountsPng result (K.state out.old).failures (K.state out.new).failures }
{
    if !is_rgb_alone(screen) || !is_whole(screen) {
        return Err(PngFault::NotRgb);
    }
    write_rgb_png(screen, out).map_err(|_| PngFault::Write)
}

fn write_rgb_png<K: Sink>(screen: &Screen, out: &mut K) -> Result<(), DeviceFault>
    requires rgb { IsTrue (are_rgb screen.now.colours) }
    requires whole { IsWhole screen.now }
    ensures { WritesOnePng result (K.state out.old) (K.state out.new) screen.now.width screen.now.height
        (levels_of screen.now.colours) }
{
    let pixels = screen.pixels();
    write_png_pixels(screen.width(), screen.height(), &ScreenPixels, pixels, out)
}

/// Whether each side is from 1 to 4,096 pixels, and the screen has the pixels of its sides. The type doesn't say so.
fn is_whole(screen: &Screen) -> bool
    ensures whole { result ≡ true → IsWhole screen.now }
    ensures kept { IsWhole screen.now → result ≡ true }
{
    is_side(screen.width())
        && is_side(screen.height())
        && screen.pixels().len() == screen.width() as usize * screen.height() as usize
}

fn is_side(side: u32) -> bool
    ensures { result ≡ is_file_side side }
{
    1 <= side && side <= MOST_SIDE
}
