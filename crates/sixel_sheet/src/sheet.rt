//! Writes what four terminals show side by side.

ghost use Rattle.std.specs.Prelude.{◌≡◌, ◌<◌, IsTrue};
ghost use Rattle.std.specs.List.{flat_map};
ghost use Rattle.sixel_io.specs.Blocks.{WritesThrough};
ghost use Rattle.sixel_io.specs.Devices.{CountsFailure, Puts};
ghost use Rattle.sixel_model.specs.Pictures.{is_side};
ghost use Rattle.sixel_ppm.specs.Ppm.{samples_of};
ghost use Rattle.sixel_ppm.specs.PpmTables.{samples_from};
ghost use Rattle.sixel_terminal.specs.Pixels.{bytes_of};
ghost use Rattle.sixel_differ.specs.Views.{HaveSides};
ghost use Rattle.sixel_sheet.specs.Sheets.{HasRow, are_rgb_views, grey_pixels, is_rgb_view, next_row, row_of};
ghost use Rattle.sixel_sheet.specs.Sheets.{sheet_colours, sheet_row, sheet_text};

use sixel_differ::{View, Views};
use sixel_io::{Block, DeviceFault, Sink};
use sixel_ppm::write_ppm_pixels;
use sixel_screen::{ScreenPixels, is_rgb_alone};
use sixel_terminal::Pixel;

/// The columns between two screens.
const GAP: u32 = 8;

/// Room for the samples of some thousand pixels.
type Samples = Block<65_536>;

/// Whether all that the terminals show is RGB.
pub fn are_rgb_views(views: &Views) -> bool
    ensures { result ≡ are_rgb_views views.now }
{
    is_rgb_view(&views.xterm)
        && is_rgb_view(&views.mlterm)
        && is_rgb_view(&views.foot)
        && is_rgb_view(&views.konsole)
}

/// Whether all that a terminal shows is RGB. It shows nothing if its model ends.
fn is_rgb_view(view: &View) -> bool
    ensures { result ≡ is_rgb_view view.now }
{
    match view {
        View::Screen(screen) => is_rgb_alone(screen),
        View::Unmodelled(_) => true,
    }
}

/// Writes the four screens side by side as a PPM, or on an `Err` a prefix of it. It doesn't flush.
pub fn write_sheet<K: Sink>(views: &Views, out: &mut K) -> Result<(), DeviceFault>
    requires sides { HaveSides views.now }
    requires small { IsTrue (is_side views.now.width) }
    requires rgb { IsTrue (are_rgb_views views.now) }
    ensures taken { Puts result (K.state out.old).taken (K.state out.new).taken (sheet_text views.now) }
    ensures failures { CountsFailure result (K.state out.old).failures (K.state out.new).failures }
{
    let width = 4 * views.width + 3 * GAP;
    write_ppm_pixels(width, views.height, &ScreenPixels, &[], out)?;
    let mut samples = Block::new();
    put_rows(views, &mut samples, out)?;
    samples.drain(out)
}

/// Puts the samples of all rows.
fn put_rows<K: Sink>(views: &Views, samples: &mut Samples, out: &mut K) -> Result<(), DeviceFault>
    requires sides { HaveSides views.now }
    requires rgb { IsTrue (are_rgb_views views.now) }
    ensures { WritesThrough result (K.state out.old) (K.state out.new) samples.old samples.new
        (flat_map samples_of (sheet_colours views.now)) }
{
    for row in 0..views.height {
        put_row(views, row, samples, out)?;
    }
    Ok(())
}

/// Puts the samples of a row of the four screens.
fn put_row<K: Sink>(
    views: &Views,
    row: u32,
    samples: &mut Samples,
    out: &mut K,
) -> Result<(), DeviceFault>
    requires sides { HaveSides views.now }
    requires rgb { IsTrue (are_rgb_views views.now) }
    requires row { row < views.now.height }
    ensures { WritesThrough result (K.state out.old) (K.state out.new) samples.old samples.new
        (flat_map samples_of (sheet_row views.now row)) }
{
    put_view(&views.xterm, views.width, row, samples, out)?;
    put_next(&views.mlterm, views.width, row, samples, out)?;
    put_next(&views.foot, views.width, row, samples, out)?;
    put_next(&views.konsole, views.width, row, samples, out)
}

/// Puts the samples of the columns between two screens, and of a row of what a terminal shows.
fn put_next<K: Sink>(
    view: &View,
    width: u32,
    row: u32,
    samples: &mut Samples,
    out: &mut K,
) -> Result<(), DeviceFault>
    requires sides { HasRow view.now width row }
    requires rgb { IsTrue (is_rgb_view view.now) }
    ensures { WritesThrough result (K.state out.old) (K.state out.new) samples.old samples.new
        (flat_map samples_of (next_row width row view.now)) }
{
    put_greys(GAP, samples, out)?;
    put_view(view, width, row, samples, out)
}

/// Puts the samples of a row of what a terminal shows. If its model ends, the row is grey.
fn put_view<K: Sink>(
    view: &View,
    width: u32,
    row: u32,
    samples: &mut Samples,
    out: &mut K,
) -> Result<(), DeviceFault>
    requires sides { HasRow view.now width row }
    requires rgb { IsTrue (is_rgb_view view.now) }
    ensures { WritesThrough result (K.state out.old) (K.state out.new) samples.old samples.new
        (flat_map samples_of (row_of width row view.now)) }
{
    match view {
        View::Screen(screen) => {
            let start = row as usize * width as usize;
            put_pixels(
                &screen.pixels()[start..start + width as usize],
                samples,
                out,
            )
        }
        View::Unmodelled(_) => put_greys(width, samples, out),
    }
}

/// Puts the samples of these pixels.
fn put_pixels<K: Sink>(
    pixels: &[Pixel],
    samples: &mut Samples,
    out: &mut K,
) -> Result<(), DeviceFault>
    ensures { WritesThrough result (K.state out.old) (K.state out.new) samples.old samples.new
        (samples_from bytes_of pixels.now) }
{
    for pixel in pixels {
        samples.put(&pixel.bytes()[..3], out)?;
    }
    Ok(())
}

/// Puts the samples of as many grey pixels.
fn put_greys<K: Sink>(count: u32, samples: &mut Samples, out: &mut K) -> Result<(), DeviceFault>
    ensures { WritesThrough result (K.state out.old) (K.state out.new) samples.old samples.new
        (flat_map samples_of (grey_pixels count)) }
{
    for _ in 0..count {
        samples.put(&[50, 50, 50], out)?;
    }
    Ok(())
}
