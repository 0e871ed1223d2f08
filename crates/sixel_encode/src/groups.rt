//! Which groups of columns of a band have pixels of a register.

ghost use Rattle.std.specs.Prelude.{◌≡◌, ◌==◌, ◌+◌, ◌*◌, ◌<◌, ◌≤◌, ℕ, get_or, length, not};
ghost use Rattle.sixel_model.specs.Pictures.{IsAnyPicture, most_side};
ghost use Rattle.sixel_encode.specs.Canon.{most_bands, occurs};
ghost use Rattle.sixel_encode.specs.Columns.{AreGroupsMarked, HasBandGroups};

use crate::lanes::{LANES, is_uniform};
use sixel_model::{BAND_ROWS, MOST_REGISTERS, Picture};

/// For each register a mask, with a bit for each group of columns in which the band has a pixel of it.
pub(crate) fn band_groups(picture: &Picture, band: u32) -> [u64; MOST_REGISTERS]
    requires { band < most_bands }
    ensures occurs { (register : ℕ) → register < MOST_REGISTERS →
        not (get_or result register 0 == 0) ≡ occurs picture.now band register }
    ensures groups { (register : ℕ) → register < MOST_REGISTERS →
        HasBandGroups picture.now band register (get_or result register 0) }
    ensures picture { IsAnyPicture picture.now }
{
    let height = picture.height();
    let mut marks = [0; MOST_REGISTERS];
    for row in 0..BAND_ROWS {
        let y = BAND_ROWS * band + row;
        if y < height {
            mark_row(&mut marks, picture.row(y));
        }
    }
    marks
}

/// Marks the registers of a row.
fn mark_row(marks: &mut [u64; MOST_REGISTERS], pixels: &[u8])
    requires { length pixels.now ≤ most_side }
    ensures { AreGroupsMarked 0 (length pixels.now) pixels.now marks.old marks.new }
{
    let rest = mark_groups(marks, pixels);
    for x in rest..pixels.len() {
        mark_pixel(marks, pixels, x);
    }
}

/// Marks the registers of all whole groups of pixels. Returns where the rest begins.
fn mark_groups(marks: &mut [u64; MOST_REGISTERS], pixels: &[u8]) -> usize
    requires { length pixels.now ≤ most_side }
    ensures to { result ≤ length pixels.now }
    ensures marked { AreGroupsMarked 0 result pixels.now marks.old marks.new }
{
    let count = pixels.len() / LANES;
    for group in 0..count {
        mark_group(marks, pixels, group);
    }
    count * LANES
}

/// Marks the registers of a group, at once if all its pixels have the same one.
fn mark_group(marks: &mut [u64; MOST_REGISTERS], pixels: &[u8], group: usize)
    requires few { length pixels.now ≤ most_side }
    requires within { group * LANES + LANES ≤ length pixels.now }
    ensures { AreGroupsMarked (group * LANES) (group * LANES + LANES) pixels.now marks.old marks.new }
{
    let at = group * LANES;
    if is_uniform(pixels, at) {
        mark_pixel(marks, pixels, at);
    } else {
        mark_pixels(marks, pixels, at);
    }
}

/// Marks the registers of a group, pixel by pixel.
fn mark_pixels(marks: &mut [u64; MOST_REGISTERS], pixels: &[u8], at: usize)
    requires few { length pixels.now ≤ most_side }
    requires within { at + LANES ≤ length pixels.now }
    ensures { AreGroupsMarked at (at + LANES) pixels.now marks.old marks.new }
{
    for x in at..at + LANES {
        mark_pixel(marks, pixels, x);
    }
}

#[inline]
fn mark_pixel(marks: &mut [u64; MOST_REGISTERS], pixels: &[u8], x: usize)
    requires few { length pixels.now ≤ most_side }
    requires within { x < length pixels.now }
    ensures { AreGroupsMarked x (x + 1) pixels.now marks.old marks.new }
{
    marks[pixels[x] as usize] |= 1 << (x / LANES);
}
