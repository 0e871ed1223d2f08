//! Where a run of columns paints outside the box.

ghost use Rattle.std.specs.Prelude.{◌≡◌, ◌≤◌, ◌+◌, ◌*◌, ◌↔◌, ℕ, IsTrue, true};
ghost use Rattle.sixel_model.specs.Geometry.{band_rows};
ghost use Rattle.sixel_judge.specs.Outside.{IsFirstIfAny, PaintsOutside, first_column};
ghost use Rattle.sixel_judge.specs.Stretches.{Fits};
ghost use Rattle.sixel_judge.specs.Verdicts.{capped};

use crate::notes::Notes;
use sixel_model::{BAND_ROWS, is_set};
use sixel_plane::Cover;

/// The pixel row of a bit of a band, at most `u64::MAX`.
fn row_of(band: u64, bit: u32) -> u64
    ensures { result ≡ capped (band_rows * band + bit) }
{
    band.saturating_mul(BAND_ROWS as u64)
        .saturating_add(bit as u64)
}

/// The first of `count` columns from `column` on that lies outside a box of this width and height, in this row.
fn outside_column(column: u64, count: u16, row: u64, width: u32, height: u32) -> Option<u64>
    ensures { result ≡ first_column column count row width height }
{
    if row >= height as u64 {
        Some(column)
    } else if column.saturating_add(count as u64) > width as u64 {
        Some(column.max(width as u64))
    } else {
        None
    }
}

/// The first point, in row order, that a run paints outside a box of this width and height in pixels.
///
/// The run has `count` columns from `column` on, in the rows of the set bits of its band. A column, band or result
/// coordinate of `u64::MAX` means that number or any greater one.
#[inline(always)]
pub fn outside_pixel(
    column: u64,
    band: u64,
    count: u16,
    bits: u8,
    width: u32,
    height: u32,
) -> Option<(u64, u64)>
    ensures { (left line : ℕ) → column ≡ capped left → band ≡ capped line
        → IsFirstIfAny (PaintsOutside left count line bits width height) result }
{
    if bits == 0 || is_inside(column, band, count as u64, width, height) {
        None
    } else {
        first_outside(column, band, count, bits, width, height)
    }
}

/// Whether `count` columns from `column` on lie inside the box in all six rows of the band.
#[inline(always)]
pub fn is_inside(column: u64, band: u64, count: u64, width: u32, height: u32) -> bool
    ensures { IsTrue result ↔ (column + count ≤ width) × (band_rows * band + band_rows ≤ height) }
{
    column <= width as u64
        && count <= width as u64 - column
        && band < height as u64 / BAND_ROWS as u64
}

/// Whether `count` columns from the current one on lie in the box, with all six rows of their band.
#[inline(always)]
pub fn fits<P: Cover>(notes: &Notes, plane: &P, count: usize) -> bool
    ensures within { result ≡ true → Fits notes.now count (P.grid plane.now) }
    ensures column { result ≡ true → notes.now.column ≤ u32.MAX }
    ensures band { result ≡ true → notes.now.band ≤ u32.MAX }
    ensures columns { result ≡ true → notes.now.column + count ≤ u32.MAX }
{
    is_inside(
        notes.column,
        notes.band,
        count as u64,
        plane.width(),
        plane.height(),
    )
}

/// As `outside_pixel`, row by row.
#[inline(never)]
fn first_outside(
    column: u64,
    band: u64,
    count: u16,
    bits: u8,
    width: u32,
    height: u32,
) -> Option<(u64, u64)>
    ensures { (left line : ℕ) → column ≡ capped left → band ≡ capped line
        → IsFirstIfAny (PaintsOutside left count line bits width height) result }
{
    if count == 0 {
        return None;
    }
    for bit in 0..BAND_ROWS {
        if is_set(bits, bit) {
            let row = row_of(band, bit);
            if let Some(x) = outside_column(column, count, row, width, height) {
                return Some((x, row));
            }
        }
    }
    None
}
