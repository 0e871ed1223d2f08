//! The coverage byte of each column of each band, whose bits say which rows are painted.

ghost use Rattle.std.specs.Prelude.{◌≡◌, ◌<◌, ◌≤◌, ◌+◌, ◌*◌, ◌/◌, ◌⊎◌, bit_or, length};
ghost use Rattle.std.specs.Int.{div_ceil};
ghost use Rattle.sixel_plane.specs.BandPlanes.{has_coverage_bit};
ghost use Rattle.sixel_plane.specs.Lanes.{AreChanged};
ghost use Rattle.sixel_model.specs.Grids.{FirstUnpainted, RowsArePainted};

use crate::lanes::{common_bits, first_without, or_into};
use crate::stretch::{LANES, cover_short_run};
use sixel_model::{BAND_ROWS, is_set};

/// The longest run, in columns, that is painted by groups of lanes. A longer one is faster row by row.
pub(crate) const MOST_SHORT: usize = 64;

/// The bits of all rows of a band.
const ALL_ROWS: u8 = 63;

/// Marks the rows of the bits as painted, in `count` columns from `start` on.
pub(crate) fn cover(coverage: &mut [u8], start: usize, count: usize, bits: u8)
    requires { (bits ≡ 0) ⊎ (start + count ≤ length coverage.old) }
    ensures { AreChanged start (start + count) (λ b. bit_or b bits) coverage.old coverage.new }
{
    if bits == 0 {
        return;
    }
    if count == 1 {
        coverage[start] |= bits;
    } else {
        or_into(coverage, start, start + count, bits);
    }
}

/// As `cover`, by groups of lanes if the run is short and the lanes fit.
#[inline(always)]
pub(crate) fn cover_run(coverage: &mut [u8], start: usize, count: usize, bits: u8)
    requires { (bits ≡ 0) ⊎ (start + count ≤ length coverage.old) }
    ensures { AreChanged start (start + count) (λ b. bit_or b bits) coverage.old coverage.new }
{
    if bits == 0 || count == 1 || count > MOST_SHORT || coverage.len() < start + count + LANES {
        cover(coverage, start, count, bits);
    } else {
        cover_short_run(coverage, start, count, bits);
    }
}

/// Whether the pixel in column `x` and row `y` is painted, in a plane of this width.
pub(crate) fn is_covered(coverage: &[u8], width: u32, x: u32, y: u32) -> bool
    requires { y / BAND_ROWS * width + x < length coverage.now }
    ensures { result ≡ has_coverage_bit width coverage.now x y }
{
    is_set(
        coverage[(y / BAND_ROWS) as usize * width as usize + x as usize],
        y % BAND_ROWS,
    )
}

/// How many rows from the top are known to be painted: those of the whole bands if all are, otherwise 0.
fn painted_rows(coverage: &[u8], width: u32, height: u32) -> u32
    requires { length coverage.now ≡ width * div_ceil height BAND_ROWS }
    ensures within { result ≤ height }
    ensures painted { RowsArePainted width (has_coverage_bit width coverage.now) result }
{
    let bands = height / BAND_ROWS;
    if common_bits(&coverage[..bands as usize * width as usize]) == ALL_ROWS {
        bands * BAND_ROWS
    } else {
        0
    }
}

/// The column and the row of the first unpainted pixel in row order, if any.
pub(crate) fn first_unpainted(coverage: &[u8], width: u32, height: u32) -> Option<(u32, u32)>
    requires { length coverage.now ≡ width * div_ceil height BAND_ROWS }
    ensures { FirstUnpainted width height (has_coverage_bit width coverage.now) result }
{
    let columns = width as usize;
    for row in painted_rows(coverage, width, height)..height {
        let start = (row / BAND_ROWS) as usize * columns;
        if let Some(index) = first_without(coverage, start, start + columns, row % BAND_ROWS) {
            return Some(((index - start) as u32, row));
        }
    }
    None
}
