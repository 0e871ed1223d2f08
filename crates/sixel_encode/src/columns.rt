//! The sixels of one register in a band.

ghost use Rattle.std.specs.Prelude.{◌≡◌, ◌+◌, ◌<◌, ◌≤◌, ℕ, length, min};
ghost use Rattle.std.specs.Int.{bit_at};
ghost use Rattle.sixel_model.specs.Pictures.{most_side};
ghost use Rattle.sixel_encode.specs.Columns.{AreFound, AreFilled};

use crate::lanes::LANES;
use crate::rows::{ROWS, column_sixel, group_sixels};

/// The sixels of a register in all columns of a band, and blank ones behind them. `rows` are those of the band.
///
/// `groups` has a bit for each group of columns with a pixel of the register. All other columns stay blank.
pub(crate) fn find_sixels(sixels: &mut [u8], rows: &[u8], width: usize, register: u8, groups: u64)
    requires few { width ≤ most_side }
    requires room { width ≤ length sixels.old }
    ensures long { length sixels.new ≡ length sixels.old }
    ensures found { AreFound width rows.now width register groups sixels.new }
{
    sixels.fill(b'?');
    let count = width.div_ceil(LANES);
    let mut group = next_group(groups, 0, count);
    while group < count {
        find_group(sixels, rows, width, group * LANES, register);
        group = next_group(groups, group + 1, count);
    }
}

/// The first of `count` groups, from `from` on, whose bit is set, or `count` if none is.
#[inline]
pub(crate) fn next_group(groups: u64, from: usize, count: usize) -> usize
    requires from { from ≤ count }
    requires count { count ≤ 64 }
    ensures from { from ≤ result }
    ensures to { result ≤ count }
    ensures unset { (group : ℕ) → from ≤ group → group < result → bit_at groups group ≡ 0 }
    ensures set { result < count → bit_at groups result ≡ 1 }
{
    if from == count {
        return count;
    }
    let left = groups >> from;
    if left == 0 {
        return count;
    }
    (from + left.trailing_zeros() as usize).min(count)
}

/// The sixels of a group, of which the last may have columns behind the picture.
#[inline]
fn find_group(sixels: &mut [u8], rows: &[u8], width: usize, at: usize, register: u8)
    requires few { width ≤ most_side }
    requires room { width ≤ length sixels.old }
    requires at { at < width }
    ensures { AreFilled at (min (at + LANES) width) rows.now width register sixels.old sixels.new }
{
    if at + LANES <= width {
        let lanes = group_sixels(rows, width, at, register);
        lanes.copy_to_slice(&mut sixels[at..]);
    } else {
        find_last(sixels, rows, width, at, register);
    }
}

/// The sixels of the last columns.
fn find_last(sixels: &mut [u8], rows: &[u8], width: usize, at: usize, register: u8)
    requires few { width ≤ most_side }
    requires room { width ≤ length sixels.old }
    requires at { at < width }
    ensures { AreFilled at width rows.now width register sixels.old sixels.new }
{
    let is_whole = ROWS * width <= rows.len();
    for x in at..width {
        sixels[x] = column_sixel(rows, width, x, register, is_whole);
    }
}
