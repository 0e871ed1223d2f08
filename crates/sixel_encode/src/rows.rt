//! The rows of a band, one after another: six, or fewer in the last band.

ghost use Rattle.std.specs.Prelude.{◌≡◌, ◌==◌, ◌+◌, ◌*◌, ◌%◌, ◌<◌, ◌≤◌, ℕ, length, nat_le, slice_index, true};
ghost use Rattle.std.specs.Prelude.{if◌then◌else◌};
ghost use Rattle.sixel_model.specs.Pictures.{most_side};
ghost use Rattle.sixel_encode.specs.Canon.{most_bands};
ghost use Rattle.sixel_encode.specs.Columns.{AreRowsOf, row_bits};

use crate::lanes::LANES;
use sixel_model::{BAND_ROWS, Picture};
use std::simd::prelude::*;

/// How many rows a band has at most.
pub(crate) const ROWS: usize = BAND_ROWS as usize;

/// The rows of the band, from left to right and from top to bottom.
pub(crate) fn rows_of(picture: &Picture, band: u32) -> &[u8]
    requires { band < most_bands }
    ensures { AreRowsOf picture.now band result.now picture.now.width }
{
    let (width, height) = (picture.width() as usize, picture.height());
    let first = (BAND_ROWS * band).min(height);
    let end = (first + BAND_ROWS).min(height);
    &picture.registers()[first as usize * width..end as usize * width]
}

/// The sixels of a register in a group of columns, all of them in the picture.
#[inline]
pub(crate) fn group_sixels(rows: &[u8], width: usize, at: usize, register: u8) -> u8x32
    requires within { at + LANES ≤ width }
    requires few { width ≤ most_side }
    ensures long { length result ≡ LANES }
    ensures bits { (j : ℕ) → j < LANES
        → slice_index result j ≡ 63 + row_bits rows.now width register (at + j) }
{
    if ROWS * width <= rows.len() {
        whole_sixels(rows, width, at, register)
    } else {
        last_sixels(rows, width, at, register)
    }
}

/// The same in a whole band, as most are. There no row needs a test.
#[inline]
fn whole_sixels(rows: &[u8], width: usize, at: usize, register: u8) -> u8x32
    requires within { at + LANES ≤ width }
    requires few { width ≤ most_side }
    requires whole { ROWS * width ≤ length rows.now }
    ensures long { length result ≡ LANES }
    ensures bits { (j : ℕ) → j < LANES
        → slice_index result j ≡ 63 + row_bits rows.now width register (at + j) }
{
    let mut group = u8x32::splat(b'?');
    for row in 0..ROWS {
        group = with_row(group, rows, row * width + at, register, 1 << row);
    }
    group
}

/// The same in the last band, which may have fewer rows.
fn last_sixels(rows: &[u8], width: usize, at: usize, register: u8) -> u8x32
    requires within { at + LANES ≤ width }
    requires few { width ≤ most_side }
    ensures long { length result ≡ LANES }
    ensures bits { (j : ℕ) → j < LANES
        → slice_index result j ≡ 63 + row_bits rows.now width register (at + j) }
{
    let mut sixels = u8x32::splat(b'?');
    for row in 0..ROWS {
        let start = row * width;
        if start + width <= rows.len() {
            sixels = with_row(sixels, rows, start + at, register, 1 << row);
        }
    }
    sixels
}

/// The sixels, with the bit added where the row from `at` on has the register.
#[inline]
fn with_row(sixels: u8x32, rows: &[u8], at: usize, register: u8, bit: u8) -> u8x32
    requires long { length sixels ≡ LANES }
    requires within { at + LANES ≤ length rows.now }
    ensures long { length result ≡ LANES }
    ensures added { (j : ℕ) → j < LANES → slice_index result j
        ≡ (slice_index sixels j + (if slice_index rows.now (at + j) == register then bit else 0)) % 256 }
{
    let is_own = u8x32::from_slice(&rows[at..]).simd_eq(u8x32::splat(register));
    sixels + is_own.select(u8x32::splat(bit), u8x32::splat(0))
}

/// Whether the row is in the picture. In a whole band, as most are, none needs a test.
#[inline]
fn is_there(rows: &[u8], width: usize, row: usize, is_whole: bool) -> bool
    requires few { width ≤ most_side }
    requires row { row < ROWS }
    requires whole { is_whole ≡ true → ROWS * width ≤ length rows.now }
    ensures { result ≡ nat_le (row * width + width) (length rows.now) }
{
    is_whole || row * width + width <= rows.len()
}

/// The sixel of a register in a column.
#[inline]
pub(crate) fn column_sixel(rows: &[u8], width: usize, x: usize, register: u8, is_whole: bool) -> u8
    requires within { x < width }
    requires few { width ≤ most_side }
    requires whole { is_whole ≡ true → ROWS * width ≤ length rows.now }
    ensures { result ≡ 63 + row_bits rows.now width register x }
{
    let mut sixel = b'?';
    for row in 0..ROWS {
        let start = row * width;
        if is_there(rows, width, row, is_whole) && rows[start + x] == register {
            sixel = sixel.wrapping_add(1 << row);
        }
    }
    sixel
}
