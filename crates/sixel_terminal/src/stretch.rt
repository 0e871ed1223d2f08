//! Paints many sixels at once.

ghost use Rattle.std.specs.Prelude.{◌≡◌, ◌↔◌, ◌&&◌, ◌<◌, ◌≤◌, ◌+◌, ◌-◌, ◌*◌, ◌/◌, ◌%◌, ℕ, EachIndex, IsTrue};
ghost use Rattle.std.specs.Prelude.{length, nat_le, nat_lt, slice_index, slice_index_or, if◌then◌else◌};
ghost use Rattle.sixel_grammar.specs.Bytes.{is_data};
ghost use Rattle.sixel_model.specs.Geometry.{band_rows};
ghost use Rattle.sixel_terminal.specs.Canvases.{black};
ghost use Rattle.sixel_terminal.specs.Stretches.{AreFirstSixels, AreJoined, has_bit, is_stretched};

use crate::pixel::{LANES, Pixel, paint_four};
use sixel_model::{BAND_ROWS, is_set};
use std::simd::prelude::*;

/// The number of each column that is painted at once.
const NUMBERS: [u8; LANES] = [0, 1, 2, 3];

/// The sixels of more bytes than this are painted row by row.
const MANY: usize = 16;

/// Paints the pixels of a row whose data bytes have the bit. The loop has no branch, so that the compiler uses lanes.
#[inline(always)]
fn paint_row(row: &mut [Pixel], bytes: &[u8], bit: u32, ink: &Pixel)
    requires bit { bit < band_rows }
    requires long { length bytes.now ≡ length row.old }
    requires data { (k : ℕ) → k < length bytes.now → IsTrue (is_data (slice_index bytes.now k)) }
    ensures { EachIndex row.old (λ j. slice_index_or row.new j black
        ≡ (if has_bit (slice_index bytes.now j) bit then ink.now else slice_index_or row.old j black)) }
{
    for index in 0..row.len() {
        let old = row[index];
        row[index] = if is_set(bytes[index] - b'?', bit) {
            *ink
        } else {
            old
        };
    }
}

/// The bits that one or more of the sixels have.
fn joined(bytes: &[u8]) -> u8
    requires data { (k : ℕ) → k < length bytes.now → IsTrue (is_data (slice_index bytes.now k)) }
    ensures { AreJoined result bytes.now }
{
    let mut bits = 0;
    for byte in bytes {
        bits |= byte - b'?';
    }
    bits
}

/// Paints a row of the screen from the pixel `at` on. A row whose bit no sixel has is passed over.
#[inline(always)]
fn paint_row_at(pixels: &mut [Pixel], at: usize, bytes: &[u8], joined: u8, bit: u32, ink: &Pixel)
    requires bit { bit < band_rows }
    requires within { at + length bytes.now ≤ length pixels.old }
    requires data { (k : ℕ) → k < length bytes.now → IsTrue (is_data (slice_index bytes.now k)) }
    requires joined { AreJoined joined bytes.now }
    ensures { EachIndex pixels.old (λ i. slice_index_or pixels.new i black
        ≡ (if (nat_le at i && nat_lt i (at + length bytes.now)) && has_bit (slice_index bytes.now (i - at)) bit
        then ink.now else slice_index_or pixels.old i black)) }
{
    if is_set(joined, bit) {
        paint_row(&mut pixels[at..at + bytes.len()], bytes, bit, ink);
    }
}

/// Paints the first `count` rows of a band, from the row `top` of the screen on, in the columns of the bytes, from
/// `left` on. In text that is written row by row, a stretch touches one row.
#[inline(never)]
fn paint_rows(
    pixels: &mut [Pixel],
    width: usize,
    left: usize,
    top: usize,
    count: u32,
    bytes: &[u8],
    ink: &Pixel,
)
    requires some { 0 < width }
    requires columns { left + length bytes.now ≤ width }
    requires band { count ≤ band_rows }
    requires rows { (top + count) * width ≤ length pixels.old }
    requires data { (k : ℕ) → k < length bytes.now → IsTrue (is_data (slice_index bytes.now k)) }
    ensures { EachIndex pixels.old (λ i. slice_index_or pixels.new i black
        ≡ (if is_stretched left top count bytes.now (i % width) (i / width)
        then ink.now else slice_index_or pixels.old i black)) }
{
    let joined = joined(bytes);
    for bit in 0..count {
        let at = (top + bit as usize) * width + left;
        paint_row_at(pixels, at, bytes, joined, bit, ink);
    }
}

/// The sixels of the first columns, and 0 behind the last. It takes no branch.
#[inline(always)]
fn first_sixels(bytes: &[u8]) -> [u8; LANES]
    requires some { 0 < length bytes.now }
    requires few { length bytes.now ≤ LANES }
    requires data { (k : ℕ) → k < length bytes.now → IsTrue (is_data (slice_index bytes.now k)) }
    ensures { AreFirstSixels bytes.now result }
{
    let last = bytes.len() - 1;
    let sixels = [
        bytes[0] - b'?',
        bytes[last.min(1)] - b'?',
        bytes[last.min(2)] - b'?',
        bytes[last.min(3)] - b'?',
    ];
    let are_there = u8x4::from_array(NUMBERS).simd_lt(u8x4::splat(bytes.len() as u8));
    are_there
        .select(u8x4::from_array(sixels), u8x4::splat(0))
        .to_array()
}

/// As `paint_rows` for a whole band and at most four columns. It writes back what is behind the last column.
#[inline(always)]
fn paint_few(pixels: &mut [Pixel], width: usize, left: usize, top: usize, bytes: &[u8], ink: &Pixel)
    requires wide { 0 < width }
    requires some { 0 < length bytes.now }
    requires few { length bytes.now ≤ LANES }
    requires columns { left + length bytes.now ≤ width }
    requires room { (top + 5) * width + left + LANES ≤ length pixels.old }
    requires data { (k : ℕ) → k < length bytes.now → IsTrue (is_data (slice_index bytes.now k)) }
    ensures { EachIndex pixels.old (λ i. slice_index_or pixels.new i black
        ≡ (if is_stretched left top band_rows bytes.now (i % width) (i / width)
        then ink.now else slice_index_or pixels.old i black)) }
{
    let sixels = first_sixels(bytes);
    let start = top * width + left;
    for bit in 0..BAND_ROWS {
        paint_four(pixels, start + bit as usize * width, sixels, bit, ink);
    }
}

/// As `paint_rows` for a whole band, four columns at a time. The last four may begin among those before.
#[inline(always)]
fn paint_groups(
    pixels: &mut [Pixel],
    width: usize,
    left: usize,
    top: usize,
    bytes: &[u8],
    ink: &Pixel,
)
    requires four { LANES ≤ length bytes.now }
    requires columns { left + length bytes.now ≤ width }
    requires rows { (top + band_rows) * width ≤ length pixels.old }
    requires data { (k : ℕ) → k < length bytes.now → IsTrue (is_data (slice_index bytes.now k)) }
    ensures { EachIndex pixels.old (λ i. slice_index_or pixels.new i black
        ≡ (if is_stretched left top band_rows bytes.now (i % width) (i / width)
        then ink.now else slice_index_or pixels.old i black)) }
{
    let last = bytes.len() - LANES;
    let mut done = 0;
    while done < bytes.len() {
        let from = done.min(last);
        paint_few(
            pixels,
            width,
            left + from,
            top,
            &bytes[from..from + LANES],
            ink,
        );
        done = from + LANES;
    }
}

/// Whether four pixels are there in each row of a band, from this column on.
#[inline(always)]
fn has_four(pixels: &[Pixel], width: usize, left: usize, top: usize) -> bool
    requires column { left ≤ width }
    requires rows { (top + band_rows) * width ≤ length pixels.now }
    ensures { IsTrue result ↔ ((top + 5) * width + left + LANES ≤ length pixels.now) }
{
    pixels.len() - (top * width + left + 5 * width) >= LANES
}

/// As `paint_rows` for a whole band, four columns at a time where four pixels are there.
#[inline(always)]
fn paint_columns(
    pixels: &mut [Pixel],
    width: usize,
    left: usize,
    top: usize,
    bytes: &[u8],
    ink: &Pixel,
)
    requires some { 0 < width }
    requires columns { left + length bytes.now ≤ width }
    requires rows { (top + band_rows) * width ≤ length pixels.old }
    requires data { (k : ℕ) → k < length bytes.now → IsTrue (is_data (slice_index bytes.now k)) }
    ensures { EachIndex pixels.old (λ i. slice_index_or pixels.new i black
        ≡ (if is_stretched left top band_rows bytes.now (i % width) (i / width)
        then ink.now else slice_index_or pixels.old i black)) }
{
    if bytes.len() > LANES {
        paint_groups(pixels, width, left, top, bytes, ink);
    } else if !bytes.is_empty() && has_four(pixels, width, left, top) {
        paint_few(pixels, width, left, top, bytes, ink);
    } else {
        paint_rows(pixels, width, left, top, BAND_ROWS, bytes, ink);
    }
}

/// As `paint_rows`, in the faster of the two orders.
#[inline(always)]
pub(crate) fn paint_sixels(
    pixels: &mut [Pixel],
    width: usize,
    left: usize,
    top: usize,
    count: u32,
    bytes: &[u8],
    ink: &Pixel,
)
    requires some { 0 < width }
    requires columns { left + length bytes.now ≤ width }
    requires band { count ≤ band_rows }
    requires rows { (top + count) * width ≤ length pixels.old }
    requires data { (k : ℕ) → k < length bytes.now → IsTrue (is_data (slice_index bytes.now k)) }
    ensures { EachIndex pixels.old (λ i. slice_index_or pixels.new i black
        ≡ (if is_stretched left top count bytes.now (i % width) (i / width)
        then ink.now else slice_index_or pixels.old i black)) }
{
    if count == BAND_ROWS && bytes.len() <= MANY {
        paint_columns(pixels, width, left, top, bytes, ink);
    } else {
        paint_rows(pixels, width, left, top, count, bytes, ink);
    }
}
