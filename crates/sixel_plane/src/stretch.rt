//! Paints runs of data bytes, 16 columns at a time.

ghost use Rattle.std.specs.Prelude.{◌≡◌, ◌<◌, ◌≤◌, ◌+◌, ◌*◌, ℕ, IsTrue, bit_or, length, slice_index};
ghost use Rattle.sixel_grammar.specs.Bytes.{is_data};
ghost use Rattle.sixel_plane.specs.Stretches.{AreEqual, AreMapped, ArePainted, AreSixelLanes, register_by_sixel};
ghost use Rattle.sixel_plane.specs.Stretches.{run_sixel, sixel_of};
ghost use Rattle.sixel_plane.specs.Lanes.{AreChanged};

use sixel_model::BAND_ROWS;
use std::simd::prelude::*;

/// How many columns a plane paints at once. A stretch is painted so only if this many bytes follow it.
pub const LANES: usize = 16;

/// The number of each lane.
const NUMBERS: [u8; 16] = [0, 1, 2, 3, 4, 5, 6, 7, 8, 9, 10, 11, 12, 13, 14, 15];

/// The sixels of `count` data bytes from `at` on, and 0 in the lanes after them.
#[inline(always)]
fn sixels_at(bytes: &[u8], at: usize, count: usize) -> u8x16
    requires few { count ≤ LANES }
    requires room { at + LANES ≤ length bytes.now }
    requires sixels { (j : ℕ) → j < count → IsTrue (is_data (slice_index bytes.now (at + j))) }
    ensures { AreSixelLanes bytes.now at count result }
{
    let taken = u8x16::from_array(NUMBERS).simd_lt(u8x16::splat(count as u8));
    let sixels = u8x16::from_slice(&bytes[at..]) - u8x16::splat(b'?');
    taken.select(sixels, u8x16::splat(0))
}

/// The sixel of a run in `count` lanes, and 0 in the lanes after them.
#[inline(always)]
fn sixels_of_run(bits: u8, count: usize) -> u8x16
    requires { count ≤ LANES }
    ensures { AreEqual bits count result }
{
    let taken = u8x16::from_array(NUMBERS).simd_lt(u8x16::splat(count as u8));
    taken.select(u8x16::splat(bits), u8x16::splat(0))
}

/// Paints the pixels of one row in the columns whose sixels have the row's bit.
#[inline(always)]
fn paint_row(row: &mut [u8], at: usize, sixels: u8x16, bit: u32, register: u8)
    requires bit { bit < 6 }
    requires room { at + LANES ≤ length row.old }
    ensures { AreMapped at LANES (register_by_sixel sixels bit register) row.old row.new }
{
    let old = u8x16::from_slice(&row[at..]);
    let unpainted = (sixels & u8x16::splat(1 << bit)).simd_eq(u8x16::splat(0));
    unpainted
        .select(old, u8x16::splat(register))
        .copy_to_slice(&mut row[at..]);
}

/// Marks the rows of the columns' bits as painted.
#[inline(always)]
fn cover_columns(coverage: &mut [u8], at: usize, sixels: u8x16)
    requires room { at + LANES ≤ length coverage.old }
    ensures { AreMapped at LANES (λ j b. bit_or b (slice_index sixels j)) coverage.old coverage.new }
{
    let covered = u8x16::from_slice(&coverage[at..]) | sixels;
    covered.copy_to_slice(&mut coverage[at..]);
}

/// Paints the columns of a group in the six rows of a band.
#[inline(always)]
fn paint_rows(registers: &mut [u8], at: usize, width: usize, sixels: u8x16, register: u8)
    requires room { at + 5 * width + LANES ≤ length registers.old }
    ensures { ArePainted 6 width at LANES (λ j. slice_index sixels j) register registers.old registers.new }
{
    for bit in 0..BAND_ROWS {
        paint_row(registers, at + bit as usize * width, sixels, bit, register);
    }
}

/// Paints a column for each of the first `count` data bytes of `bytes`, at most one group. The top row begins at
/// `start` of `registers`, and the columns' coverage at `covered` of `coverage`.
#[inline(always)]
fn paint_group(
    registers: &mut [u8],
    coverage: &mut [u8],
    width: usize,
    start: usize,
    covered: usize,
    bytes: &[u8],
    count: usize,
    register: u8,
)
    requires few { count ≤ LANES }
    requires bytes { count + LANES ≤ length bytes.now }
    requires sixels { (j : ℕ) → j < count → IsTrue (is_data (slice_index bytes.now j)) }
    requires rows { start + 5 * width + count + LANES ≤ length registers.old }
    requires columns { covered + count + LANES ≤ length coverage.old }
    ensures painted { (n : ℕ) × (count ≤ n)
        × ArePainted 6 width start n (sixel_of bytes.now count) register registers.old registers.new
        × AreMapped covered n (λ j b. bit_or b (sixel_of bytes.now count j)) coverage.old coverage.new }
{
    let sixels = sixels_at(bytes, 0, count);
    cover_columns(coverage, covered, sixels);
    paint_rows(registers, start, width, sixels, register);
}

/// As `paint_group`, for any number of columns.
#[inline(never)]
fn paint_each_group(
    registers: &mut [u8],
    coverage: &mut [u8],
    width: usize,
    start: usize,
    covered: usize,
    bytes: &[u8],
    count: usize,
    register: u8,
)
    requires bytes { count + LANES ≤ length bytes.now }
    requires sixels { (j : ℕ) → j < count → IsTrue (is_data (slice_index bytes.now j)) }
    requires rows { start + 5 * width + count + LANES ≤ length registers.old }
    requires columns { covered + count + LANES ≤ length coverage.old }
    ensures painted { (n : ℕ) × (count ≤ n)
        × ArePainted 6 width start n (sixel_of bytes.now count) register registers.old registers.new
        × AreMapped covered n (λ j b. bit_or b (sixel_of bytes.now count j)) coverage.old coverage.new }
{
    for group in 0..count.div_ceil(LANES) {
        let done = group * LANES;
        let few = (count - done).min(LANES);
        let sixels = sixels_at(bytes, done, few);
        cover_columns(coverage, covered + done, sixels);
        paint_rows(registers, start + done, width, sixels, register);
    }
}

/// As `paint_each_group`. Most stretches are no longer than a group.
#[inline(always)]
pub(crate) fn paint_groups(
    registers: &mut [u8],
    coverage: &mut [u8],
    width: usize,
    start: usize,
    covered: usize,
    bytes: &[u8],
    count: usize,
    register: u8,
)
    requires bytes { count + LANES ≤ length bytes.now }
    requires sixels { (j : ℕ) → j < count → IsTrue (is_data (slice_index bytes.now j)) }
    requires rows { start + 5 * width + count + LANES ≤ length registers.old }
    requires columns { covered + count + LANES ≤ length coverage.old }
    ensures painted { (n : ℕ) × (count ≤ n)
        × ArePainted 6 width start n (sixel_of bytes.now count) register registers.old registers.new
        × AreMapped covered n (λ j b. bit_or b (sixel_of bytes.now count j)) coverage.old coverage.new }
{
    if count <= LANES {
        paint_group(
            registers, coverage, width, start, covered, bytes, count, register,
        );
    } else {
        paint_each_group(
            registers, coverage, width, start, covered, bytes, count, register,
        );
    }
}

/// Paints a run of `count` columns, at most one group. Its top row begins at `start` of `registers`, its coverage at
/// `covered`.
#[inline(always)]
fn paint_run_group(
    registers: &mut [u8],
    coverage: &mut [u8],
    width: usize,
    start: usize,
    covered: usize,
    count: usize,
    bits: u8,
    register: u8,
)
    requires few { count ≤ LANES }
    requires rows { start + 5 * width + count + LANES ≤ length registers.old }
    requires columns { covered + count + LANES ≤ length coverage.old }
    ensures painted { (n : ℕ) × (count ≤ n)
        × ArePainted 6 width start n (run_sixel bits count) register registers.old registers.new
        × AreMapped covered n (λ j b. bit_or b (run_sixel bits count j)) coverage.old coverage.new }
{
    let sixels = sixels_of_run(bits, count);
    cover_columns(coverage, covered, sixels);
    paint_rows(registers, start, width, sixels, register);
}

/// As `paint_run_group`, for any number of columns.
#[inline(never)]
fn paint_each_run_group(
    registers: &mut [u8],
    coverage: &mut [u8],
    width: usize,
    start: usize,
    covered: usize,
    count: usize,
    bits: u8,
    register: u8,
)
    requires rows { start + 5 * width + count + LANES ≤ length registers.old }
    requires columns { covered + count + LANES ≤ length coverage.old }
    ensures painted { (n : ℕ) × (count ≤ n)
        × ArePainted 6 width start n (run_sixel bits count) register registers.old registers.new
        × AreMapped covered n (λ j b. bit_or b (run_sixel bits count j)) coverage.old coverage.new }
{
    for group in 0..count.div_ceil(LANES) {
        let done = group * LANES;
        let few = LANES.min(count - done);
        let sixels = sixels_of_run(bits, few);
        cover_columns(coverage, covered + done, sixels);
        paint_rows(registers, start + done, width, sixels, register);
    }
}

/// As `paint_each_run_group`. Most runs are no longer than a group.
#[inline(always)]
pub(crate) fn paint_short_run(
    registers: &mut [u8],
    coverage: &mut [u8],
    width: usize,
    start: usize,
    covered: usize,
    count: usize,
    bits: u8,
    register: u8,
)
    requires rows { start + 5 * width + count + LANES ≤ length registers.old }
    requires columns { covered + count + LANES ≤ length coverage.old }
    ensures painted { (n : ℕ) × (count ≤ n)
        × ArePainted 6 width start n (run_sixel bits count) register registers.old registers.new
        × AreMapped covered n (λ j b. bit_or b (run_sixel bits count j)) coverage.old coverage.new }
{
    if count <= LANES {
        paint_run_group(
            registers, coverage, width, start, covered, count, bits, register,
        );
    } else {
        paint_each_run_group(
            registers, coverage, width, start, covered, count, bits, register,
        );
    }
}

/// Marks the columns of `count` data bytes of `bytes` as painted, from `covered` on, in the rows of their bits.
#[inline(always)]
fn cover_group(coverage: &mut [u8], covered: usize, bytes: &[u8], count: usize)
    requires few { count ≤ LANES }
    requires bytes { count + LANES ≤ length bytes.now }
    requires sixels { (j : ℕ) → j < count → IsTrue (is_data (slice_index bytes.now j)) }
    requires columns { covered + count + LANES ≤ length coverage.old }
    ensures covered { (n : ℕ) × (count ≤ n)
        × AreMapped covered n (λ j b. bit_or b (sixel_of bytes.now count j)) coverage.old coverage.new }
{
    let sixels = sixels_at(bytes, 0, count);
    cover_columns(coverage, covered, sixels);
}

/// As `cover_group`, for any number of columns.
#[inline(never)]
fn cover_each_group(coverage: &mut [u8], covered: usize, bytes: &[u8], count: usize)
    requires bytes { count + LANES ≤ length bytes.now }
    requires sixels { (j : ℕ) → j < count → IsTrue (is_data (slice_index bytes.now j)) }
    requires columns { covered + count + LANES ≤ length coverage.old }
    ensures covered { (n : ℕ) × (count ≤ n)
        × AreMapped covered n (λ j b. bit_or b (sixel_of bytes.now count j)) coverage.old coverage.new }
{
    for group in 0..count.div_ceil(LANES) {
        let done = group * LANES;
        let left = (count - done).min(LANES);
        let sixels = sixels_at(bytes, done, left);
        cover_columns(coverage, covered + done, sixels);
    }
}

/// As `cover_each_group`. Most stretches are no longer than a group.
#[inline(always)]
pub(crate) fn cover_groups(coverage: &mut [u8], covered: usize, bytes: &[u8], count: usize)
    requires bytes { count + LANES ≤ length bytes.now }
    requires sixels { (j : ℕ) → j < count → IsTrue (is_data (slice_index bytes.now j)) }
    requires columns { covered + count + LANES ≤ length coverage.old }
    ensures covered { (n : ℕ) × (count ≤ n)
        × AreMapped covered n (λ j b. bit_or b (sixel_of bytes.now count j)) coverage.old coverage.new }
{
    if count <= LANES {
        cover_group(coverage, covered, bytes, count);
    } else {
        cover_each_group(coverage, covered, bytes, count);
    }
}

/// Marks `count` columns from `covered` on as painted, in the rows of the bits.
#[inline(always)]
pub(crate) fn cover_short_run(coverage: &mut [u8], covered: usize, count: usize, bits: u8)
    requires columns { covered + count + LANES ≤ length coverage.old }
    ensures { AreChanged covered (covered + count) (λ b. bit_or b bits) coverage.old coverage.new }
{
    for group in 0..count.div_ceil(LANES) {
        let done = group * LANES;
        let left = LANES.min(count - done);
        let sixels = sixels_of_run(bits, left);
        cover_columns(coverage, covered + done, sixels);
    }
}
