//! Work on runs of bytes, 32 lanes at a time.

ghost use Rattle.std.specs.Prelude.{◌≡◌, ◌==◌, ◌+◌, ◌<◌, ◌≤◌, ℕ, IfOk, length, bit_or, drop, not, replicate};
ghost use Rattle.std.specs.Prelude.{slice_index, take};
ghost use Rattle.std.specs.Int.{bit_at};
ghost use Rattle.std.specs.List.{prefix_len};
ghost use Rattle.sixel_plane.specs.Lanes.{AreChanged, IsFirst};

use std::alloc::{AllocError, Global};
use std::simd::prelude::*;

/// How many bytes are handled at once.
const LANES: usize = 32;

/// How many zeros are written at once: a size for which `memset` uses lanes instead of one instruction a byte.
const ZEROS: usize = 2_048;

/// A list of `count` zeros, made with one allocation.
pub(crate) fn zeros(alloc: Global, count: usize) -> Result<Vec<u8>, AllocError>
    ensures { IfOk result (λ bytes. bytes.items ≡ replicate count 0) }
{
    let mut bytes = Vec::with_capacity(alloc, count)?;
    for piece in 0..count / ZEROS {
        bytes.resize((piece + 1) * ZEROS, 0)?;
    }
    bytes.resize(count, 0)?;
    Ok(bytes)
}

/// Sets the bytes from `from` up to `to` to a value.
pub(crate) fn fill(bytes: &mut [u8], from: usize, to: usize, value: u8)
    requires ordered { from ≤ to }
    requires within { to ≤ length bytes.old }
    ensures { AreChanged from to (λ b. value) bytes.old bytes.new }
{
    let rest = fill_groups(bytes, from, to, value);
    for index in rest..to {
        bytes[index] = value;
    }
}

/// Fills the whole groups of the bytes from `from` up to `to`, and returns where the rest begins.
fn fill_groups(bytes: &mut [u8], from: usize, to: usize, value: u8) -> usize
    requires ordered { from ≤ to }
    requires within { to ≤ length bytes.old }
    ensures from { from ≤ result }
    ensures to { result ≤ to }
    ensures whole { to < result + LANES }
    ensures changed { AreChanged from result (λ b. value) bytes.old bytes.new }
{
    let groups = (to - from) / LANES;
    for group in 0..groups {
        fill_group(bytes, from + group * LANES, value);
    }
    from + groups * LANES
}

fn fill_group(bytes: &mut [u8], at: usize, value: u8)
    requires { at + LANES ≤ length bytes.old }
    ensures { AreChanged at (at + LANES) (λ b. value) bytes.old bytes.new }
{
    u8x32::splat(value).copy_to_slice(&mut bytes[at..]);
}

/// Sets bits in the bytes from `from` up to `to`.
#[inline(never)]
pub(crate) fn or_into(bytes: &mut [u8], from: usize, to: usize, bits: u8)
    requires ordered { from ≤ to }
    requires within { to ≤ length bytes.old }
    ensures { AreChanged from to (λ b. bit_or b bits) bytes.old bytes.new }
{
    let rest = or_into_groups(bytes, from, to, bits);
    for index in rest..to {
        bytes[index] |= bits;
    }
}

/// Sets bits in the whole groups of the bytes from `from` up to `to`, and returns where the rest begins.
fn or_into_groups(bytes: &mut [u8], from: usize, to: usize, bits: u8) -> usize
    requires ordered { from ≤ to }
    requires within { to ≤ length bytes.old }
    ensures from { from ≤ result }
    ensures to { result ≤ to }
    ensures whole { to < result + LANES }
    ensures changed { AreChanged from result (λ b. bit_or b bits) bytes.old bytes.new }
{
    let groups = (to - from) / LANES;
    for group in 0..groups {
        or_into_group(bytes, from + group * LANES, bits);
    }
    from + groups * LANES
}

fn or_into_group(bytes: &mut [u8], at: usize, bits: u8)
    requires { at + LANES ≤ length bytes.old }
    ensures { AreChanged at (at + LANES) (λ b. bit_or b bits) bytes.old bytes.new }
{
    let lanes = u8x32::from_slice(&bytes[at..]) | u8x32::splat(bits);
    lanes.copy_to_slice(&mut bytes[at..]);
}

/// The index of the first byte without the bit, among those from `from` up to `to`.
pub(crate) fn first_without(bytes: &[u8], from: usize, to: usize, bit: u32) -> Option<usize>
    requires bit { bit < 8 }
    requires ordered { from ≤ to }
    requires within { to ≤ length bytes.now }
    ensures { IsFirst (λ b. bit_at b bit == 0) from to bytes.now result }
{
    let groups = (to - from) / LANES;
    for group in 0..groups {
        if let Some(index) = first_in_group(bytes, from + group * LANES, bit) {
            return Some(index);
        }
    }
    first_in_rest(bytes, from + groups * LANES, to, bit)
}

fn first_in_group(bytes: &[u8], at: usize, bit: u32) -> Option<usize>
    requires bit { bit < 8 }
    requires within { at + LANES ≤ length bytes.now }
    ensures { IsFirst (λ b. bit_at b bit == 0) at (at + LANES) bytes.now result }
{
    let run = run_with(bytes, at, bit);
    if run < LANES { Some(at + run) } else { None }
}

/// How many bytes of the group at `at` come before the first one without the bit.
fn run_with(bytes: &[u8], at: usize, bit: u32) -> usize
    requires bit { bit < 8 }
    requires within { at + LANES ≤ length bytes.now }
    ensures { result ≡ prefix_len (λ b. not (bit_at b bit == 0)) (take LANES (drop at bytes.now)) }
{
    let lanes = u8x32::from_slice(&bytes[at..]) & u8x32::splat(1 << bit);
    let without = lanes.simd_eq(u8x32::splat(0)).to_bitmask();
    if without == 0 {
        LANES
    } else {
        without.trailing_zeros() as usize
    }
}

fn first_in_rest(bytes: &[u8], from: usize, to: usize, bit: u32) -> Option<usize>
    requires bit { bit < 8 }
    requires ordered { from ≤ to }
    requires within { to ≤ length bytes.now }
    ensures { IsFirst (λ b. bit_at b bit == 0) from to bytes.now result }
{
    for index in from..to {
        if bytes[index] >> bit & 1 == 0 {
            return Some(index);
        }
    }
    None
}

/// The bits that are set in every byte. It looks at all bytes, so the compiler can use vector instructions.
pub(crate) fn common_bits(bytes: &[u8]) -> u8
    ensures { (i k : ℕ) → i < length bytes.now → bit_at result k ≡ 1 → bit_at (slice_index bytes.now i) k ≡ 1 }
{
    let mut common = u8::MAX;
    for byte in bytes {
        common &= *byte;
    }
    common
}
