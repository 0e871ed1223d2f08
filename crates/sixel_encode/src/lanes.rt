//! Finds equal bytes, 32 lanes at a time.

ghost use Rattle.std.specs.Prelude.{◌≡◌, ◌==◌, ◌+◌, ◌<◌, ◌≤◌, ℕ, drop, length, not, slice_index, take, true};
ghost use Rattle.std.specs.List.{prefix_len};
ghost use Rattle.sixel_plane.specs.Lanes.{IsFirst};

use std::simd::prelude::*;

/// How many columns form a group, which is handled at once. A row has at most 64 groups.
pub(crate) const LANES: usize = 32;

/// The index of the first byte from `from` on that isn't `byte`, if any. The last group may begin in the one before it.
pub(crate) fn first_other(bytes: &[u8], from: usize, byte: u8) -> Option<usize>
    requires { from ≤ length bytes.now }
    ensures { IsFirst (λ b. not (b == byte)) from (length bytes.now) bytes.now result }
{
    if bytes.len() - from < LANES {
        return first_in_rest(bytes, from, byte);
    }
    let last = bytes.len() - LANES;
    let mut at = from;
    while at < last {
        if let Some(index) = first_in_group(bytes, at, byte) {
            return Some(index);
        }
        at += LANES;
    }
    first_in_group(bytes, last, byte)
}

#[inline]
fn first_in_group(bytes: &[u8], at: usize, byte: u8) -> Option<usize>
    requires { at + LANES ≤ length bytes.now }
    ensures { IsFirst (λ b. not (b == byte)) at (at + LANES) bytes.now result }
{
    let count = equal_in_group(bytes, at, byte);
    if count < LANES {
        Some(at + count)
    } else {
        None
    }
}

/// How many bytes of the group at `at` come before the first one that isn't `byte`.
#[inline]
fn equal_in_group(bytes: &[u8], at: usize, byte: u8) -> usize
    requires { at + LANES ≤ length bytes.now }
    ensures { result ≡ prefix_len (λ b. not (not (b == byte))) (take LANES (drop at bytes.now)) }
{
    let others = u8x32::from_slice(&bytes[at..])
        .simd_ne(u8x32::splat(byte))
        .to_bitmask();
    if others == 0 {
        LANES
    } else {
        others.trailing_zeros() as usize
    }
}

/// Whether all bytes of the group at `at` are equal.
#[inline]
pub(crate) fn is_uniform(bytes: &[u8], at: usize) -> bool
    requires { at + LANES ≤ length bytes.now }
    ensures { result ≡ true → (k : ℕ) → at ≤ k → k < at + LANES → slice_index bytes.now k ≡ slice_index bytes.now at }
{
    equal_in_group(bytes, at, bytes[at]) == LANES
}

fn first_in_rest(bytes: &[u8], from: usize, byte: u8) -> Option<usize>
    requires { from ≤ length bytes.now }
    ensures { IsFirst (λ b. not (b == byte)) from (length bytes.now) bytes.now result }
{
    for index in from..bytes.len() {
        if bytes[index] != byte {
            return Some(index);
        }
    }
    None
}
