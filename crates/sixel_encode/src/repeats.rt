//! Finds equal columns in a row of sixels.

ghost use Rattle.std.specs.Prelude.{◌≡◌, ◌+◌, ◌^◌, ◌<◌, ◌≤◌, length, true};
ghost use Rattle.sixel_encode.specs.Columns.{ArePairs, IsInkEnd, IsRepeat, NoFour, are_four};

use crate::lanes::LANES;
use std::simd::prelude::*;

/// The fewest equal columns that become a repeat.
const LEAST_REPEAT: usize = 4;

/// How many columns of a group are tested as the start of a repeat: the four columns of each reach at most one column
/// beyond the group.
const STARTS: usize = LANES - 2;

/// Where the first repeat from `from` on begins, if there is one.
pub(crate) fn find_repeat(sixels: &[u8], from: usize) -> Option<usize>
    requires { from ≤ length sixels.now }
    ensures { IsRepeat from (length sixels.now) sixels.now result }
{
    let mut at = from;
    while at + LANES < sixels.len() {
        if let Some(start) = repeat_in_group(sixels, at) {
            return Some(start);
        }
        at += STARTS;
    }
    repeat_in_rest(sixels, at)
}

#[inline]
fn repeat_in_group(sixels: &[u8], at: usize) -> Option<usize>
    requires { at + STARTS + 3 ≤ length sixels.now }
    ensures { IsRepeat at (at + STARTS) sixels.now result }
{
    let count = singles_in_group(sixels, at);
    if count < STARTS {
        Some(at + count)
    } else {
        None
    }
}

/// How many columns of the group at `at` come before the first one at which a repeat begins.
#[inline]
fn singles_in_group(sixels: &[u8], at: usize) -> usize
    requires { at + STARTS + 3 ≤ length sixels.now }
    ensures most { result ≤ STARTS }
    ensures singles { NoFour at (at + result) sixels.now }
    ensures repeat { result < STARTS → are_four sixels.now (at + result) ≡ true }
{
    let pairs = equal_pairs(sixels, at);
    let begun = pairs & (pairs >> 1) & (pairs >> 2);
    if begun == 0 {
        STARTS
    } else {
        begun.trailing_zeros() as usize
    }
}

/// A mask of the group at `at`: the bit of a column is set if the next one is equal.
#[inline]
fn equal_pairs(sixels: &[u8], at: usize) -> u64
    requires { at + LANES < length sixels.now }
    ensures few { result < 2 ^ 32 }
    ensures pairs { ArePairs at sixels.now result }
{
    let next = u8x32::from_slice(&sixels[at + 1..]);
    u8x32::from_slice(&sixels[at..]).simd_eq(next).to_bitmask()
}

fn repeat_in_rest(sixels: &[u8], from: usize) -> Option<usize>
    requires { from ≤ length sixels.now }
    ensures { IsRepeat from (length sixels.now) sixels.now result }
{
    for start in from..sixels.len().saturating_sub(LEAST_REPEAT - 1) {
        if is_repeat(sixels, start) {
            return Some(start);
        }
    }
    None
}

/// Whether a repeat begins at `start`.
#[inline]
fn is_repeat(sixels: &[u8], start: usize) -> bool
    requires { start + 3 < length sixels.now }
    ensures { result ≡ are_four sixels.now start }
{
    let first = sixels[start];
    first == sixels[start + 1] && (first == sixels[start + 2] && first == sixels[start + 3])
}

/// The end of the columns from `from` on, without the blank ones after the last set bit.
pub(crate) fn ink_end(sixels: &[u8], from: usize) -> usize
    requires { from ≤ length sixels.now }
    ensures { IsInkEnd from result sixels.now }
{
    let mut end = sixels.len();
    while from < end && sixels[end - 1] == b'?' {
        end -= 1;
    }
    end
}
