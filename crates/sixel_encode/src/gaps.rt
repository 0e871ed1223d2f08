//! Finds where the gaps between the columns with ink end.

ghost use Rattle.std.specs.Prelude.{◌≡◌, ◌≢◌, ◌+◌, ◌^◌, ◌<◌, ◌≤◌, ◌⊎◌, List, ℕ, get_or, if◌then◌else◌, length, nat_lt};
ghost use Rattle.std.specs.Prelude.{true};
ghost use Rattle.sixel_encode.specs.Columns.{AreColumns, IsRepeatAt, IsRun};
ghost use Rattle.sixel_encode.specs.Gaps.{AreBlanks, AreBlanksFrom, AreEndBits, AreGapEnds, AreGapEndsBut};
ghost use Rattle.sixel_encode.specs.Gaps.{IsApart, IsNext};

use crate::columns::next_group;
use crate::lanes::{LANES, first_other};
use crate::line::MOST_BYTES;
use std::simd::prelude::*;

/// How many blank columns make a gap. Fewer aren't a repeat.
const LEAST_GAP: usize = 4;

/// The bit behind those of a group.
const BEHIND: u64 = 1 << 32;

/// Where gaps end: the columns with ink right behind four blank ones, from left to right. If they aren't listed, the end
/// of a blank run is searched like that of any other.
#[derive(Debug, Drop)]
pub(crate) struct Gaps {
    pub(crate) ends: [u16; MOST_BYTES + 1],
    pub(crate) count: usize,
    pub(crate) is_listed: bool,
}

impl Gaps {
    pub(crate) fn new() -> Gaps {
        Gaps {
            ends: [0; MOST_BYTES + 1],
            count: 0,
            is_listed: false,
        }
    }

    /// Lists the gaps of all columns, if that pays. Columns whose group isn't in the mask are blank.
    pub(crate) fn find(&mut self, sixels: &[u8], groups: u64)
        requires { AreColumns groups sixels.now }
        ensures { self.new.is_listed ≡ true
            → AreGapEnds (length sixels.now) sixels.now self.new.ends self.new.count }
    {
        self.is_listed = is_sparse(sixels, groups);
        if self.is_listed {
            self.list(sixels, groups);
        }
    }

    /// Lists the gaps of all columns.
    fn list(&mut self, sixels: &[u8], groups: u64)
        requires { AreColumns groups sixels.now }
        ensures { AreGapEnds (length sixels.now) sixels.now self.new.ends self.new.count }
    {
        self.count = 0;
        let count = (sixels.len() / LANES).min(64);
        let mut group = next_group(groups, 0, count);
        while group < count {
            self.add_group(sixels, group * LANES);
            group = next_group(groups, group + 1, count);
        }
    }

    /// Adds the ends in the group at `at`. Most groups have at most two, which take no branch.
    fn add_group(&mut self, sixels: &[u8], at: usize)
        requires few { length sixels.now ≤ MOST_BYTES }
        requires within { at + LANES ≤ length sixels.now }
        requires start { (at ≡ 0) ⊎ (4 ≤ at) }
        requires ends { AreGapEnds at sixels.now self.old.ends self.old.count }
        ensures { AreGapEnds (at + LANES) sixels.now self.new.ends self.new.count }
    {
        let bits = gap_ends(sixels, at);
        if bits == 0 {
            return;
        }
        let rest = self.add_lowest(at, bits);
        let mut left = self.add_lowest(at, rest);
        while left != 0 {
            left = self.add_lowest(at, left);
        }
    }

    /// Adds the first column of the mask, if there is one, and returns the mask without it.
    #[inline]
    fn add_lowest(&mut self, at: usize, left: u64) -> u64
        requires room { self.old.count ≤ MOST_BYTES }
        requires at { at ≤ MOST_BYTES }
        requires few { left < 2 ^ 32 }
        ensures added { (bytes : List ℕ) → AreGapEndsBut at left bytes self.old.ends self.old.count
            → AreGapEndsBut at result bytes self.new.ends self.new.count }
        ensures few { result < 2 ^ 32 }
        ensures fewer { left ≢ 0 → result < left }
    {
        let low = (left | BEHIND).trailing_zeros() as usize;
        self.ends[self.count] = (at + low) as u16;
        self.count += usize::from(low < LANES);
        left & !(1 << low)
    }

    /// The end of the run of equal columns that begins at `start`, the first repeat from `from` on. `next` is the index
    /// of the first gap end behind `from`; the second result is that of the first one behind the run.
    #[inline]
    pub(crate) fn run_end(
        &self,
        sixels: &[u8],
        from: usize,
        start: usize,
        next: usize,
    ) -> (usize, usize)
        requires few { length sixels.now ≤ MOST_BYTES }
        requires repeat { IsRepeatAt from sixels.now start }
        requires apart { IsApart from sixels.now }
        requires ends { self.now.is_listed ≡ true
            → AreGapEnds (length sixels.now) sixels.now self.now.ends self.now.count }
        requires next { self.now.is_listed ≡ true → IsNext from self.now.ends self.now.count next }
        requires small { next ≤ start }
        ensures run { IsRun start result.0 sixels.now }
        ensures next { self.now.is_listed ≡ true → IsNext result.0 self.now.ends self.now.count result.1 }
        ensures small { result.1 ≤ result.0 }
    {
        let byte = sixels[start];
        if self.is_listed && byte == b'?' {
            return (self.end_of(next, sixels.len()), next + 1);
        }
        match first_other(sixels, start + 1, byte) {
            Some(end) => (end, next),
            None => (sixels.len(), next),
        }
    }

    /// Where the gap with this index ends, or `end` if there is none.
    #[inline]
    fn end_of(&self, index: usize, end: usize) -> usize
        requires { self.now.count ≤ length self.now.ends }
        ensures { result ≡ (if nat_lt index self.now.count then get_or self.now.ends index 0 else end) }
    {
        if index < self.count {
            self.ends[index] as usize
        } else {
            end
        }
    }
}

/// Whether some whole groups of columns are blank, besides those behind the picture. Only then a list of gaps pays.
fn is_sparse(sixels: &[u8], groups: u64) -> bool {
    groups.count_ones() as usize + 2 < sixels.len() / LANES
}

/// A mask of the gap ends in the group at `at`.
#[inline]
fn gap_ends(sixels: &[u8], at: usize) -> u64
    requires within { at + LANES ≤ length sixels.now }
    requires start { (at ≡ 0) ⊎ (4 ≤ at) }
    ensures few { result < 2 ^ 32 }
    ensures ends { AreEndBits at sixels.now result }
{
    let blank = blanks_from(sixels, at);
    let four = blank & (blank >> 1) & (blank >> 2) & (blank >> 3);
    four & !(blank >> LEAST_GAP) & (BEHIND - 1)
}

/// A mask of the blank columns among the four before the group at `at` and its own. Before the first group none is.
#[inline]
fn blanks_from(sixels: &[u8], at: usize) -> u64
    requires within { at + LANES ≤ length sixels.now }
    requires start { (at ≡ 0) ⊎ (4 ≤ at) }
    ensures few { result < 2 ^ 36 }
    ensures blank { AreBlanksFrom at sixels.now result }
{
    let own = blank_columns(sixels, at) << LEAST_GAP;
    if at == 0 {
        own
    } else {
        own | blank_columns(sixels, at - LEAST_GAP)
    }
}

/// A mask of the blank columns in the group at `at`.
#[inline]
fn blank_columns(sixels: &[u8], at: usize) -> u64
    requires { at + LANES ≤ length sixels.now }
    ensures few { result < 2 ^ 32 }
    ensures blank { AreBlanks at sixels.now result }
{
    u8x32::from_slice(&sixels[at..])
        .simd_eq(u8x32::splat(b'?'))
        .to_bitmask()
}
