//! The text of the columns of one register, on its way to the block. Each function adds to its end, and returns the new
//! end.

ghost use Rattle.std.specs.Prelude.{◌≡◌, ◌+◌, ◌-◌, ◌<◌, ◌≤◌, ◌++◌, ◌∷◌, [], decimal, length, take};
ghost use Rattle.sixel_encode.specs.Canon.{commands_text, run_commands};
ghost use Rattle.sixel_encode.specs.Columns.{part};

use crate::digits::digit;
use crate::heads::Heads;
use crate::lanes::LANES;
use std::simd::prelude::*;

/// How many bytes the columns of a register have at most: one each, of the widest picture and two groups of blank ones.
pub(crate) const MOST_BYTES: usize = 2048 + 2 * LANES;

/// Room for the longest text and a whole group behind it, so that a store of a group serves a few bytes.
pub(crate) const TEXT_ROOM: usize = MOST_BYTES + LANES;

/// Puts columns as single sixels.
#[inline]
pub(crate) fn put_part(text: &mut [u8], end: usize, sixels: &[u8], from: usize, to: usize) -> usize
    requires ordered { from ≤ to }
    requires within { to ≤ length sixels.now }
    requires room { end + (to - from) + LANES ≤ length text.old }
    ensures text { take result text.new ≡ take end text.old ++ part from to sixels.now }
    ensures end { result ≡ end + (to - from) }
    ensures long { length text.new ≡ length text.old }
{
    let count = to - from;
    if count <= LANES && from + LANES <= sixels.len() {
        put_group(text, end, &sixels[from..], count);
    } else {
        put_at(text, end, &sixels[from..to]);
    }
    end + count
}

/// Puts a repeat of `count` columns.
#[inline]
pub(crate) fn put_repeat(text: &mut [u8], end: usize, heads: &Heads, count: u16, bits: u8) -> usize
    requires least { 4 ≤ count }
    requires most { count ≤ 2112 }
    requires bits { bits ≤ 63 }
    requires room { end + count + LANES ≤ length text.old }
    ensures text { take result text.new
        ≡ take end text.old ++ commands_text (run_commands (record { count = count; item = bits })) }
    ensures short { result ≤ end + count }
    ensures long { length text.new ≡ length text.old }
{
    let sixel = 63 + bits;
    if count < 100 {
        put_short(text, end, heads, count, sixel)
    } else if count < 1_000 {
        let (hundreds, tens) = (digit(count / 100), digit(count / 10 % 10));
        put_bytes(text, end, &[b'!', hundreds, tens, digit(count % 10), sixel])
    } else {
        let (thousands, hundreds) = (digit(count / 1_000), digit(count / 100 % 10));
        let (tens, ones) = (digit(count / 10 % 10), digit(count % 10));
        put_bytes(text, end, &[b'!', thousands, hundreds, tens, ones, sixel])
    }
}

/// Puts a repeat whose count has one digit or two.
#[inline]
fn put_short(text: &mut [u8], end: usize, heads: &Heads, count: u16, sixel: u8) -> usize
    requires least { 4 ≤ count }
    requires most { count < 100 }
    requires room { end + LANES ≤ length text.old }
    ensures text { take result text.new ≡ take end text.old ++ (33 ∷ decimal count ++ sixel ∷ []) }
    ensures short { result ≤ end + 4 }
    ensures long { length text.new ≡ length text.old }
{
    let at = heads.put(text, end, count);
    put_bytes(text, at, &[sixel])
}

/// Puts these bytes.
#[inline]
fn put_bytes(text: &mut [u8], end: usize, bytes: &[u8]) -> usize
    requires { end + length bytes.now ≤ length text.old }
    ensures text { take result text.new ≡ take end text.old ++ bytes.now }
    ensures end { result ≡ end + length bytes.now }
    ensures long { length text.new ≡ length text.old }
{
    put_at(text, end, bytes);
    end + bytes.len()
}

/// Writes the bytes over those from `at` on.
#[inline]
pub(crate) fn put_at(text: &mut [u8], at: usize, bytes: &[u8])
    requires { at + length bytes.now ≤ length text.old }
    ensures text { take (at + length bytes.now) text.new ≡ take at text.old ++ bytes.now }
    ensures long { length text.new ≡ length text.old }
{
    text[at..at + bytes.len()].copy_from_slice(bytes);
}

/// The same for the first `count` bytes. Writes over a whole group.
#[inline]
fn put_group(text: &mut [u8], at: usize, bytes: &[u8], count: usize)
    requires few { count ≤ LANES }
    requires whole { LANES ≤ length bytes.now }
    requires room { at + LANES ≤ length text.old }
    ensures text { take (at + count) text.new ≡ take at text.old ++ take count bytes.now }
    ensures long { length text.new ≡ length text.old }
{
    u8x32::from_slice(bytes).copy_to_slice(&mut text[at..]);
}
