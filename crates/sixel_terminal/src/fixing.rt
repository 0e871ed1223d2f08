//! Giving pixels the colours that they show at the end of a drawing.

ghost use Rattle.std.specs.Prelude.{◌≡◌, ◌<◌, ◌≤◌, ◌+◌, ℕ, IsTrue, List, length, map, slice_index_or, slice_set};
ghost use Rattle.sixel_model.specs.declared.colour.Parts.{Parts};
ghost use Rattle.sixel_model.specs.declared.colour.Parts.TheVariants.{Rgb};
ghost use Rattle.sixel_terminal.specs.declared.choices.Ground.{Ground as AGround};
ghost use Rattle.sixel_terminal.specs.declared.pixel.Ink.{Ink as AnInk};
ghost use Rattle.sixel_terminal.specs.declared.pixel.Ink.TheVariants.{Fixed};
ghost use Rattle.sixel_terminal.specs.Canvases.{black};
ghost use Rattle.sixel_terminal.specs.Displays.{IsGroundBelow};
ghost use Rattle.sixel_terminal.specs.Pixels.{AreAlikeIn, AreBoundIn, IsBoundAt};
ghost use Rattle.sixel_terminal.specs.Screens.{IsAllFixed, IsFixed, colours_in};
ghost use Rattle.sixel_terminal.specs.Standing.{AreInksBelow, IsInkBelow, fixed_at, fixed_below, shown_in, shown_over};

use crate::choices::Ground;
use crate::pixel::{BLOCK, Pixel, are_alike, are_bound, look_alike};
use crate::registers::Registers;

/// Gives each pixel the colour that it shows over this ground if the registers have these colours.
pub(crate) fn fix(pixels: &mut [Pixel], colours: &Registers, under: Ground)
    requires below { AreInksBelow (length colours.now) pixels.old }
    requires under { IsGroundBelow (length colours.now) under }
    ensures { pixels.new ≡ map (λ ink. Fixed (shown_over colours.now under ink)) pixels.old }
{
    fix_by(pixels, colours.pixels(), under);
}

/// Does so by the pixels of the registers, a block at once.
fn fix_by(pixels: &mut [Pixel], table: &[Pixel], under: Ground)
    requires below { AreInksBelow (length (colours_in table.now)) pixels.old }
    requires fixed { IsAllFixed table.now }
    requires under { IsGroundBelow (length (colours_in table.now)) under }
    ensures { pixels.new ≡ map (λ ink. Fixed (shown_over (colours_in table.now) under ink)) pixels.old }
{
    let count = pixels.len();
    let mut done = 0;
    while count - done >= BLOCK {
        done = fix_block(pixels, done, table, under);
    }
    fix_each(pixels, done, count, table, under);
}

/// Does so from `at` on, where the pixels before are done. It returns where it stopped, a block further or more.
#[inline(always)]
fn fix_block(pixels: &mut [Pixel], at: usize, table: &[Pixel], under: Ground) -> usize
    requires room { at + BLOCK ≤ length pixels.old }
    requires below { AreInksBelow (length (colours_in table.now)) pixels.old }
    requires fixed { IsAllFixed table.now }
    requires under { IsGroundBelow (length (colours_in table.now)) under }
    ensures further { at < result }
    ensures within { result ≤ length pixels.new }
    ensures long { length pixels.new ≡ length pixels.old }
    ensures fixed { (initial : List AnInk) → pixels.old ≡ fixed_below (colours_in table.now) under at initial
        → pixels.new ≡ fixed_below (colours_in table.now) under result initial }
{
    let first = pixels[at];
    if look_alike(pixels, at) || !are_bound(pixels, at) {
        return fix_others(pixels, at, first, table, under);
    }
    fix_registers(pixels, at, table);
    at + BLOCK
}

/// Does so for a block of pixels to which registers give their colours.
#[inline(always)]
fn fix_registers(pixels: &mut [Pixel], at: usize, table: &[Pixel])
    requires room { at + BLOCK ≤ length pixels.old }
    requires bound { AreBoundIn pixels.old at (at + BLOCK) }
    requires below { AreInksBelow (length (colours_in table.now)) pixels.old }
    requires fixed { IsAllFixed table.now }
    ensures long { length pixels.new ≡ length pixels.old }
    ensures fixed { (under : AGround) (initial : List AnInk)
        → pixels.old ≡ fixed_below (colours_in table.now) under at initial
        → pixels.new ≡ fixed_below (colours_in table.now) under (at + BLOCK) initial }
{
    fix_four(pixels, at, table);
    fix_four(pixels, at + 4, table);
    fix_four(pixels, at + 8, table);
    fix_four(pixels, at + 12, table);
}

/// Does so for four of them.
#[inline(always)]
fn fix_four(pixels: &mut [Pixel], at: usize, table: &[Pixel])
    requires room { at + 4 ≤ length pixels.old }
    requires bound { AreBoundIn pixels.old at (at + 4) }
    requires below { AreInksBelow (length (colours_in table.now)) pixels.old }
    requires fixed { IsAllFixed table.now }
    ensures below { AreInksBelow (length (colours_in table.now)) pixels.new }
    ensures long { length pixels.new ≡ length pixels.old }
    ensures kept { (k : ℕ) → at + 4 ≤ k → slice_index_or pixels.new k black ≡ slice_index_or pixels.old k black }
    ensures fixed { (under : AGround) (initial : List AnInk)
        → pixels.old ≡ fixed_below (colours_in table.now) under at initial
        → pixels.new ≡ fixed_below (colours_in table.now) under (at + 4) initial }
{
    fix_bound(pixels, at, table);
    fix_bound(pixels, at + 1, table);
    fix_bound(pixels, at + 2, table);
    fix_bound(pixels, at + 3, table);
}

/// Does so for one of them.
#[inline(always)]
fn fix_bound(pixels: &mut [Pixel], at: usize, table: &[Pixel])
    requires within { at < length pixels.old }
    requires bound { IsBoundAt pixels.old at }
    requires below { AreInksBelow (length (colours_in table.now)) pixels.old }
    requires fixed { IsAllFixed table.now }
    ensures { pixels.new
        ≡ slice_set pixels.old at (Fixed (shown_in (colours_in table.now) (slice_index_or pixels.old at black))) }
{
    pixels[at] = pixel_in(table, pixels[at].index());
}

/// Does so for a block that may have pixels with colours of their own. If they are all the same as `first`, it goes on
/// for as long as further blocks are.
///
/// It is a call, so that it doesn't take registers of the processor from the other blocks. It gets the first pixel, since
/// the compiler compares a whole block with a value sooner than the rest of a block with its first pixel.
#[inline(never)]
fn fix_others(
    pixels: &mut [Pixel],
    at: usize,
    first: Pixel,
    table: &[Pixel],
    under: Ground,
) -> usize
    requires room { at + BLOCK ≤ length pixels.old }
    requires below { AreInksBelow (length (colours_in table.now)) pixels.old }
    requires register { IsInkBelow (length (colours_in table.now)) first }
    requires fixed { IsAllFixed table.now }
    requires under { IsGroundBelow (length (colours_in table.now)) under }
    ensures further { at < result }
    ensures within { result ≤ length pixels.new }
    ensures long { length pixels.new ≡ length pixels.old }
    ensures fixed { (initial : List AnInk) → pixels.old ≡ fixed_below (colours_in table.now) under at initial
        → pixels.new ≡ fixed_below (colours_in table.now) under result initial }
{
    if are_alike(pixels, at, &first) {
        return fix_alike(pixels, at, &first, table, under);
    }
    fix_mixed(pixels, at, table, under);
    at + BLOCK
}

/// Does so for one block.
#[inline(always)]
fn fix_mixed(pixels: &mut [Pixel], at: usize, table: &[Pixel], under: Ground)
    requires room { at + BLOCK ≤ length pixels.old }
    requires below { AreInksBelow (length (colours_in table.now)) pixels.old }
    requires fixed { IsAllFixed table.now }
    requires under { IsGroundBelow (length (colours_in table.now)) under }
    ensures long { length pixels.new ≡ length pixels.old }
    ensures fixed { (initial : List AnInk) → pixels.old ≡ fixed_below (colours_in table.now) under at initial
        → pixels.new ≡ fixed_below (colours_in table.now) under (at + BLOCK) initial }
{
    if are_bound(pixels, at) {
        fix_registers(pixels, at, table);
    } else {
        fix_each(pixels, at, at + BLOCK, table, under);
    }
}

/// Does so for the blocks from `at` on that are all of this pixel, and for the block behind them. The first of them is.
#[inline(always)]
fn fix_alike(
    pixels: &mut [Pixel],
    at: usize,
    first: &Pixel,
    table: &[Pixel],
    under: Ground,
) -> usize
    requires room { at + BLOCK ≤ length pixels.old }
    requires alike { AreAlikeIn pixels.old at (at + BLOCK) first.now }
    requires below { AreInksBelow (length (colours_in table.now)) pixels.old }
    requires register { IsInkBelow (length (colours_in table.now)) first.now }
    requires fixed { IsAllFixed table.now }
    requires under { IsGroundBelow (length (colours_in table.now)) under }
    ensures further { at < result }
    ensures within { result ≤ length pixels.new }
    ensures long { length pixels.new ≡ length pixels.old }
    ensures fixed { (initial : List AnInk) → pixels.old ≡ fixed_below (colours_in table.now) under at initial
        → pixels.new ≡ fixed_below (colours_in table.now) under result initial }
{
    let pixel = shown(first, table, under);
    fill_block(pixels, at, &pixel);
    let mut done = at + BLOCK;
    while has_alike(pixels, done, first) {
        fill_block(pixels, done, &pixel);
        done += BLOCK;
    }
    if pixels.len() - done < BLOCK {
        return done;
    }
    fix_mixed(pixels, done, table, under);
    done + BLOCK
}

/// Whether there is a block at `at`, all of this pixel.
#[inline(always)]
fn has_alike(pixels: &[Pixel], at: usize, pixel: &Pixel) -> bool
    requires { at ≤ length pixels.now }
    ensures room { IsTrue result → at + BLOCK ≤ length pixels.now }
    ensures alike { IsTrue result → AreAlikeIn pixels.now at (at + BLOCK) pixel.now }
{
    pixels.len() - at >= BLOCK && are_alike(pixels, at, pixel)
}

/// Makes a block the same as this pixel. So it has its colours, if this is the one of its pixels.
#[inline(always)]
fn fill_block(pixels: &mut [Pixel], at: usize, pixel: &Pixel)
    requires { at + BLOCK ≤ length pixels.old }
    ensures below { (n : ℕ) → IsFixed pixel.now → AreInksBelow n pixels.old → AreInksBelow n pixels.new }
    ensures long { length pixels.new ≡ length pixels.old }
    ensures fixed { (colours : List Parts) (under : AGround) (ink : AnInk) (initial : List AnInk)
        → AreAlikeIn pixels.old at (at + BLOCK) ink → pixel.now ≡ Fixed (shown_over colours under ink)
        → pixels.old ≡ fixed_below colours under at initial
        → pixels.new ≡ fixed_below colours under (at + BLOCK) initial }
{
    fill_four(pixels, at, pixel);
    fill_four(pixels, at + 4, pixel);
    fill_four(pixels, at + 8, pixel);
    fill_four(pixels, at + 12, pixel);
}

/// Does so for four pixels.
#[inline(always)]
fn fill_four(pixels: &mut [Pixel], at: usize, pixel: &Pixel)
    requires { at + 4 ≤ length pixels.old }
    ensures below { (n : ℕ) → IsFixed pixel.now → AreInksBelow n pixels.old → AreInksBelow n pixels.new }
    ensures long { length pixels.new ≡ length pixels.old }
    ensures kept { (k : ℕ) → at + 4 ≤ k → slice_index_or pixels.new k black ≡ slice_index_or pixels.old k black }
    ensures fixed { (colours : List Parts) (under : AGround) (ink : AnInk) (initial : List AnInk)
        → AreAlikeIn pixels.old at (at + 4) ink → pixel.now ≡ Fixed (shown_over colours under ink)
        → pixels.old ≡ fixed_below colours under at initial
        → pixels.new ≡ fixed_below colours under (at + 4) initial }
{
    pixels[at] = *pixel;
    pixels[at + 1] = *pixel;
    pixels[at + 2] = *pixel;
    pixels[at + 3] = *pixel;
}

/// Gives the pixels from `from` up to `to` their colours, one by one. Those before are done.
#[inline(never)]
fn fix_each(pixels: &mut [Pixel], from: usize, to: usize, table: &[Pixel], under: Ground)
    requires order { from ≤ to }
    requires within { to ≤ length pixels.old }
    requires below { AreInksBelow (length (colours_in table.now)) pixels.old }
    requires fixed { IsAllFixed table.now }
    requires under { IsGroundBelow (length (colours_in table.now)) under }
    ensures long { length pixels.new ≡ length pixels.old }
    ensures fixed { (initial : List AnInk) → pixels.old ≡ fixed_below (colours_in table.now) under from initial
        → pixels.new ≡ fixed_below (colours_in table.now) under to initial }
{
    for index in from..to {
        fix_one(pixels, index, table, under);
    }
}

/// Does so for one pixel.
#[inline(always)]
fn fix_one(pixels: &mut [Pixel], at: usize, table: &[Pixel], under: Ground)
    requires within { at < length pixels.old }
    requires below { AreInksBelow (length (colours_in table.now)) pixels.old }
    requires fixed { IsAllFixed table.now }
    requires under { IsGroundBelow (length (colours_in table.now)) under }
    ensures { pixels.new ≡ slice_set pixels.old at (fixed_at (colours_in table.now) under pixels.old at) }
{
    pixels[at] = shown(&pixels[at], table, under);
}

/// The pixel in the colour that it shows.
#[inline(always)]
fn shown(pixel: &Pixel, table: &[Pixel], under: Ground) -> Pixel
    requires below { IsInkBelow (length (colours_in table.now)) pixel.now }
    requires fixed { IsAllFixed table.now }
    requires under { IsGroundBelow (length (colours_in table.now)) under }
    ensures { result ≡ Fixed (shown_over (colours_in table.now) under pixel.now) }
{
    match pixel.register() {
        Some(register) => pixel_in(table, register as usize),
        None => match under {
            Ground::Kept => *pixel,
            Ground::Filled(register) => pixel_in(table, register as usize),
        },
    }
}

/// The pixel of this register.
#[inline(always)]
fn pixel_in(table: &[Pixel], register: usize) -> Pixel
    requires within { register < length (colours_in table.now) }
    requires fixed { IsAllFixed table.now }
    ensures { result ≡ Fixed (slice_index_or (colours_in table.now) register (Rgb 0 0 0)) }
{
    table[register]
}
