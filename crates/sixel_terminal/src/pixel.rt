//! The pixels of a screen during drawing, in four bytes each.

ghost use Rattle.std.specs.Prelude.{◌≡◌, ◌==◌, ◌≤◌, ◌<◌, ◌↔◌, ◌&&◌, ◌+◌, ◌-◌, ℕ, EachIndex, IfOk, IsSome, IsTrue, Some};
ghost use Rattle.std.specs.Prelude.{length, map, nat_le, nat_lt, slice_get, slice_index, slice_index_or, if◌then◌else◌};
ghost use Rattle.std.specs.Int.{bit_at};
ghost use Rattle.sixel_model.specs.Geometry.{band_rows};
ghost use Rattle.sixel_terminal.specs.Canvases.{black};
ghost use Rattle.sixel_terminal.specs.Pixels.{AreAlikeIn, AreBoundIn, bytes_of, is_rgb_ink, packed, register_in_ink};
ghost use Rattle.sixel_terminal.specs.Screens.{colour_in_ink};
ghost use Rattle.sixel_terminal.specs.declared.pixel.Ink.TheVariants.{Fixed as FixedInk, Bound as BoundInk};

use sixel_model::{Colour, Parts};
use std::alloc::{AllocError, Global};
use std::marker::Model;
use std::simd::prelude::*;

/// How many pixels are painted at once.
pub(crate) const LANES: usize = 4;

/// How many pixels are given their colours at once.
pub(crate) const BLOCK: usize = 16;

/// What a pixel shows.
#[derive(Clone, Copy, Debug)]
pub enum Ink {
    /// This colour.
    Fixed(Colour),
    /// The colour that this register has at the end.
    Bound(u16),
}

/// The highest byte of a register's code.
const BOUND: u8 = 3;

/// The least code of a register. Those of colours are below it.
const LEAST_BOUND: u32 = 50_331_648;

/// A pixel, which contracts see as its ink.
///
/// The bytes of its code, the lowest first: of an RGB colour the percentages and 0; of an HLS colour the hue modulo
/// 256, lightness, saturation, and 1 or 2 for the rest of the hue; of a register two for its number, then 0 and 3.
#[derive(Clone, Copy, Debug)]
pub struct Pixel {
    code: u32,
}

impl Model for Pixel {
    ghost use Rattle.std.specs.Prelude.{◌≡◌};
    ghost use Rattle.std.proofs.Common.{ap, sym};
    ghost use Rattle.sixel_terminal.specs.declared.pixel.Ink.{Ink};

    ghost Value = { Ink };

    ghost use Rattle.sixel_terminal.specs.Pixels.{IsInkCode, code_of, ink_of};

    ghost view = { λ p. ink_of p.code };

    ghost invariant = { λ p. IsInkCode p.code };

    ghost inverse = { λ ink. record { code = code_of ink } };

    ghost inverse_ok = { λ p h. ap (λ n. record { code = n }) (sym h.same) };
}

/// Four bytes as a number, the lowest first.
fn packed(a: u8, b: u8, c: u8, highest: u8) -> u32
    ensures { result ≡ packed a b c highest }
{
    u32::from(a) + 256 * (u32::from(b) + 256 * (u32::from(c) + 256 * u32::from(highest)))
}

/// The new codes of four pixels: the ink's where the sixel has the bit, otherwise the old one.
#[inline(always)]
fn painted(codes: [u32; LANES], sixels: [u8; LANES], bit: u32, ink: u32) -> [u32; LANES]
    requires { bit < band_rows }
    ensures { (j : ℕ) → j < LANES → slice_index result j
        ≡ (if bit_at (slice_index sixels j) bit == 1 then ink else slice_index codes j) }
{
    let sixels: u32x4 = u8x4::from_array(sixels).cast();
    let unpainted = (sixels & u32x4::splat(1 << bit)).simd_eq(u32x4::splat(0));
    unpainted
        .select(u32x4::from_array(codes), u32x4::splat(ink))
        .to_array()
}

/// Paints the pixels of a row from `at` on whose sixels have the bit. All four are read first, and written at once.
#[inline(always)]
pub(crate) fn paint_four(
    pixels: &mut [Pixel],
    at: usize,
    sixels: [u8; LANES],
    bit: u32,
    ink: &Pixel,
)
    requires bit { bit < band_rows }
    requires room { at + LANES ≤ length pixels.old }
    ensures { EachIndex pixels.old (λ i. slice_index_or pixels.new i black
        ≡ (if (nat_le at i && nat_lt i (at + LANES)) && (bit_at (slice_index sixels (i - at)) bit == 1)
        then ink.now else slice_index_or pixels.old i black)) }
{
    let (a, b, c, d) = (pixels[at], pixels[at + 1], pixels[at + 2], pixels[at + 3]);
    let codes = painted([a.code, b.code, c.code, d.code], sixels, bit, ink.code);
    pixels[at] = Pixel { code: codes[0] };
    pixels[at + 1] = Pixel { code: codes[1] };
    pixels[at + 2] = Pixel { code: codes[2] };
    pixels[at + 3] = Pixel { code: codes[3] };
}

/// The bits of this number that the codes of four pixels, from `at` on, have, too.
#[inline(always)]
fn bits_in_four(pixels: &[Pixel], at: usize, bits: u32) -> u32
    requires { at + 4 ≤ length pixels.now }
    ensures fewer { result ≤ bits }
    ensures bound { LEAST_BOUND ≤ result → AreBoundIn pixels.now at (at + 4) }
{
    let first = pixels[at].bits_in(bits);
    let second = pixels[at + 1].bits_in(first);
    let third = pixels[at + 2].bits_in(second);
    pixels[at + 3].bits_in(third)
}

/// Whether all pixels of the block at `at` have registers' colours at the end. It takes no branch.
#[inline(always)]
pub(crate) fn are_bound(pixels: &[Pixel], at: usize) -> bool
    requires { at + BLOCK ≤ length pixels.now }
    ensures { IsTrue result → AreBoundIn pixels.now at (at + BLOCK) }
{
    let first = bits_in_four(pixels, at, u32::MAX);
    let second = bits_in_four(pixels, at + 4, first);
    let third = bits_in_four(pixels, at + 8, second);
    bits_in_four(pixels, at + 12, third) >= LEAST_BOUND
}

/// Whether four pixels, from `at` on, are the same as this one. It takes no branch.
#[inline(always)]
fn are_four_alike(pixels: &[Pixel], at: usize, pixel: &Pixel) -> bool
    requires { at + 4 ≤ length pixels.now }
    ensures { IsTrue result → AreAlikeIn pixels.now at (at + 4) pixel.now }
{
    pixels[at].is_same(pixel)
        & pixels[at + 1].is_same(pixel)
        & pixels[at + 2].is_same(pixel)
        & pixels[at + 3].is_same(pixel)
}

/// Whether all pixels of the block at `at` are the same as this one. It takes no branch.
#[inline(always)]
pub(crate) fn are_alike(pixels: &[Pixel], at: usize, pixel: &Pixel) -> bool
    requires { at + BLOCK ≤ length pixels.now }
    ensures { IsTrue result → AreAlikeIn pixels.now at (at + BLOCK) pixel.now }
{
    are_four_alike(pixels, at, pixel)
        & are_four_alike(pixels, at + 4, pixel)
        & are_four_alike(pixels, at + 8, pixel)
        & are_four_alike(pixels, at + 12, pixel)
}

/// Whether the middle and the last pixel of the block at `at` are the same as the first. Then most likely all are.
#[inline(always)]
pub(crate) fn look_alike(pixels: &[Pixel], at: usize) -> bool
    requires { at + BLOCK ≤ length pixels.now }
    ensures { IsTrue result → (slice_index_or pixels.now (at + 8) black ≡ slice_index_or pixels.now at black)
        × (slice_index_or pixels.now (at + 15) black ≡ slice_index_or pixels.now at black) }
{
    pixels[at + 8].is_same(&pixels[at]) && pixels[at + 15].is_same(&pixels[at])
}

/// Whether four pixels, from `at` on, are the same in both lists. It takes no branch.
#[inline(always)]
pub fn are_four_same(a: &[Pixel], b: &[Pixel], at: usize) -> bool
    requires a { at + 4 ≤ length a.now }
    requires b { at + 4 ≤ length b.now }
    ensures { IsTrue result ↔ ((k : ℕ) → k < 4 → slice_get a.now (at + k) ≡ slice_get b.now (at + k)) }
{
    a[at].is_same(&b[at])
        & a[at + 1].is_same(&b[at + 1])
        & a[at + 2].is_same(&b[at + 2])
        & a[at + 3].is_same(&b[at + 3])
}

/// Pixels of these colours.
pub(crate) fn fixed_pixels(alloc: Global, colours: &[Colour]) -> Result<Vec<Pixel>, AllocError>
    ensures { IfOk result (λ pixels. pixels.items ≡ map (λ c. FixedInk c) colours.now) }
{
    let mut pixels = Vec::with_capacity(alloc, colours.len())?;
    for colour in colours {
        pixels.push(Pixel::fixed(*colour))?;
    }
    Ok(pixels)
}

impl Pixel {
    /// A pixel that shows this colour.
    #[inline(always)]
    pub(crate) fn fixed(colour: Colour) -> Pixel
        ensures { result ≡ FixedInk colour }
    {
        let code = match colour.parts() {
            Parts::Rgb(red, green, blue) => packed(red, green, blue, 0),
            Parts::Hls(hue, lightness, saturation) => {
                packed(
                    (hue % 256) as u8,
                    lightness,
                    saturation,
                    1 + (hue / 256) as u8,
                )
            }
        };
        Pixel { code }
    }

    /// A pixel that shows the colour that this register has at the end.
    pub(crate) fn bound(register: u16) -> Pixel
        ensures { result ≡ BoundInk register }
    {
        Pixel {
            code: packed((register % 256) as u8, (register / 256) as u8, 0, BOUND),
        }
    }

    /// The register whose colour the pixel shows at the end, if it has no colour of its own.
    #[inline(always)]
    pub(crate) fn register(&self) -> Option<u16>
        ensures { result ≡ register_in_ink self.now }
    {
        if self.code < LEAST_BOUND {
            return None;
        }
        Some((self.code % 65_536) as u16)
    }

    /// The same as an index, for a pixel that shows a register's colour. The compiler adds it to an address.
    #[inline(always)]
    pub(crate) fn index(&self) -> usize
        requires { IsSome (register_in_ink self.now) }
        ensures { register_in_ink self.now ≡ Some result }
    {
        self.code as usize - LEAST_BOUND as usize
    }

    /// The bits of this number that the pixel's code has, too. They are as many as a register's code has only if the
    /// pixel shows a register's colour.
    #[inline(always)]
    fn bits_in(&self, bits: u32) -> u32
        ensures fewer { result ≤ bits }
        ensures bound { LEAST_BOUND ≤ result → IsSome (register_in_ink self.now) }
    {
        self.code & bits
    }

    /// Four bytes: of an RGB colour its percentages of red, green and blue, and 0.
    pub fn bytes(&self) -> [u8; 4]
        ensures { result ≡ bytes_of self.now }
    {
        self.code.to_le_bytes()
    }

    /// Whether the pixel shows an RGB colour.
    pub fn is_rgb(&self) -> bool
        ensures { result ≡ is_rgb_ink self.now }
    {
        self.code < 16_777_216
    }

    /// Whether two pixels show the same.
    #[inline(always)]
    pub fn is_same(&self, other: &Pixel) -> bool
        ensures { IsTrue result ↔ (self.now ≡ other.now) }
    {
        self.code == other.code
    }

    /// The colour that the pixel shows after a drawing.
    pub fn colour(&self) -> Colour
        ensures { result ≡ colour_in_ink self.now }
    {
        match self.ink() {
            Ink::Fixed(colour) => colour,
            Ink::Bound(_) => Colour::of_percentages(0, 0, 0),
        }
    }

    /// What the pixel shows.
    pub(crate) fn ink(self) -> Ink
        ensures { result ≡ self }
    {
        let a = (self.code % 256) as u8;
        let b = (self.code / 256 % 256) as u8;
        let c = (self.code / 65_536 % 256) as u8;
        match (self.code / 16_777_216) as u8 {
            0 => Ink::Fixed(Colour::of_percentages(a, b, c)),
            BOUND => Ink::Bound(u16::from(a) + 256 * u16::from(b)),
            highest => {
                let hue = u16::from(a) + 256 * (u16::from(highest) - 1);
                Ink::Fixed(Colour::hls(hue, b, c).unwrap())
            }
        }
    }
}
