//! Made pictures, a band of six rows at a time.

ghost use Rattle.std.specs.Prelude.{◌<◌, ◌≤◌};

use crate::dice::Dice;
use std::alloc::{AllocError, Global};

/// How many rows a band has.
pub const ROWS: u64 = 6;

/// A multiplier that spreads numbers near each other.
const SPREAD: u64 = 0x9e37_79b9_7f4a_7c15;

/// What a picture shows.
#[derive(Clone, Copy, Debug, PartialEq, Eq)]
pub enum Content {
    /// Slow waves with a texture of five columns, dithered: some registers side by side, in short stretches, as in a
    /// photo.
    Photo,
    /// Nine thin curves on a ground.
    Plot,
    /// A register for each pixel, by chance.
    Noise,
    /// One register for each column, by chance.
    Columns,
}

/// A picture of so many registers and columns.
#[derive(Clone, Copy, Debug)]
pub struct Kind {
    pub content: Content,
    /// How many registers are used, from 1 to 256.
    pub registers: u64,
    /// The width in pixels.
    pub width: usize,
}

/// A wave that rises from 0 to 4,096 and falls again, in 8,192 steps.
fn wave(x: u64) -> u64
    ensures { result ≤ 4096 }
{
    let place = x % 8192;
    if place < 4096 { place } else { 8192 - place }
}

/// The register at a pixel of a photo, before it is bounded.
fn photo(dice: &mut Dice, kind: &Kind, phase: u64, x: u64, y: u64) -> u64 {
    let first = wave(x.wrapping_mul(7).wrapping_add(phase));
    let second = wave(
        x.wrapping_mul(2)
            .wrapping_add(y.wrapping_mul(31))
            .wrapping_add(phase >> 20),
    );
    let texture = (x / 5).wrapping_add(phase).wrapping_mul(SPREAD) >> 54;
    let sum = first.wrapping_add(second).wrapping_add(texture);
    (sum.wrapping_mul(kind.registers) >> 13).wrapping_add(dice.below(3))
}

/// The register at a pixel of a plot: that of the last curve through it, or the ground, 0.
fn plot(phase: u64, x: u64, y: u64) -> u64 {
    let mut found = 0;
    for curve in 1..10u64 {
        let steep = (phase >> curve) % 7;
        let height = (x.wrapping_mul(steep).wrapping_add(phase >> (curve * 3))) >> 4;
        if height % 150 == y {
            found = curve;
        }
    }
    found
}

/// The register at a pixel.
fn pixel(dice: &mut Dice, kind: &Kind, phase: u64, x: u64, y: u64) -> u8 {
    let found = match kind.content {
        Content::Photo => photo(dice, kind, phase, x, y),
        Content::Plot => plot(phase, x, y),
        Content::Noise => dice.roll(),
        Content::Columns => Dice::new(phase.wrapping_add(x)).roll(),
    };
    let limit = kind.registers.clamp(1, 256);
    (found % limit) as u8
}

fn add_row(
    row: &mut Vec<u8>,
    dice: &mut Dice,
    kind: &Kind,
    phase: u64,
    y: u64,
) -> Result<(), AllocError> {
    for x in 0..kind.width {
        row.push(pixel(dice, kind, phase, x as u64, y))?;
    }
    Ok(())
}

/// The pixels of a band, row by row, each the number of a register.
pub fn band_of(alloc: Global, dice: &mut Dice, kind: &Kind) -> Result<Vec<u8>, AllocError> {
    let phase = dice.roll();
    let mut pixels = Vec::new(alloc);
    for y in 0..ROWS {
        add_row(&mut pixels, dice, kind, phase, y)?;
    }
    Ok(pixels)
}
