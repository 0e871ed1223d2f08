//! Bands in stock. A picture is made of bands of the stock, chosen by chance, so making one is little more than a copy.

ghost use Rattle.std.specs.Prelude.{◌<◌};

use crate::dice::Dice;
use crate::pixels::{Content, Kind, ROWS, band_of};
use crate::styles::{Style, percent_of, put_band, put_definition, put_number};
use std::alloc::{AllocError, Global};

/// No register.
pub const NO_HOLE: u64 = 1000;

/// How the pictures of a stock are written as text.
#[derive(Clone, Copy, Debug)]
pub struct Form {
    pub kind: Kind,
    pub style: Style,
    /// The register whose pixels aren't painted, or `NO_HOLE`.
    pub hole: u64,
    /// The register without a definition, or `NO_HOLE`.
    pub undefined: u64,
    /// How many rows at the bottom lie outside the declared box.
    pub cut: u64,
    /// How many columns at the right lie outside the declared box.
    pub narrowed: u64,
    /// How many bands are kept in stock.
    pub stock: u64,
}

impl Form {
    /// Pictures that are written without a mistake.
    pub fn whole(content: Content, style: Style, registers: u64, width: usize) -> Form {
        Form {
            kind: Kind {
                content,
                registers,
                width,
            },
            style,
            hole: NO_HOLE,
            undefined: NO_HOLE,
            cut: 0,
            narrowed: 0,
            stock: 12,
        }
    }
}

/// Bands of one form, as texts or as pixels.
#[derive(Drop)]
pub struct Stock {
    bands: Vec<Vec<u8>>,
}

/// The sample, from 0 to 255, for a percentage. With chance, a neighbour that is rounded to the same percentage.
fn sample_for(dice: &mut Dice, percent: u64, varies: bool) -> u8 {
    let sample = (percent.wrapping_mul(255).wrapping_add(50) / 100) % 256;
    let next = sample.wrapping_add(1);
    let rounded = next.wrapping_mul(200).wrapping_add(255) / 510;
    if varies && rounded == percent && dice.below(2) == 1 {
        (next % 256) as u8
    } else {
        sample as u8
    }
}

/// Adds the samples of the pixels.
fn put_samples(
    samples: &mut Vec<u8>,
    dice: &mut Dice,
    pixels: &[u8],
    varies: bool,
) -> Result<(), AllocError> {
    for pixel in pixels {
        for percent in percent_of(u64::from(*pixel)) {
            samples.push(sample_for(dice, percent, varies))?;
        }
    }
    Ok(())
}

impl Stock {
    /// Bands as text.
    pub fn texts(alloc: Global, dice: &mut Dice, form: &Form) -> Result<Stock, AllocError> {
        let mut bands = Vec::new(alloc);
        for _ in 0..form.stock {
            let pixels = band_of(alloc, dice, &form.kind)?;
            let mut text = Vec::new(alloc);
            put_band(
                alloc,
                &mut text,
                form.style,
                &form.kind,
                pixels.as_slice(),
                form.hole,
            )?;
            bands.push(text)?;
        }
        Ok(Stock { bands })
    }

    /// Bands as samples of a PPM with a maximum of 255. If they vary, samples that are rounded to the same percentage
    /// differ.
    pub fn samples(
        alloc: Global,
        dice: &mut Dice,
        form: &Form,
        varies: bool,
    ) -> Result<Stock, AllocError> {
        let mut bands = Vec::new(alloc);
        for _ in 0..form.stock {
            let pixels = band_of(alloc, dice, &form.kind)?;
            let mut samples = Vec::new(alloc);
            put_samples(&mut samples, dice, pixels.as_slice(), varies)?;
            bands.push(samples)?;
        }
        Ok(Stock { bands })
    }

    /// Adds so many bands, chosen by chance.
    fn put_bands(&self, text: &mut Vec<u8>, dice: &mut Dice, count: u64) -> Result<(), AllocError> {
        for _ in 0..count {
            let bands = self.bands.as_slice();
            if !bands.is_empty() {
                let chosen = dice.below(bands.len() as u64) as usize;
                text.extend_from_slice(bands[chosen].as_slice())?;
            }
        }
        Ok(())
    }
}

/// Writes the raster attributes. Row by row they have no size, as those of ppmtosixel.
fn put_raster(text: &mut Vec<u8>, form: &Form, bands: u64) -> Result<(), AllocError> {
    text.extend_from_slice(b"\"1;1")?;
    if form.style == Style::Rows {
        return Ok(());
    }
    text.push(b';')?;
    put_number(text, (form.kind.width as u64).wrapping_sub(form.narrowed))?;
    text.push(b';')?;
    put_number(text, bands.wrapping_mul(ROWS).wrapping_sub(form.cut))
}

/// Adds a picture of so many bands as sixel text.
pub fn put_picture(
    text: &mut Vec<u8>,
    dice: &mut Dice,
    form: &Form,
    stock: &Stock,
    bands: u64,
) -> Result<(), AllocError> {
    text.extend_from_slice(b"\x1bP0;1;0q")?;
    put_raster(text, form, bands)?;
    for register in 0..form.kind.registers {
        if register != form.undefined {
            put_definition(text, register)?;
        }
    }
    stock.put_bands(text, dice, bands)?;
    text.extend_from_slice(b"\x1b\\")
}

/// A picture of so many bands as a PPM. The stock has samples.
pub fn ppm(
    alloc: Global,
    dice: &mut Dice,
    form: &Form,
    stock: &Stock,
    bands: u64,
) -> Result<Vec<u8>, AllocError> {
    let mut text = Vec::new(alloc);
    text.extend_from_slice(b"P6\n")?;
    put_number(&mut text, form.kind.width as u64)?;
    text.push(b' ')?;
    put_number(&mut text, bands.wrapping_mul(ROWS))?;
    text.extend_from_slice(b"\n255\n")?;
    stock.put_bands(&mut text, dice, bands)?;
    Ok(text)
}
