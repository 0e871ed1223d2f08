//! A plane with one byte for each pixel's register, and one byte for each column of each band, which says which rows
//! are painted.

ghost use Rattle.std.specs.Prelude.{◌≡◌, ◌==◌, ◌<◌, ◌≤◌, ◌+◌, ◌*◌, ◌⊎◌, ℕ, EachIndex, bit_or, length, slice_index};
ghost use Rattle.std.specs.Prelude.{false, refl, true, if◌then◌else◌, ◌%◌, ◌/◌, ◌-◌, IsTrue};
ghost use Rattle.sixel_grammar.specs.Bytes.{is_data};
ghost use Rattle.sixel_plane.specs.Stretches.{sixel_of, stretched_grid};
ghost use Rattle.std.specs.Int.{bit_at, div_ceil};
ghost use Rattle.sixel_plane.specs.BandPlanes.{has_coverage_bit};
ghost use Rattle.sixel_model.specs.Geometry.{covers};
ghost use Rattle.sixel_plane.specs.Lanes.{AreChanged};
ghost use Rattle.sixel_model.specs.Grids.{FirstUnpainted, RowsArePainted, painted_grid};

use crate::cover::Cover;
use crate::coverage::{MOST_SHORT, cover, first_unpainted, is_covered};
use crate::lanes::{fill, zeros};
use crate::plane::Plane;
use crate::stretch::{LANES, paint_groups, paint_short_run};
use sixel_model::{BAND_ROWS, is_set};
use std::alloc::{AllocError, Global};
use std::marker::Model;

/// A plane with one coverage byte for each column of each band: its bits say which of the six rows are painted.
///
/// It paints runs, and looks for a blank pixel, many columns at a time. The register byte of a blank pixel has no
/// meaning.
#[derive(Debug, Drop)]
pub struct BandPlane {
    width: u32,
    height: u32,
    registers: Vec<u8>,
    coverage: Vec<u8>,
}

impl Model for BandPlane {
    ghost use Rattle.sixel_model.specs.Grids.{Grid};

    ghost Value = { Grid };

    ghost use Rattle.sixel_plane.specs.BandPlanes.{grid_of_bands, AreBands};

    ghost view = { λ p. grid_of_bands p.width p.height p.registers.items p.coverage.items };

    ghost invariant = { λ p. AreBands p.width p.height p.registers.items p.coverage.items };
}

impl Cover for BandPlane {
    ghost grid = { λ p. p };

    ghost keeps = { true };

    fn blank(alloc: Global, width: u32, height: u32) -> Result<BandPlane, AllocError> {
        let registers = zeros(alloc, (width * height) as usize)?;
        let coverage = zeros(alloc, (width * height.div_ceil(BAND_ROWS)) as usize)?;
        Ok(BandPlane {
            width,
            height,
            registers,
            coverage,
        })
    }

    fn width(&self) -> u32 {
        self.width
    }

    fn height(&self) -> u32 {
        self.height
    }

    fn paint_run(&mut self, column: u32, band: u32, count: u32, bits: u8, register: u8) {
        if self.try_paint_short_run(column, band, count, bits, register) {
            return;
        }
        let width = self.width as usize;
        let start = band as usize * width + column as usize;
        cover(&mut self.coverage, start, count as usize, bits);
        fill_run(
            &mut self.registers,
            width,
            self.height,
            column,
            band,
            count,
            bits,
            register,
        );
    }

    #[inline(always)]
    fn try_paint_stretch(
        &mut self,
        column: u32,
        band: u32,
        bytes: &[u8],
        count: usize,
        register: u8,
    ) -> bool {
        let width = self.width as usize;
        let covered = band as usize * width + column as usize;
        let start = BAND_ROWS as usize * band as usize * width + column as usize;
        if bytes.len() < count + LANES
            || self.coverage.len() < covered + count + LANES
            || self.registers.len() < start + 5 * width + count + LANES
        {
            return false;
        }
        paint_groups(
            &mut self.registers,
            &mut self.coverage,
            width,
            start,
            covered,
            bytes,
            count,
            register,
        );
        true
    }

    fn is_blank(&self, x: u32, y: u32) -> bool {
        !is_covered(&self.coverage, self.width, x, y)
    }

    fn first_blank(&self) -> Option<(u32, u32)> {
        first_unpainted(&self.coverage, self.width, self.height)
    }
}

impl Plane for BandPlane {
    fn register_at(&self, x: u32, y: u32) -> Option<u8> {
        let width = self.width as usize;
        let column = x as usize;
        if is_set(
            self.coverage[(y / BAND_ROWS) as usize * width + column],
            y % BAND_ROWS,
        ) {
            Some(self.registers[y as usize * width + column])
        } else {
            None
        }
    }

    fn into_registers(self) -> Vec<u8> {
        let BandPlane {
            width: _,
            height: _,
            registers,
            coverage: _,
        } = self;
        registers
    }

    ghost keeps_registers = { refl };
}

impl BandPlane {
    /// Paints a short run by lanes, if its band has all six rows and the lanes fit. Returns whether it did.
    #[inline(always)]
    fn try_paint_short_run(
        &mut self,
        column: u32,
        band: u32,
        count: u32,
        bits: u8,
        register: u8,
    ) -> bool
        requires { column + count ≤ self.old.width }
        ensures painted { result ≡ true → self.new ≡ painted_grid self.old column band count bits register }
        ensures kept { result ≡ false → self.new ≡ self.old }
    {
        if count as usize > MOST_SHORT || band >= self.height / BAND_ROWS {
            return false;
        }
        let width = self.width as usize;
        let count = count as usize;
        let covered = band as usize * width + column as usize;
        let start = BAND_ROWS as usize * band as usize * width + column as usize;
        if self.coverage.len() < covered + count + LANES
            || self.registers.len() < start + 5 * width + count + LANES
        {
            return false;
        }
        paint_short_run(
            &mut self.registers,
            &mut self.coverage,
            width,
            start,
            covered,
            count,
            bits,
            register,
        );
        true
    }
}

/// Sets the register of the pixels of a run, with the method that is faster for its width.
fn fill_run(
    registers: &mut [u8],
    width: usize,
    height: u32,
    column: u32,
    band: u32,
    count: u32,
    bits: u8,
    register: u8,
)
    requires some { 0 < width }
    requires columns { column + count ≤ width }
    requires rows { (k : ℕ) → k < BAND_ROWS → bit_at bits k ≡ 1
        → (BAND_ROWS * band + k) * width + width ≤ length registers.old }
    requires pixels { length registers.old ≡ width * height }
    ensures { EachIndex registers.old (λ i. slice_index registers.new i
        ≡ (if covers column count band 1 bits (i % width) (i / width) then register else slice_index registers.old i)) }
{
    if count == 1 && band < height / BAND_ROWS {
        fill_column(registers, width, column, band, bits, register);
    } else {
        fill_rows(registers, width, column, band, count, bits, register);
    }
}

/// Sets the register of the pixels of a run, row by row.
#[inline(never)]
fn fill_rows(
    registers: &mut [u8],
    width: usize,
    column: u32,
    band: u32,
    count: u32,
    bits: u8,
    register: u8,
)
    requires some { 0 < width }
    requires columns { column + count ≤ width }
    requires rows { (k : ℕ) → k < BAND_ROWS → bit_at bits k ≡ 1
        → (BAND_ROWS * band + k) * width + width ≤ length registers.old }
    ensures { EachIndex registers.old (λ i. slice_index registers.new i
        ≡ (if covers column count band 1 bits (i % width) (i / width) then register else slice_index registers.old i)) }
{
    for bit in 0..BAND_ROWS {
        if is_set(bits, bit) {
            let start = (BAND_ROWS as usize * band as usize + bit as usize) * width
                + column as usize;
            fill(registers, start, start + count as usize, register);
        }
    }
}

/// As `fill_rows` for a single column, in a band that has all six rows.
fn fill_column(registers: &mut [u8], width: usize, column: u32, band: u32, bits: u8, register: u8)
    requires some { 0 < width }
    requires columns { column + 1 ≤ width }
    requires rows { (BAND_ROWS * band + 5) * width + width ≤ length registers.old }
    ensures { EachIndex registers.old (λ i. slice_index registers.new i
        ≡ (if covers column 1 band 1 bits (i % width) (i / width) then register else slice_index registers.old i)) }
{
    for bit in 0..BAND_ROWS {
        let index = (BAND_ROWS as usize * band as usize + bit as usize) * width + column as usize;
        put(registers, index, is_set(bits, bit), register);
    }
}

/// Sets the register of a pixel, if it is painted.
fn put(registers: &mut [u8], index: usize, is_painted: bool, register: u8)
    requires { index < length registers.old }
    ensures { AreChanged index (index + 1) (λ r. if is_painted then register else r) registers.old registers.new }
{
    if is_painted {
        registers[index] = register;
    }
}
