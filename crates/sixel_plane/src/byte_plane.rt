//! A plane with a register and a mark for each pixel.

ghost use Rattle.std.specs.Prelude.{◌≡◌, ◌<◌, ◌≤◌, ◌+◌, ◌&&◌, nat_le, nat_lt, not, EachIndex, IfSome, length, position};
ghost use Rattle.std.specs.Prelude.{refl, slice_index_or, true, if◌then◌else◌};

use crate::cover::Cover;
use crate::plane::Plane;
use sixel_model::{BAND_ROWS, is_set};
use std::alloc::{AllocError, Global};
use std::marker::Model;

/// A plane with a register for each pixel, and a mark that says whether the pixel is painted.
///
/// The register of a blank pixel has no meaning.
#[derive(Debug, Drop)]
pub struct BytePlane {
    width: u32,
    height: u32,
    registers: Vec<u8>,
    marks: Vec<bool>,
}

impl Model for BytePlane {
    ghost use Rattle.sixel_model.specs.Grids.{Grid};

    ghost Value = { Grid };

    ghost use Rattle.sixel_plane.specs.BytePlanes.{grid_of_marks, AreMarked};

    ghost view = { λ p. grid_of_marks p.width p.height p.registers.items p.marks.items };

    ghost invariant = { λ p. AreMarked p.width p.height p.registers.items p.marks.items };
}

impl Cover for BytePlane {
    ghost grid = { λ p. p };

    ghost keeps = { true };

    fn blank(alloc: Global, width: u32, height: u32) -> Result<BytePlane, AllocError> {
        let pixels = (width * height) as usize;
        let registers = vec![in alloc; 0; pixels]?;
        let marks = vec![in alloc; false; pixels]?;
        Ok(BytePlane {
            width,
            height,
            registers,
            marks,
        })
    }

    fn width(&self) -> u32 {
        self.width
    }

    fn height(&self) -> u32 {
        self.height
    }

    fn paint_run(&mut self, column: u32, band: u32, count: u32, bits: u8, register: u8) {
        for bit in 0..BAND_ROWS {
            if is_set(bits, bit) {
                let row = BAND_ROWS * band + bit;
                let start = row as usize * self.width as usize + column as usize;
                fill_row(&mut self.registers, start, count as usize, register);
                fill_row(&mut self.marks, start, count as usize, true);
            }
        }
    }

    fn is_blank(&self, x: u32, y: u32) -> bool {
        !self.marks[y as usize * self.width as usize + x as usize]
    }

    fn first_blank(&self) -> Option<(u32, u32)> {
        let index = blank_index(&self.marks)?;
        let width = self.width as usize;
        Some(((index % width) as u32, (index / width) as u32))
    }
}

impl Plane for BytePlane {
    fn register_at(&self, x: u32, y: u32) -> Option<u8> {
        let index = y as usize * self.width as usize + x as usize;
        self.marks[index].then_some(self.registers[index])
    }

    fn into_registers(self) -> Vec<u8> {
        let BytePlane {
            width: _,
            height: _,
            registers,
            marks: _,
        } = self;
        registers
    }

    ghost keeps_registers = { refl };
}

/// The index of the first pixel without a mark.
fn blank_index(marks: &[bool]) -> Option<usize>
    ensures value { result ≡ position not marks.now }
    ensures within { IfSome result (λ i. i < length marks.now) }
{
    marks.iter().position(|is_painted| !*is_painted)
}

/// Sets `count` items from `start` on to a value.
fn fill_row<T: Copy>(items: &mut [T], start: usize, count: usize, value: T)
    requires { start + count ≤ length items.old }
    ensures { (d : T) → EachIndex items.old (λ i. slice_index_or items.new i d
        ≡ (if nat_le start i && nat_lt i (start + count) then value else slice_index_or items.old i d)) }
{
    for index in start..start + count {
        items[index] = value;
    }
}
