//! Where commands paint.

use crate::history::{command_of, corner, data_of, known};
use sixel_grammar::{Command, Placed};
use std::alloc::{AllocError, Global};

/// Whether a sixel with these bits paints this row, counted from its top. A sixel has six rows.
fn has_row(bits: u8, row: u64) -> bool {
    match row {
        0 => bits & 1 != 0,
        1 => bits & 2 != 0,
        2 => bits & 4 != 0,
        3 => bits & 8 != 0,
        4 => bits & 16 != 0,
        5 => bits & 32 != 0,
        _ => false,
    }
}

/// The first point outside a box of this width and height that the command paints, in row order.
pub(crate) fn outside(
    before: &[Placed],
    command: Option<Command>,
    width: u64,
    height: u64,
) -> Option<(u64, u64)> {
    let (column, top) = corner(before);
    let (columns, bits) = data_of(command);
    for row in 0..6u64 {
        let y = top.saturating_add(row);
        let x = if y < height {
            column.max(width)
        } else {
            column
        };
        if has_row(bits, row) && x < column.saturating_add(columns) {
            return Some((x, y));
        }
    }
    None
}

/// For each pixel of a box, row by row, the register that painted it last, if any.
#[derive(Drop)]
pub(crate) struct Pixels {
    width: u64,
    registers: Vec<Option<u16>>,
}

/// Sets the register of the pixels with an index from `from` up to `to`.
fn paint_between(pixels: &mut [Option<u16>], from: u64, to: u64, register: Option<u16>) {
    for place in from..to {
        let place = place as usize;
        if place < pixels.len() {
            pixels[place] = register;
        }
    }
}

/// Paints the points of the box that the command covers after these events.
fn paint(pixels: &mut Pixels, before: &[Placed], command: Option<Command>) {
    let (column, top) = corner(before);
    let (columns, bits) = data_of(command);
    let end = column.saturating_add(columns).min(pixels.width);
    let register = known(before);
    for row in 0..6u64 {
        let first = top.saturating_add(row).saturating_mul(pixels.width);
        if has_row(bits, row) {
            paint_between(
                &mut pixels.registers,
                first.saturating_add(column),
                first.saturating_add(end),
                register,
            );
        }
    }
}

/// The pixels of a box of this width and height after the events.
pub(crate) fn painted(
    alloc: Global,
    events: &[Placed],
    width: u64,
    height: u64,
) -> Result<Pixels, AllocError> {
    let count = width.saturating_mul(height) as usize;
    let registers = vec![in alloc; None; count]?;
    let mut pixels = Pixels { width, registers };
    for (position, placed) in events.iter().enumerate() {
        let before = events.get(..position).unwrap_or(&[]);
        paint(&mut pixels, before, command_of(placed));
    }
    Ok(pixels)
}

impl Pixels {
    /// The register of the pixel in column `x` and row `y`.
    pub(crate) fn register_over(&self, x: u64, y: u64) -> Option<u16> {
        let place = y.saturating_mul(self.width).saturating_add(x) as usize;
        self.registers.get(place).copied().flatten()
    }

    /// The column and the row of the first pixel, in row order, that no command paints.
    pub(crate) fn uncovered(&self) -> Option<(u64, u64)> {
        for (place, register) in self.registers.iter().enumerate() {
            if register.is_none() && self.width > 0 {
                let place = place as u64;
                return Some((place % self.width, place / self.width));
            }
        }
        None
    }
}
