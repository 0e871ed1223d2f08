//! Bands as text, as several programs write them.

ghost use Rattle.std.specs.Prelude.{◌≡◌, ◌<◌, ◌≤◌, ◌+◌, length};

use crate::pixels::Kind;
use itoa::Buffer;
use std::alloc::{AllocError, Global};

/// How a program writes a band.
#[derive(Clone, Copy, Debug, PartialEq, Eq)]
pub enum Style {
    /// Register by register, with runs, and a carriage return between two, as img2sixel.
    Registers,
    /// The same, with each register defined again, and line feeds between commands, as gnuplot.
    Defined,
    /// Row by row, run by run, each with its register, as ppmtosixel.
    Rows,
    /// Column by column, each with its register.
    Columns,
    /// Column by column, with a carriage return after each.
    Returns,
}

/// The three percentages of a register. No two registers have the same.
pub fn percent_of(register: u64) -> [u64; 3] {
    let red = register % 7;
    let green = register / 7 % 7;
    let blue = register / 49 % 7;
    [
        red.wrapping_mul(16),
        green.wrapping_mul(16),
        blue.wrapping_mul(16),
    ]
}

pub fn put_number(text: &mut Vec<u8>, number: u64) -> Result<(), AllocError> {
    let mut digits = Buffer::new();
    text.extend_from_slice(digits.format(number).as_bytes())
}

pub fn put_select(text: &mut Vec<u8>, register: u64) -> Result<(), AllocError> {
    text.push(b'#')?;
    put_number(text, register)
}

/// Writes a definition of a register.
pub fn put_definition(text: &mut Vec<u8>, register: u64) -> Result<(), AllocError> {
    put_select(text, register)?;
    text.extend_from_slice(b";2")?;
    for part in percent_of(register) {
        text.push(b';')?;
        put_number(text, part)?;
    }
    Ok(())
}

/// How many items from this one on are equal.
fn run_at(items: &[u8], from: usize) -> usize
    requires { from < length items.now }
    ensures some { 0 < result }
    ensures within { from + result ≤ length items.now }
{
    for index in from + 1..items.len() {
        if items[index] != items[from] {
            return index - from;
        }
    }
    items.len() - from
}

/// Writes equal sixels: more than three as a repeat.
fn put_run(text: &mut Vec<u8>, count: usize, sixel: u8) -> Result<(), AllocError> {
    if count > 3 {
        text.push(b'!')?;
        put_number(text, count as u64)?;
        text.push(sixel)?;
        return Ok(());
    }
    for _ in 0..count {
        text.push(sixel)?;
    }
    Ok(())
}

/// Writes the sixels, without the blank ones at the end.
fn put_sixels(text: &mut Vec<u8>, sixels: &[u8]) -> Result<(), AllocError> {
    let mut at = 0;
    for _ in 0..sixels.len() {
        if at >= sixels.len() {
            break;
        }
        let count = run_at(sixels, at);
        let sixel = sixels[at];
        at += count;
        if at < sixels.len() || sixel != b'?' {
            put_run(text, count, sixel)?;
        }
    }
    Ok(())
}

/// Sets this row in the sixels of the columns whose pixel has the register.
fn add_row(sixels: &mut [u8], row: &[u8], register: u64, bit: u8) {
    for x in 0..sixels.len().min(row.len()) {
        if u64::from(row[x]) == register {
            sixels[x] = sixels[x].wrapping_add(bit);
        }
    }
}

/// The sixels of a register.
fn sixels_of(
    alloc: Global,
    kind: &Kind,
    pixels: &[u8],
    register: u64,
) -> Result<Vec<u8>, AllocError> {
    let mut sixels = vec![in alloc; b'?'; kind.width]?;
    let mut bit: u8 = 1;
    let mut rest = pixels;
    for _ in 0..6 {
        let (row, later) = rest.split_at(kind.width.min(rest.len()));
        add_row(sixels.as_mut_slice(), row, register, bit);
        bit = bit.wrapping_mul(2);
        rest = later;
    }
    Ok(sixels)
}

/// Writes a register of a band, if it has any pixel there.
fn put_register(
    text: &mut Vec<u8>,
    style: Style,
    sixels: &[u8],
    register: u64,
) -> Result<(), AllocError> {
    if sixels.iter().all(|sixel| *sixel == b'?') {
        return Ok(());
    }
    if style == Style::Defined {
        put_definition(text, register)?;
        text.push(b'\n')?;
    }
    put_select(text, register)?;
    put_sixels(text, sixels)?;
    text.push(b'$')?;
    if style == Style::Defined {
        text.push(b'\n')?;
    }
    Ok(())
}

/// Writes a band register by register. What is in the register `hole` isn't written.
fn put_registers(
    alloc: Global,
    text: &mut Vec<u8>,
    style: Style,
    kind: &Kind,
    pixels: &[u8],
    hole: u64,
) -> Result<(), AllocError> {
    for register in 0..kind.registers {
        if register != hole {
            let sixels = sixels_of(alloc, kind, pixels, register)?;
            put_register(text, style, sixels.as_slice(), register)?;
        }
    }
    Ok(())
}

/// Writes a row run by run. The sixel has this row's bit.
fn put_row(text: &mut Vec<u8>, row: &[u8], sixel: u8) -> Result<(), AllocError> {
    let mut at = 0;
    for _ in 0..row.len() {
        if at >= row.len() {
            break;
        }
        let count = run_at(row, at);
        put_select(text, u64::from(row[at]))?;
        put_run(text, count, sixel)?;
        at += count;
    }
    text.extend_from_slice(b"$\n")
}

/// Writes a band row by row.
fn put_rows(text: &mut Vec<u8>, kind: &Kind, pixels: &[u8]) -> Result<(), AllocError> {
    let mut bit: u8 = 1;
    let mut rest = pixels;
    for _ in 0..6 {
        let (row, later) = rest.split_at(kind.width.min(rest.len()));
        put_row(text, row, bit.wrapping_add(b'?'))?;
        bit = bit.wrapping_mul(2);
        rest = later;
    }
    Ok(())
}

/// Writes a band column by column: all six rows in the register of the first.
fn put_columns(
    text: &mut Vec<u8>,
    kind: &Kind,
    pixels: &[u8],
    end: &[u8],
) -> Result<(), AllocError> {
    for x in 0..kind.width.min(pixels.len()) {
        put_select(text, u64::from(pixels[x]))?;
        text.extend_from_slice(end)?;
    }
    Ok(())
}

/// Writes a band column by column, each from the left margin on.
fn put_returns(text: &mut Vec<u8>, kind: &Kind) -> Result<(), AllocError> {
    put_select(text, 0)?;
    put_run(text, kind.width, b'~')?;
    for _ in 0..kind.width {
        text.extend_from_slice(b"$~")?;
    }
    Ok(())
}

/// Writes a band, without the pixels in the register `hole`, and goes to the next.
pub fn put_band(
    alloc: Global,
    text: &mut Vec<u8>,
    style: Style,
    kind: &Kind,
    pixels: &[u8],
    hole: u64,
) -> Result<(), AllocError> {
    match style {
        Style::Registers | Style::Defined => {
            put_registers(alloc, text, style, kind, pixels, hole)?
        }
        Style::Rows => put_rows(text, kind, pixels)?,
        Style::Columns => put_columns(text, kind, pixels, b"~")?,
        Style::Returns => put_returns(text, kind)?,
    }
    text.push(b'-')?;
    Ok(())
}
