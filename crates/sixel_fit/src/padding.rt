//! Rows of one colour below a picture.

ghost use Rattle.std.specs.Prelude.{◌≡◌, ◌≤◌, ◌<◌, ◌-◌, ◌++◌, IfOk, IfSome, is_none, length, position, replicate};
ghost use Rattle.sixel_fit.specs.Rows.{pad_register, with_rows};

use sixel_model::{Colour, Palette, Picture};
use std::alloc::{AllocError, Global};

/// The first register without a colour.
fn free_register(palette: &Palette) -> Option<u8>
    ensures value { result ≡ position is_none palette.now }
    ensures within { IfSome result (λ register. register < length palette.now) }
{
    for register in 0..palette.profile().count() {
        if palette.get(register as u8).is_none() {
            return Some(register as u8);
        }
    }
    None
}

/// The first register that has the colour; if none has it, the first one without a colour.
pub(crate) fn pad_register(pad: Colour, palette: &Palette) -> Option<u8>
    ensures value { result ≡ pad_register pad palette.now }
    ensures within { IfSome result (λ register. register < length palette.now) }
{
    match palette.index_of(pad) {
        Some(register) => Some(register as u8),
        None => free_register(palette),
    }
}

/// A copy of the palette.
fn copy_of(palette: &Palette) -> Palette
    ensures { result ≡ palette.now }
{
    let mut copy = Palette::new(palette.profile());
    for register in 0..palette.profile().count() {
        if let Some(colour) = palette.get(register as u8) {
            copy.set(register as u8, colour);
        }
    }
    copy
}

/// The registers of the picture's pixels, and as many more of one register as make `count`.
fn longer(
    alloc: Global,
    registers: &[u8],
    count: usize,
    register: u8,
) -> Result<Vec<u8>, AllocError>
    requires { length registers.now ≤ count }
    ensures { IfOk result (λ longer.
        longer.items ≡ registers.now ++ replicate (count - length registers.now) register) }
{
    let mut longer = Vec::with_capacity(alloc, count)?;
    longer.extend_from_slice(registers)?;
    longer.resize(count, register)?;
    Ok(longer)
}

/// The picture with rows below it in this register, which gets the colour.
pub(crate) fn with_rows(
    alloc: Global,
    picture: &Picture,
    height: u32,
    pad: Colour,
    register: u8,
) -> Result<Picture, AllocError>
    requires higher { picture.now.height ≤ height }
    requires side { height ≤ 2048 }
    requires register { register < length picture.now.palette }
    ensures { IfOk result (λ fitted. fitted ≡ with_rows picture.now height pad register) }
{
    let width = picture.width();
    let count = (width * height) as usize;
    let registers = longer(alloc, picture.registers(), count, register)?;
    let mut palette = copy_of(picture.palette());
    palette.set(register, pad);
    Ok(Picture::of_parts(width, height, palette, registers))
}
