//! A picture: its size, its palette, and a register for each pixel.

ghost use Rattle.std.specs.Prelude.{◌≡◌, ◌<◌, ◌≤◌, ℕ, None, Some, MatchResult, length, nat_lt, slice_index};
ghost use Rattle.std.specs.Prelude.{if◌then◌else◌, is_some, not};
ghost use Rattle.sixel_model.specs.Colours.{palette_at};
ghost use Rattle.std.specs.List.{list_all};
ghost use Rattle.sixel_model.specs.Pictures.{IsAnyPicture, picture_fault, picture_of_parts, register_of};
ghost use Rattle.sixel_model.specs.Profiles.{count_of};

use crate::palette::{Palette, greatest_register};
use crate::profile::Profile;
use std::marker::Model;

/// The greatest side of a picture, in pixels.
pub const MOST_SIDE: u32 = 2048;

/// A picture of 1 to 2,048 by 1 to 2,048 pixels. The register of each pixel has a colour.
///
/// Contracts see its width, its height, its palette, and the registers of its pixels row by row from
/// the top left.
#[derive(Debug, Drop)]
pub struct Picture {
    width: u32,
    height: u32,
    palette: Palette,
    registers: Vec<u8>,
}

impl Model for Picture {
    ghost use Rattle.sixel_model.specs.Pictures.{IsAnyPicture, PictureValue, picture_of_parts};

    ghost Value = { PictureValue };

    ghost view = { λ p. picture_of_parts p.width p.height p.palette p.registers.items };

    ghost invariant = { λ p. IsAnyPicture (picture_of_parts p.width p.height p.palette p.registers.items) };
}

/// Why parts don't make a picture. If several reasons apply, the first one in this order is reported.
#[derive(Clone, Copy, Debug, PartialEq, Eq)]
pub enum PictureReason {
    /// The width or the height isn't from 1 to 2,048 pixels.
    Size = 1,
    /// The number of registers isn't the width times the height.
    Count = 2,
    /// A register isn't one of the palette's profile.
    Register = 3,
    /// The register of a pixel has no colour.
    NoColour = 4,
}

/// The reason, and the parts, returned unchanged.
#[derive(Debug, Drop)]
pub struct PictureFault {
    pub reason: PictureReason,
    pub palette: Palette,
    pub registers: Vec<u8>,
}

/// The first reason why these registers don't fit the palette. One pass finds the greatest of them.
fn reason_of_registers(palette: &Palette, registers: &[u8]) -> Option<PictureReason>
    ensures { result
        ≡ (if not (list_all (λ r. nat_lt r (length palette.now)) registers.now) then Some PictureReason.Register
        else if not (list_all (λ r. is_some (palette_at palette.now r)) registers.now) then Some PictureReason.NoColour
        else None) }
{
    let greatest_register = greatest_register(registers);
    if u16::from(greatest_register) >= palette.profile().count() {
        Some(PictureReason::Register)
    } else if !palette.has_all(registers, greatest_register) {
        Some(PictureReason::NoColour)
    } else {
        None
    }
}

/// The first reason why these parts don't make a picture.
fn reason_of(width: u32, height: u32, palette: &Palette, registers: &[u8]) -> Option<PictureReason>
    ensures { result ≡ picture_fault (length palette.now) width height palette.now registers.now }
{
    if width < 1 || width > MOST_SIDE || height < 1 || height > MOST_SIDE {
        Some(PictureReason::Size)
    } else if registers.len() != (width * height) as usize {
        Some(PictureReason::Count)
    } else {
        reason_of_registers(palette, registers)
    }
}

impl Picture {
    /// Makes a picture of a size in pixels, a palette, and a register for each pixel, row by row from the top left. On
    /// an `Err` these don't make one; it has the first reason, and the parts. Allocates nothing.
    pub fn new(
        width: u32,
        height: u32,
        palette: Palette,
        registers: Vec<u8>,
    ) -> Result<Picture, PictureFault>
        ensures reason { MatchResult result
            (λ p. picture_fault (length palette) width height palette registers.items ≡ None)
            (λ f. picture_fault (length palette) width height palette registers.items ≡ Some f.reason) }
        ensures parts { MatchResult result
            (λ p. p ≡ picture_of_parts width height palette registers.items)
            (λ f. (f.palette ≡ palette) × (f.registers ≡ registers)) }
    {
        if let Some(reason) = reason_of(width, height, &palette, &registers) {
            return Err(PictureFault {
                reason,
                palette,
                registers,
            });
        }
        Ok(Picture {
            width,
            height,
            palette,
            registers,
        })
    }

    /// The picture of parts that are known to make one. They aren't checked again.
    pub fn of_parts(width: u32, height: u32, palette: Palette, registers: Vec<u8>) -> Picture
        requires { picture_fault (length palette) width height palette registers.items ≡ None }
        ensures { result ≡ picture_of_parts width height palette registers.items }
    {
        // Called only for its contract, which says that the colours are in range.
        let _ = palette.get(0);
        Picture {
            width,
            height,
            palette,
            registers,
        }
    }

    /// The width in pixels.
    pub fn width(&self) -> u32
        ensures same { result ≡ self.now.width }
        ensures picture { IsAnyPicture self.now }
    {
        self.width
    }

    /// The height in pixels.
    pub fn height(&self) -> u32
        ensures same { result ≡ self.now.height }
        ensures picture { IsAnyPicture self.now }
    {
        self.height
    }

    /// The profile of the palette.
    pub fn profile(&self) -> Profile
        ensures count { count_of result ≡ length self.now.palette }
        ensures picture { IsAnyPicture self.now }
    {
        self.palette.profile()
    }

    /// The colours of the registers.
    pub fn palette(&self) -> &Palette
        ensures same { result.now ≡ self.now.palette }
        ensures picture { IsAnyPicture self.now }
    {
        &self.palette
    }

    /// The register of the pixel in column `x` and row `y`, both from 0 at the top left.
    pub fn register_at(&self, x: u32, y: u32) -> u8
        requires inside_x { x < self.now.width }
        requires inside_y { y < self.now.height }
        ensures same { result ≡ register_of self.now x y }
        ensures picture { IsAnyPicture self.now }
    {
        self.registers[y as usize * self.width as usize + x as usize]
    }

    /// The registers of row `y`, counted from 0 at the top, from left to right.
    pub fn row(&self, y: u32) -> &[u8]
        requires inside { y < self.now.height }
        ensures width { length result.now ≡ self.now.width }
        ensures same { (x : ℕ) → x < self.now.width → slice_index result.now x ≡ register_of self.now x y }
        ensures picture { IsAnyPicture self.now }
    {
        let width = self.width as usize;
        let start = y as usize * width;
        &self.registers[start..start + width]
    }

    /// The registers of all pixels, row by row from the top left.
    pub fn registers(&self) -> &[u8]
        ensures same { result.now ≡ self.now.registers }
        ensures picture { IsAnyPicture self.now }
    {
        &self.registers
    }
}
