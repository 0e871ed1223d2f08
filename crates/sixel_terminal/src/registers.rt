//! The colours of the registers during a drawing.

ghost use Rattle.std.specs.Prelude.{◌≡◌, ◌<◌, IfOk, length, slice_index_or, slice_set};
ghost use Rattle.sixel_model.specs.declared.colour.Parts.TheVariants.{Rgb};
ghost use Rattle.sixel_terminal.specs.declared.pixel.Ink.TheVariants.{Fixed};
ghost use Rattle.sixel_terminal.specs.Screens.{IsAllFixed, colours_in};

use crate::pixel::{Pixel, fixed_pixels};
use sixel_model::Colour;
use std::alloc::{AllocError, Global};
use std::marker::Model;

/// A pixel for each register, which shows its colour: painting and showing copy it. Contracts see the colours.
#[derive(Debug, Drop)]
pub(crate) struct Registers {
    pixels: Vec<Pixel>,
}

impl Model for Registers {
    ghost use Rattle.std.specs.Prelude.{List};
    ghost use Rattle.sixel_model.specs.declared.colour.Parts.{Parts};

    ghost Value = { List Parts };

    ghost use Rattle.std.specs.Prelude.{map};
    ghost use Rattle.sixel_terminal.specs.Screens.{colour_in_ink, IsAllFixed};

    ghost view = { λ r. map colour_in_ink r.pixels.items };

    ghost invariant = { λ r. IsAllFixed r.pixels.items };
}

impl Registers {
    /// Registers of these colours. `AllocError`: an allocation failed.
    pub(crate) fn new(alloc: Global, colours: &[Colour]) -> Result<Registers, AllocError>
        ensures { IfOk result (λ r. r ≡ colours.now) }
    {
        let pixels = fixed_pixels(alloc, colours)?;
        Ok(Registers { pixels })
    }

    /// A pixel that shows the colour of the register.
    #[inline(always)]
    pub(crate) fn pixel(&self, register: u16) -> Pixel
        requires { register < length self.now }
        ensures { result ≡ Fixed (slice_index_or self.now register (Rgb 0 0 0)) }
    {
        self.pixels[register as usize]
    }

    /// A pixel for each register, which shows its colour.
    #[inline(always)]
    pub(crate) fn pixels(&self) -> &[Pixel]
        ensures colours { colours_in result.now ≡ self.now }
        ensures fixed { IsAllFixed result.now }
    {
        self.pixels.as_slice()
    }

    /// Sets the colour of the register.
    #[inline(always)]
    pub(crate) fn set(&mut self, register: u16, colour: Colour)
        requires { register < length self.old }
        ensures { self.new ≡ slice_set self.old register colour }
    {
        self.pixels[register as usize] = Pixel::fixed(colour);
    }
}
