//! What a terminal shows after a drawing.

ghost use Rattle.std.specs.Prelude.{◌≡◌, IfOk, map};
ghost use Rattle.sixel_terminal.specs.Screens.{IsAllFixed, colour_in_ink};

use crate::pixel::Pixel;
use sixel_model::Colour;
use std::alloc::{AllocError, Global};
use std::marker::Model;

/// The pixels of a whole screen, row by row. Contracts see its sides and its colours.
#[derive(Debug, Drop)]
pub struct Screen {
    pub(crate) width: u32,
    pub(crate) height: u32,
    pub(crate) pixels: Vec<Pixel>,
}

impl Model for Screen {
    ghost use Rattle.sixel_terminal.specs.Screens.{Shown};

    ghost Value = { Shown };

    ghost use Rattle.std.specs.Prelude.{map};
    ghost use Rattle.sixel_terminal.specs.Screens.{colour_in_ink, IsAllFixed};

    ghost view = { λ s. record {
      width = s.width;
      height = s.height;
      colours = map colour_in_ink s.pixels.items;
    } };

    ghost invariant = { λ s. IsAllFixed s.pixels.items };
}

impl Screen {
    /// The width in pixels.
    pub fn width(&self) -> u32
        ensures { result ≡ self.now.width }
    {
        self.width
    }

    /// The height in pixels.
    pub fn height(&self) -> u32
        ensures { result ≡ self.now.height }
    {
        self.height
    }

    /// The pixels, row by row. Each shows a colour.
    pub fn pixels(&self) -> &[Pixel]
        ensures pixels { map colour_in_ink result.now ≡ self.now.colours }
        ensures fixed { IsAllFixed result.now }
    {
        &self.pixels
    }

    /// The colours of all pixels, row by row. `AllocError`: an allocation failed.
    pub fn colours(&self, alloc: Global) -> Result<Vec<Colour>, AllocError>
        ensures { IfOk result (λ colours. colours.items ≡ self.now.colours) }
    {
        colours_of(alloc, &self.pixels)
    }
}

fn colours_of(alloc: Global, pixels: &[Pixel]) -> Result<Vec<Colour>, AllocError>
    ensures { IfOk result (λ colours. colours.items ≡ map colour_in_ink pixels.now) }
{
    let mut colours = Vec::with_capacity(alloc, pixels.len())?;
    for pixel in pixels {
        colours.push(pixel.colour())?;
    }
    Ok(colours)
}
