//! Looks at the bytes of a document, for a terminal that hears some commands otherwise.

ghost use Rattle.std.specs.Prelude.{◌≡◌, ◌<◌, ◌+◌, ◌++◌, ◌^◌, [], ℕ, List, length};
ghost use Rattle.sixel_emulator.specs.declared.hearing.Hears.{Hears as SomeHears};
ghost use Rattle.sixel_emulator.specs.Heard.{as_box, as_ratio, omitted_in};
ghost use Rattle.sixel_emulator.specs.Looking.{HasLooked};

use crate::hearing::{Hears, Omitted, RasterHeard};
use sixel_omissions::{BareSelects, FirstRaster, WrittenRaster};

/// How the first raster attributes are heard, if only their ratio may be taken.
fn as_ratio(written: Option<WrittenRaster>) -> RasterHeard
    ensures { result ≡ as_ratio written }
{
    match written {
        None => RasterHeard::AsTheyAre,
        Some(written) => RasterHeard::Ratio(written),
    }
}

/// The same, if they may be a box.
fn as_box(written: Option<WrittenRaster>) -> RasterHeard
    ensures { result ≡ as_box written }
{
    match written {
        None => RasterHeard::AsTheyAre,
        Some(written) => RasterHeard::Box(written),
    }
}

/// What a terminal hears otherwise among the bytes of a document, while they come.
#[derive(Clone, Copy, Debug, PartialEq, Eq)]
pub struct Looking {
    hears: Hears,
    bare: BareSelects,
    raster: FirstRaster,
}

impl Looking {
    /// No byte has come.
    pub fn new(hears: Hears) -> Looking
        ensures { HasLooked hears result [] }
    {
        Looking {
            hears,
            bare: BareSelects::new(),
            raster: FirstRaster::new(),
        }
    }

    /// Looks at the bytes that come next. It looks only for what the terminal hears otherwise.
    #[inline(always)]
    pub fn look(&mut self, bytes: &[u8])
        requires { (hears : SomeHears) × (before : List ℕ) × HasLooked hears self.old before
            × (length before + length bytes.now < 2 ^ 64) }
        ensures { (hears : SomeHears) (before : List ℕ) → HasLooked hears self.old before
            → HasLooked hears self.new (before ++ bytes.now) }
    {
        match self.hears {
            Hears::Events => {}
            Hears::Selects => self.bare.look(bytes),
            Hears::SelectsAndRasters => {
                self.bare.look(bytes);
                self.raster.look(bytes);
            }
            Hears::Boxes => self.raster.look(bytes),
        }
    }

    /// What is omitted in the bytes that came.
    #[inline(always)]
    pub fn omitted(&self) -> Omitted
        ensures { (hears : SomeHears) (bytes : List ℕ) → HasLooked hears self.now bytes
            → result ≡ omitted_in hears bytes }
    {
        match self.hears {
            Hears::Events => Omitted::nothing(),
            Hears::Selects => Omitted {
                bare: self.bare.first(),
                raster: RasterHeard::AsTheyAre,
            },
            Hears::SelectsAndRasters => Omitted {
                bare: self.bare.first(),
                raster: as_ratio(self.raster.written()),
            },
            Hears::Boxes => Omitted {
                bare: None,
                raster: as_box(self.raster.written()),
            },
        }
    }
}

/// What is omitted in all bytes of a document.
pub fn omitted_in(hears: Hears, bytes: &[u8]) -> Omitted
    ensures { result ≡ omitted_in hears bytes.now }
{
    let mut looking = Looking::new(hears);
    looking.look(bytes);
    looking.omitted()
}
