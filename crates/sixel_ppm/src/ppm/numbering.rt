//! Numbers colours in the order in which they first appear, and caches the registers of RGB colours.

ghost use Rattle.std.specs.Prelude.{◌≡◌, List, [], IfSome, Option, Some, length, position};
ghost use Rattle.sixel_model.specs.Colours.{is_entry};
ghost use Rattle.sixel_model.specs.Profiles.{count_of};
ghost use Rattle.sixel_model.specs.declared.colour.Parts.{Parts as AColour};
ghost use Rattle.sixel_model.specs.declared.colour.Parts.TheVariants.{Rgb};
ghost use Rattle.sixel_ppm.specs.PpmColours.{Fills, HasRegister, IsUnusedFrom, KeepsRegisters, Numbers};
ghost use Rattle.sixel_ppm.specs.PpmPixelCache.{Knows};
ghost use Rattle.sixel_ppm.specs.PpmReading.{with_colour};

use crate::ppm::colours::Colours;
use crate::ppm::pixel_cache::PixelCache;
use sixel_model::{Colour, Palette, Parts, Profile};

/// The colours seen so far, numbered in the order in which they first appeared: they have the registers from 0 on.
///
/// A cache finds most RGB colours. It stores their percentages as `read_ppm` stores samples whose maximum is 100.
#[derive(Debug, Drop)]
pub struct Numbering {
    pub(crate) colours: Colours,
    pub(crate) cache: PixelCache,
    ghost unused: { IsUnusedFrom colours.palette colours.count },
    ghost knows: { Knows cache 100 colours.palette },
}

/// The register of a colour, if the cache has it. The cache has no HLS colour.
fn cached(cache: &PixelCache, colour: Colour) -> Option<u8>
    ensures { (palette : List (Option AColour)) → Knows cache.now 100 palette →
        IfSome result (λ register. position (is_entry colour) palette ≡ Some register) }
{
    match colour.parts() {
        Parts::Rgb(red, green, blue) => cache.register_of(red, green, blue),
        Parts::Hls(_, _, _) => None,
    }
}

/// Stores the register of a colour, if it is an RGB colour.
fn keep(cache: &mut PixelCache, colour: Colour, register: u8)
    ensures { (palette : List (Option AColour)) → Knows cache.old 100 palette →
        position (is_entry colour) palette ≡ Some register → Knows cache.new 100 palette }
{
    if let Parts::Rgb(red, green, blue) = colour.parts() {
        cache.keep(red, green, blue, register);
    }
}

/// The register of a colour, by way of a cache of their percentages. A new colour gets the next register; `None` if no
/// register is left.
pub(crate) fn number_by(colours: &mut Colours, cache: &mut PixelCache, colour: Colour) -> Option<u8>
    requires unused { IsUnusedFrom colours.old.palette colours.old.count }
    requires knows { Knows cache.old 100 colours.old.palette }
    ensures numbers { (seen : List AColour) → Fills colours.old seen
        → Numbers result colours.new (with_colour seen colour) colour }
    ensures profile { length colours.new.palette ≡ length colours.old.palette }
    ensures first { IfSome result (λ register. position (is_entry colour) colours.new.palette ≡ Some register) }
    ensures unused { IsUnusedFrom colours.new.palette colours.new.count }
    ensures kept { KeepsRegisters colours.old.palette colours.new.palette }
    ensures knows { Knows cache.new 100 colours.new.palette }
{
    if let Some(register) = cached(cache, colour) {
        return Some(register);
    }
    match colours.register_of(colour) {
        None => None,
        Some(register) => {
            keep(cache, colour, register);
            Some(register)
        }
    }
}

impl Numbering {
    /// No colour was seen yet.
    pub fn new(profile: Profile) -> Numbering
        ensures none { Fills result.colours [] }
        ensures profile { length result.colours.palette ≡ count_of profile }
    {
        Numbering {
            colours: Colours::new(profile),
            cache: PixelCache::new(),
        }
    }

    /// The register of an RGB colour, given by its percentages, if the cache has it.
    pub fn cached(&self, red: u8, green: u8, blue: u8) -> Option<u8>
        ensures { (seen : List AColour) → Fills self.now.colours seen
            → IfSome result (HasRegister seen (Rgb red green blue)) }
    {
        self.cache.register_of(red, green, blue)
    }

    /// The register of a colour. A new colour gets the next register; `None` if no register is left.
    pub fn register_of(&mut self, colour: Colour) -> Option<u8>
        ensures numbers { (seen : List AColour) → Fills self.old.colours seen
            → Numbers result self.new.colours (with_colour seen colour) colour }
        ensures profile { length self.new.colours.palette ≡ length self.old.colours.palette }
    {
        number_by(&mut self.colours, &mut self.cache, colour)
    }

    /// The palette with these colours.
    pub fn into_palette(self) -> Palette
        ensures { result ≡ self.colours.palette }
    {
        let Numbering { colours, .. } = self;
        colours.palette
    }
}
