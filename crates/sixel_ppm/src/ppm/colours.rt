//! Colours, numbered in the order in which they first appear.

ghost use Rattle.std.specs.Prelude.{◌≡◌, List, [], IfSome, Some, length, position};
ghost use Rattle.sixel_model.specs.Colours.{is_entry};
ghost use Rattle.sixel_model.specs.declared.colour.Parts.{Parts};
ghost use Rattle.sixel_ppm.specs.PpmReading.{with_colour};
ghost use Rattle.sixel_ppm.specs.PpmColours.{Fills, IsUnusedFrom, KeepsRegisters, Numbers};
ghost use Rattle.sixel_model.specs.Profiles.{count_of};

use sixel_model::{Colour, Palette, Profile};

/// The colours seen so far, numbered in the order in which they first appeared: they have the registers from 0 on.
#[derive(Debug, Drop)]
pub(crate) struct Colours {
    pub(crate) palette: Palette,
    pub(crate) count: u16,
}

impl Colours {
    /// No colour was seen yet.
    pub(crate) fn new(profile: Profile) -> Colours
        ensures none { Fills result [] }
        ensures profile { length result.palette ≡ count_of profile }
        ensures unused { IsUnusedFrom result.palette result.count }
    {
        Colours {
            palette: Palette::new(profile),
            count: 0,
        }
    }

    /// The register of a colour. A new colour gets the next register; `None` if no register is left.
    pub(crate) fn register_of(&mut self, colour: Colour) -> Option<u8>
        ensures numbers { (seen : List Parts) → Fills self.old seen → Numbers result self.new (with_colour seen colour)
            colour }
        ensures profile { length self.new.palette ≡ length self.old.palette }
        ensures first { IfSome result (λ register. position (is_entry colour) self.new.palette ≡ Some register) }
        ensures kept { IsUnusedFrom self.old.palette self.old.count →
            IsUnusedFrom self.new.palette self.new.count × KeepsRegisters self.old.palette self.new.palette }
    {
        if let Some(index) = self.palette.index_of(colour) {
            return Some(index as u8);
        }
        let register = self.count;
        if register >= self.palette.profile().count() {
            return None;
        }
        self.palette.set(register as u8, colour);
        self.count = register + 1;
        Some(register as u8)
    }
}
