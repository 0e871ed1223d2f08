//! A set of the rules that named terminals ask for.

ghost use Rattle.std.specs.Prelude.{◌≡◌};
ghost use Rattle.sixel_emulator_rules.specs.Asked.{has_rule, no_rules};

use crate::rule::AskedRule;

/// A set of the rules that named terminals ask for.
#[derive(Clone, Copy, Debug, PartialEq, Eq)]
pub struct AskedRules {
    pub raster_late: bool,
    pub dropped: bool,
    pub stale: bool,
    pub large: bool,
    pub rows: bool,
    pub past: bool,
    pub hue: bool,
    pub far: bool,
    pub introducer: bool,
    pub bare: bool,
    pub space_after: bool,
}

impl AskedRules {
    /// None of them.
    pub const fn none() -> AskedRules
        ensures { result ≡ no_rules }
    {
        AskedRules {
            raster_late: false,
            dropped: false,
            stale: false,
            large: false,
            rows: false,
            past: false,
            hue: false,
            far: false,
            introducer: false,
            bare: false,
            space_after: false,
        }
    }

    /// Whether the rule is one of them.
    #[inline(always)]
    pub fn has(self, rule: AskedRule) -> bool
        ensures { result ≡ has_rule self rule }
    {
        match rule {
            AskedRule::RasterLate => self.raster_late,
            AskedRule::Dropped => self.dropped,
            AskedRule::Stale => self.stale,
            AskedRule::Large => self.large,
            AskedRule::Rows => self.rows,
            AskedRule::Past => self.past,
            AskedRule::Hue => self.hue,
            AskedRule::Far => self.far,
            AskedRule::Introducer => self.introducer,
            AskedRule::Bare => self.bare,
            AskedRule::SpaceAfter => self.space_after,
        }
    }
}
