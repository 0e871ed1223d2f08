//! The rules that named terminals ask for.

ghost use Rattle.std.specs.Prelude.{◌≡◌, ◌≤◌, length};
ghost use Rattle.sixel_emulator_rules.specs.Asked.{number_of};
ghost use Rattle.sixel_emulator_rules.specs.Names.{name_of};

/// How many rules there are.
pub const ASKED_COUNT: usize = 11;

/// A rule that some of the named terminals ask for, besides those of portable pictures.
#[derive(Clone, Copy, Debug, PartialEq, Eq)]
pub enum AskedRule {
    /// konsole: raster attributes after a select or a definition.
    RasterLate,
    /// konsole: a return or a new line right after a select, a definition or raster attributes.
    Dropped,
    /// foot: painting in a register that had another colour when it was selected.
    Stale,
    /// xterm: a declared width above 1,000, or a height above 996.
    Large,
    /// konsole: a declared height that is no multiple of six.
    Rows,
    /// konsole: sixels without a set bit right of the box or below it.
    Past,
    /// xterm: a definition by hue, lightness and saturation.
    Hue,
    /// mlterm: sixels, with a set bit or not, so far out that it may end or show colours of chance.
    Far,
    /// xterm and mlterm: an introducer with a first number above 9, or by which mlterm may mix colours.
    Introducer,
    /// xterm and mlterm: a select without a number. No event tells, so `Asking` and `Tallying` find none.
    Bare,
    /// xterm: a space behind the terminator. No event tells of it, either.
    SpaceAfter,
}

/// Each of them, in order of number.
pub const ALL_ASKED_RULES: [AskedRule; ASKED_COUNT] = [
    AskedRule::RasterLate,
    AskedRule::Dropped,
    AskedRule::Stale,
    AskedRule::Large,
    AskedRule::Rows,
    AskedRule::Past,
    AskedRule::Hue,
    AskedRule::Far,
    AskedRule::Introducer,
    AskedRule::Bare,
    AskedRule::SpaceAfter,
];

impl AskedRule {
    /// Its number. Those of portable pictures have the numbers 1 to 13.
    pub fn number(self) -> u8
        ensures { result ≡ number_of self }
    {
        match self {
            AskedRule::RasterLate => 14,
            AskedRule::Dropped => 15,
            AskedRule::Stale => 16,
            AskedRule::Large => 17,
            AskedRule::Rows => 18,
            AskedRule::Past => 19,
            AskedRule::Hue => 20,
            AskedRule::Far => 21,
            AskedRule::Introducer => 22,
            AskedRule::Bare => 23,
            AskedRule::SpaceAfter => 24,
        }
    }

    /// Its name.
    pub fn name(self) -> &'static str
        ensures text { result.now ≡ name_of self }
        ensures short { length result.now ≤ 10 }
    {
        match self {
            AskedRule::RasterLate => "RasterLate",
            AskedRule::Dropped => "Dropped",
            AskedRule::Stale => "Stale",
            AskedRule::Large => "Large",
            AskedRule::Rows => "Rows",
            AskedRule::Past => "Past",
            AskedRule::Hue => "Hue",
            AskedRule::Far => "Far",
            AskedRule::Introducer => "Introducer",
            AskedRule::Bare => "Bare",
            AskedRule::SpaceAfter => "SpaceAfter",
        }
    }
}
