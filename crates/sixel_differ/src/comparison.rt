//! How the screens of the named terminals compare.

ghost use Rattle.std.specs.Prelude.{◌≡◌, ◌↔◌, IsTrue};
ghost use Rattle.sixel_differ.specs.Comparisons.{one_group, standing_in};

use sixel_named_terminals::Named;

/// How a terminal's screen stands to those of the terminals before it. Their order is xterm, mlterm, foot, konsole; and
/// the terminals with equal screens are a group.
#[derive(Clone, Copy, Debug, PartialEq, Eq)]
pub enum Standing {
    /// It is the first of all screens, and leads the first group.
    First,
    /// It leads another group. This is the first pixel, row by row, that differs from the first group's screen.
    Differs { x: u32, y: u32 },
    /// It is in the group that this terminal leads.
    Like(Named),
    /// There is none: the terminal's model ends at the event with this offset.
    Unmodelled(u64),
}

/// How the screens of the named terminals compare.
#[derive(Clone, Copy, Debug, PartialEq, Eq)]
pub struct Comparison {
    pub xterm: Standing,
    pub mlterm: Standing,
    pub foot: Standing,
    pub konsole: Standing,
}

impl Comparison {
    /// How the screen of this terminal stands.
    pub fn standing(&self, named: Named) -> Standing
        ensures { result ≡ standing_in self.now named }
    {
        match named {
            Named::XTerm => self.xterm,
            Named::MlTerm => self.mlterm,
            Named::Foot => self.foot,
            Named::Konsole => self.konsole,
        }
    }

    /// Whether all four models say what is shown, and the four screens are equal.
    pub fn is_same(&self) -> bool
        ensures { IsTrue result ↔ (self.now ≡ one_group) }
    {
        let as_xterm = Standing::Like(Named::XTerm);
        *self
            == Comparison {
                xterm: Standing::First,
                mlterm: as_xterm,
                foot: as_xterm,
                konsole: as_xterm,
            }
    }
}
