//! What the named terminals show, compared.

ghost use Rattle.std.specs.Prelude.{◌≡◌, ◌+◌};
ghost use Rattle.sixel_differ.specs.Comparisons.{IsComparison, StandsAfter, StandsWith, rank};
ghost use Rattle.sixel_differ.specs.Views.{HasSides, HaveSides, view_in};

use crate::comparison::{Comparison, Standing};
use crate::pixels::first_unlike;
use sixel_named_terminals::Named;
use sixel_terminal::Screen;

/// What a named terminal shows.
#[derive(Debug, Drop)]
pub enum View {
    /// Its screen.
    Screen(Screen),
    /// Its model ends at the event with this offset.
    Unmodelled(u64),
}

/// What each of the named terminals shows, on screens of this width and height in pixels.
#[derive(Debug, Drop)]
pub struct Views {
    pub width: u32,
    pub height: u32,
    pub xterm: View,
    pub mlterm: View,
    pub foot: View,
    pub konsole: View,
}

impl Views {
    /// What this terminal shows.
    pub fn view(&self, named: Named) -> &View
        ensures { result.now ≡ view_in self.now named }
    {
        match named {
            Named::XTerm => &self.xterm,
            Named::MlTerm => &self.mlterm,
            Named::Foot => &self.foot,
            Named::Konsole => &self.konsole,
        }
    }

    /// How the screens compare.
    pub fn compare(&self) -> Comparison
        requires { HaveSides self.now }
        ensures { IsComparison self.now result }
    {
        Comparison {
            xterm: self.standing(Named::XTerm),
            mlterm: self.standing(Named::MlTerm),
            foot: self.standing(Named::Foot),
            konsole: self.standing(Named::Konsole),
        }
    }

    /// How the screen of this terminal stands.
    fn standing(&self, named: Named) -> Standing
        requires { HaveSides self.now }
        ensures { StandsWith self.now (rank named) (view_in self.now named) result }
    {
        match self.view(named) {
            View::Screen(screen) => self.standing_before(named, screen),
            View::Unmodelled(place) => Standing::Unmodelled(*place),
        }
    }

    /// How a screen stands to those of the terminals before this one.
    fn standing_before(&self, named: Named, screen: &Screen) -> Standing
        requires sides { HaveSides self.now }
        requires screen { HasSides screen.now self.now.width self.now.height }
        ensures { StandsAfter self.now (rank named) screen.now result }
    {
        match named {
            Named::XTerm => Standing::First,
            Named::MlTerm => self.with(Standing::First, Named::XTerm, screen),
            Named::Foot => self.with_mlterm(screen),
            Named::Konsole => self.with(self.with_mlterm(screen), Named::Foot, screen),
        }
    }

    /// How a screen stands to those of xterm and mlterm.
    fn with_mlterm(&self, screen: &Screen) -> Standing
        requires sides { HaveSides self.now }
        requires screen { HasSides screen.now self.now.width self.now.height }
        ensures { StandsAfter self.now 2 screen.now result }
    {
        let standing = self.with(Standing::First, Named::XTerm, screen);
        self.with(standing, Named::MlTerm, screen)
    }

    /// How a screen stands with one more terminal before it, which comes after those to which it stands as given.
    fn with(&self, standing: Standing, named: Named, screen: &Screen) -> Standing
        requires sides { HaveSides self.now }
        requires screen { HasSides screen.now self.now.width self.now.height }
        requires standing { StandsAfter self.now (rank named) screen.now standing }
        ensures { StandsAfter self.now (rank named + 1) screen.now result }
    {
        match (standing, self.view(named)) {
            (Standing::First, View::Screen(other)) => match first_unlike(other, screen) {
                Some((x, y)) => Standing::Differs { x, y },
                None => Standing::Like(named),
            },
            (Standing::Differs { x, y }, View::Screen(other)) => {
                match first_unlike(other, screen) {
                    Some(_) => Standing::Differs { x, y },
                    None => Standing::Like(named),
                }
            }
            (standing, _) => standing,
        }
    }
}
