//! A set of named terminals, and which of their rules don't count.

ghost use Rattle.std.specs.Prelude.{◌≡◌, true, false};
ghost use Rattle.sixel_emulator_rules.specs.Asked.{is_asked, no_rules, one_asks};
ghost use Rattle.sixel_emulator_rules.specs.Counts.{asks_where};

use crate::asked_rules::AskedRules;
use crate::rule::AskedRule;

/// A set of the named terminals, whose rules count but for those that are ignored.
#[derive(Clone, Copy, Debug, PartialEq, Eq)]
pub struct Terminals {
    pub xterm: bool,
    pub mlterm: bool,
    pub foot: bool,
    pub konsole: bool,
    /// The rules that don't count, whoever asks for them.
    pub ignored: AskedRules,
}

impl Terminals {
    /// None of them.
    pub const fn none() -> Terminals
        ensures { result ≡ record {
          xterm = false;
          mlterm = false;
          foot = false;
          konsole = false;
          ignored = no_rules;
        } }
    {
        Terminals {
            xterm: false,
            mlterm: false,
            foot: false,
            konsole: false,
            ignored: AskedRules::none(),
        }
    }

    /// All of them, with each of their rules.
    pub const fn all() -> Terminals
        ensures { result ≡ record {
          xterm = true;
          mlterm = true;
          foot = true;
          konsole = true;
          ignored = no_rules;
        } }
    {
        Terminals {
            xterm: true,
            mlterm: true,
            foot: true,
            konsole: true,
            ignored: AskedRules::none(),
        }
    }

    /// Whether a rule counts that hangs on where a data command stands.
    #[inline(always)]
    pub(crate) fn asks_where(self) -> bool
        ensures { result ≡ asks_where self }
    {
        self.asks_for(AskedRule::Past) || self.asks_for(AskedRule::Far)
    }

    /// Whether one of the set asks for the rule, and it isn't ignored.
    #[inline(always)]
    pub fn asks_for(self, rule: AskedRule) -> bool
        ensures { result ≡ is_asked self rule }
    {
        self.has_asker(rule) && !self.ignored.has(rule)
    }

    /// Whether one of the set asks for the rule, ignored or not.
    #[inline(always)]
    fn has_asker(self, rule: AskedRule) -> bool
        ensures { result ≡ one_asks self rule }
    {
        match rule {
            AskedRule::Large | AskedRule::Hue | AskedRule::SpaceAfter => self.xterm,
            AskedRule::Far => self.mlterm,
            AskedRule::Introducer | AskedRule::Bare => self.xterm || self.mlterm,
            AskedRule::Stale => self.foot,
            AskedRule::RasterLate | AskedRule::Dropped => self.konsole,
            AskedRule::Rows | AskedRule::Past => self.konsole,
        }
    }
}
