//! The rules of portable pictures and those that named terminals ask for, in one list.

ghost use Rattle.std.specs.Prelude.{◌≡◌};
ghost use Rattle.sixel_emulator_check.specs.Rules.{number_of_named};

use sixel_emulator_rules::AskedRule;
use sixel_model::Rule;

/// A rule of portable pictures, or one that a named terminal asks for.
#[derive(Clone, Copy, Debug, PartialEq, Eq)]
pub enum NamedRule {
    Portable(Rule),
    Asked(AskedRule),
}

/// How many there are.
pub const NAMED_RULE_COUNT: usize = 24;

/// The rules, in order of number.
pub const ALL_NAMED_RULES: [NamedRule; NAMED_RULE_COUNT] = [
    NamedRule::Portable(Rule::RasterFirst),
    NamedRule::Portable(Rule::RasterTwice),
    NamedRule::Portable(Rule::Ratio),
    NamedRule::Portable(Rule::BoxSize),
    NamedRule::Portable(Rule::Register),
    NamedRule::Portable(Rule::ColourValue),
    NamedRule::Portable(Rule::RepeatZero),
    NamedRule::Portable(Rule::Unselected),
    NamedRule::Portable(Rule::Undefined),
    NamedRule::Portable(Rule::Redefined),
    NamedRule::Portable(Rule::Outside),
    NamedRule::Portable(Rule::Uncovered),
    NamedRule::Portable(Rule::EightBit),
    NamedRule::Asked(AskedRule::RasterLate),
    NamedRule::Asked(AskedRule::Dropped),
    NamedRule::Asked(AskedRule::Stale),
    NamedRule::Asked(AskedRule::Large),
    NamedRule::Asked(AskedRule::Rows),
    NamedRule::Asked(AskedRule::Past),
    NamedRule::Asked(AskedRule::Hue),
    NamedRule::Asked(AskedRule::Far),
    NamedRule::Asked(AskedRule::Introducer),
    NamedRule::Asked(AskedRule::Bare),
    NamedRule::Asked(AskedRule::SpaceAfter),
];

impl NamedRule {
    /// Its number, from 1 to 24.
    pub fn number(self) -> u8
        ensures { result ≡ number_of_named self }
    {
        match self {
            NamedRule::Portable(rule) => rule as u8,
            NamedRule::Asked(rule) => rule.number(),
        }
    }
}

impl From<Rule> for NamedRule {
    ghost use Rattle.std.specs.Prelude.{◌≡◌};
    ghost use Rattle.sixel_emulator_check.specs.declared.rule.NamedRule.TheVariants.{Portable};

    ghost from_gives = { λ rule result. result ≡ Portable rule };

    fn from(rule: Rule) -> NamedRule {
        NamedRule::Portable(rule)
    }
}

impl From<AskedRule> for NamedRule {
    ghost use Rattle.std.specs.Prelude.{◌≡◌};
    ghost use Rattle.sixel_emulator_check.specs.declared.rule.NamedRule.TheVariants.{Asked};

    ghost from_gives = { λ rule result. result ≡ Asked rule };

    fn from(rule: AskedRule) -> NamedRule {
        NamedRule::Asked(rule)
    }
}
