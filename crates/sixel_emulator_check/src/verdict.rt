//! The result of a check for named terminals.

ghost use Rattle.std.specs.Prelude.{◌≡◌};
ghost use Rattle.sixel_emulator_check.specs.Rules.{rule_of};

use crate::rule::NamedRule;
use sixel_emulator_rules::AskedFinding;
use sixel_judge::Finding;
use sixel_model::Picture;

/// The first broken rule, of those of portable pictures and of those that are asked for: that of the earliest event that
/// breaks any, and of these the one with the lowest number.
#[derive(Clone, Copy, Debug, PartialEq, Eq, Drop)]
pub enum NamedFinding {
    /// A rule of portable pictures.
    Portable(Finding),
    /// A rule that one of the terminals asks for.
    Asked(AskedFinding),
}

impl NamedFinding {
    /// Its rule.
    pub fn rule(&self) -> NamedRule
        ensures { result ≡ rule_of self.now }
    {
        match self {
            NamedFinding::Portable(finding) => NamedRule::Portable(finding.rule),
            NamedFinding::Asked(finding) => NamedRule::Asked(finding.rule),
        }
    }
}

/// The picture that a document leaves, or the first rule that it breaks. The definitions speak of it; what a check answers
/// is what is left without the picture.
#[derive(Debug, Drop)]
pub enum NamedVerdict {
    /// No rule is broken. Every terminal of the class with room for the picture shows it, and so do the named terminals.
    Portable(Picture),
    /// A rule of portable pictures is broken.
    Broken(Finding),
    /// A rule that one of the terminals asks for is broken.
    Asked(AskedFinding),
}

/// The same without the picture: its size in pixels.
#[derive(Clone, Copy, Debug, PartialEq, Eq, Drop)]
pub enum NamedOutcome {
    Portable { width: u32, height: u32 },
    Broken(Finding),
    Asked(AskedFinding),
}
