//! Which rules a survey has found broken.

ghost use Rattle.std.specs.Prelude.{◌≡◌, ◌≤◌, ◌-◌, List, []};
ghost use Rattle.sixel_emulator_check.specs.Rules.{number_of_named};
ghost use Rattle.sixel_report.specs.RuleSets.{has_rule, no_rules, rules_of, with_rule};
ghost use Rattle.sixel_survey.specs.declared.entry.Entry.{Entry as AnEntry};

use sixel_emulator_check::{NAMED_RULE_COUNT, NamedRule};
use sixel_emulator_rules::AskedEntry;
use sixel_survey::Entry;

/// Some of the rules of portable pictures and of those that named terminals ask for.
#[derive(Clone, Copy, Debug, PartialEq, Eq)]
pub struct RuleSet {
    /// Whether each of the rules is among them, in order of number.
    holds: [bool; NAMED_RULE_COUNT],
}

impl RuleSet {
    /// None of the rules.
    pub fn new() -> RuleSet
        ensures { result ≡ no_rules }
    {
        RuleSet {
            holds: [false; NAMED_RULE_COUNT],
        }
    }

    pub fn add(&mut self, rule: NamedRule)
        ensures { self.new ≡ with_rule self.old rule }
    {
        self.holds[place_of(rule)] = true;
    }

    pub fn has(&self, rule: NamedRule) -> bool
        ensures { result ≡ has_rule self.now rule }
    {
        self.holds[place_of(rule)]
    }
}

/// The place of the rule in the order of numbers, counted from 0.
fn place_of(rule: NamedRule) -> usize
    ensures place { result ≡ number_of_named rule - 1 }
    ensures short { result ≤ 23 }
{
    usize::from(rule.number()) - 1
}

/// The rules of these entries.
pub fn rules_of(entries: &[Entry], asked: &[AskedEntry]) -> RuleSet
    ensures { result ≡ rules_of entries.now asked.now }
{
    let mut rules = portable_rules(entries);
    add_asked(&mut rules, asked);
    rules
}

/// The rules of these entries, all of portable pictures.
fn portable_rules(entries: &[Entry]) -> RuleSet
    ensures { result ≡ rules_of entries.now [] }
{
    let mut rules = RuleSet::new();
    for entry in entries {
        rules.add(NamedRule::Portable(entry.rule));
    }
    rules
}

/// Adds the rules of these entries.
fn add_asked(rules: &mut RuleSet, asked: &[AskedEntry])
    ensures { (entries : List AnEntry) → rules.old ≡ rules_of entries [] → rules.new ≡ rules_of entries asked.now }
{
    for entry in asked {
        rules.add(NamedRule::Asked(entry.rule));
    }
}
