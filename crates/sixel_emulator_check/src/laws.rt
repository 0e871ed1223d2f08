//! Laws about checks and surveys for named terminals. Each function's contract is the law.

ghost use Rattle.std.specs.Prelude.{◌≡◌};
ghost use Rattle.sixel_model.specs.Profiles.{count_of};
ghost use Rattle.sixel_model.specs.declared.profile.Profile.{Profile};
ghost use Rattle.sixel_emulator_check.specs.Laws.{EmptyIfNoneOn, FirstIsVerdictOn, SameAsCheck};
ghost use Rattle.sixel_emulator_check.specs.Rules.{all_named_rules};

use crate::rule::ALL_NAMED_RULES;

/// A survey for named terminals is empty exactly if no rule is broken; else its first entry is the verdict of a check.
pub fn named_survey_and_check_agree()
    ensures empty { (profile : Profile) → EmptyIfNoneOn (count_of profile) }
    ensures first { (profile : Profile) → FirstIsVerdictOn (count_of profile) }
{}

/// A check for no terminal answers what a check answers.
pub fn a_check_for_none_is_a_check()
    ensures { (profile : Profile) → SameAsCheck (count_of profile) }
{}

/// `ALL_NAMED_RULES` has each rule, in order of number.
pub fn all_named_rules_are_listed()
    ensures { ALL_NAMED_RULES ≡ all_named_rules }
{}
