//! Laws about the definitions, for pictures of each profile. Each function's contract is the law.

ghost use Rattle.sixel_model.specs.Profiles.{count_of};
ghost use Rattle.sixel_model.specs.declared.profile.Profile.{Profile};
ghost use Rattle.sixel_survey.specs.Laws.{EmptyIfNone, FirstIsVerdict, OneSurvey, SomeFirst, SomeSurvey};

/// The survey of a document is empty exactly if no rule is broken. If it isn't empty, the entry with the least offset,
/// and of these the least number, has the rule, the offset and the pixel of the verdict.
pub fn survey_and_check()
    ensures empty { (profile : Profile) → EmptyIfNone (count_of profile) }
    ensures some { (profile : Profile) → SomeFirst (count_of profile) }
    ensures first { (profile : Profile) → FirstIsVerdict (count_of profile) }
{}

/// A list of events has exactly one survey.
pub fn lists_have_one_survey()
    ensures some { (profile : Profile) → SomeSurvey (count_of profile) }
    ensures once { (profile : Profile) → OneSurvey (count_of profile) }
{}
