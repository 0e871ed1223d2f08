//! Laws about the definitions. Each function's contract is the law.

ghost use Rattle.std.specs.Prelude.{◌≤◌, ℕ};
ghost use Rattle.sixel_model.specs.Profiles.{count_of};
ghost use Rattle.sixel_model.specs.declared.profile.Profile.{Profile};
ghost use Rattle.sixel_emulator_check_laws.specs.Laws.{PortableOnAllIsTheSame};
ghost use Rattle.sixel_emulator_check_laws.specs.Shown.{OutcomesAreShown, VerdictsAreShown};
ghost use Rattle.sixel_emulator_check_laws.specs.Trailer.{SpacesAreBehindTheTerminator};

/// If a document breaks no rule, and none of those that one of the four terminals asks for, the four show the same.
pub fn portable_on_all_is_the_same()
    ensures { (registers : ℕ) → registers ≤ 256 → PortableOnAllIsTheSame registers }
{}

/// The picture of a verdict for named terminals is shown by each of them of which no rule is ignored, on each screen of
/// one colour with room. Where `sixel_emulator_check::outcome_on` answers a size, the events of the document leave a
/// picture with these sides, which is portable, and which each of these terminals shows.
pub fn portable_is_shown_on_each()
    ensures verdicts { (profile : Profile) → VerdictsAreShown (count_of profile) }
    ensures outcomes { (profile : Profile) → OutcomesAreShown (count_of profile) }
{}

/// In a document, the spaces with nothing but filler behind them, of which `SpaceAfter` tells, are all those behind its
/// terminator.
pub fn spaces_are_behind_the_terminator()
    ensures { SpacesAreBehindTheTerminator }
{}
