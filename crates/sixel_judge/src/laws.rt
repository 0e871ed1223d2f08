//! Laws about the definitions, for pictures of each profile. Each function's contract is the law.

ghost use Rattle.sixel_judge.specs.Laws.{AllCovered, ClippingChangesNothing, FilledFirst, GrowthStays, LeftIsPortable};
ghost use Rattle.sixel_judge.specs.Laws.{NonePaintedOutside, OneVerdict, PaintedColourIsLeft};
ghost use Rattle.sixel_judge.specs.Laws.{SomeVerdict, VerdictIsLeft};
ghost use Rattle.sixel_model.specs.Profiles.{count_of};
ghost use Rattle.sixel_model.specs.declared.profile.Profile.{Profile};

/// If no rule but `EightBit` is broken, a register that a command paints in has the colour that it has in the final
/// palette, both at that command and at the end, on every terminal with at least as many registers as the profile.
pub fn painted_colour_is_left()
    ensures { (profile : Profile) → PaintedColourIsLeft (count_of profile) }
{}

/// If no rule but `EightBit` is broken in a whole list: no raster attributes follow a data command, each pixel of the
/// box is covered by some event, no event paints a pixel outside it on any terminal, and clipping changes nothing.
pub fn box_is_covered()
    ensures filled_first { (profile : Profile) → FilledFirst (count_of profile) }
    ensures all_covered { (profile : Profile) → AllCovered (count_of profile) }
    ensures none_outside { (profile : Profile) → NonePaintedOutside (count_of profile) }
    ensures none_clipped { (profile : Profile) → ClippingChangesNothing (count_of profile) }
{}

/// If no rule is broken in a whole list, each terminal of the class with room shows the picture that the events leave,
/// and paints no pixel outside it.
pub fn left_is_portable()
    ensures { (profile : Profile) → LeftIsPortable (count_of profile) }
{}

/// If no rule is broken, the verdict is the picture that the events leave, and no other.
pub fn verdict_is_left()
    ensures { (profile : Profile) → VerdictIsLeft (count_of profile) }
{}

/// A list of events has exactly one verdict.
pub fn lists_have_one_verdict()
    ensures some { (profile : Profile) → SomeVerdict (count_of profile) }
    ensures once { (profile : Profile) → OneVerdict (count_of profile) }
{}

/// If a checker may allocate at an event that is complete in a prefix of the bytes, then also at one that is complete
/// in any longer viable prefix.
pub fn growth_stays()
    ensures { (profile : Profile) → GrowthStays (count_of profile) }
{}
