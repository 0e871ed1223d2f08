//! Laws about findings and pictures of each profile. Each function's contract is the law.

ghost use Rattle.sixel_check_laws.specs.Differences.{CoordinatesAreExact, EightBitDiffers, OutsideDiffers};
ghost use Rattle.sixel_check_laws.specs.Differences.{SomeEightBitDiffer, SomeOutsideDiffer, SomeUncoveredDiffer};
ghost use Rattle.sixel_check_laws.specs.Differences.{UncoveredDiffers};
ghost use Rattle.sixel_check_laws.specs.Examples.{OnePixelBreaksNone, SomeTerminalHasRoom};
ghost use Rattle.sixel_model.specs.Profiles.{count_of};
ghost use Rattle.sixel_model.specs.declared.profile.Profile.{Profile};

/// For three rules, two given terminals of the class show different colours. `Uncovered`, at the finding's pixel: they
/// have room, keep their ground, and had different colours there before. `Outside`, at the finding's pixel, if its
/// coordinates are below `u64::MAX`: they keep their ground, have 8-bit controls and differ only in clipping; the
/// colour there before wasn't the one that the unclipped terminal shows. `EightBit` at the terminator, at a pixel of
/// the box: they have room and differ only in 8-bit controls; the colour there before wasn't that of the picture left.
pub fn findings_are_differences()
    ensures uncovered { (profile : Profile) → UncoveredDiffers (count_of profile) }
    ensures outside { (profile : Profile) → OutsideDiffers (count_of profile) }
    ensures eight_bit { (profile : Profile) → EightBitDiffers (count_of profile) }
{}

/// Such terminals exist for each such finding: `Differences` writes out their choices, their registers and their
/// screens.
pub fn some_terminals_differ()
    ensures uncovered { (profile : Profile) → SomeUncoveredDiffer profile }
    ensures outside { (profile : Profile) → SomeOutsideDiffer profile }
    ensures eight_bit { (profile : Profile) → SomeEightBitDiffer profile }
{}

/// In a document, a finding of `Outside` has coordinates below `u64::MAX`: none is capped.
pub fn coordinates_are_exact()
    ensures { (profile : Profile) → CoordinatesAreExact (count_of profile) }
{}

/// Some whole list breaks no rule: a box of one pixel, painted in a register that is defined and selected.
pub fn one_pixel_breaks_none()
    ensures { (profile : Profile) → OnePixelBreaksNone (count_of profile) }
{}

/// For any count of registers and any size of a picture, some terminal of the class has room.
pub fn some_terminal_has_room()
    ensures { SomeTerminalHasRoom }
{}
