//! Laws about the definitions. Each function's contract is the law.

ghost use Rattle.sixel_model.specs.Profiles.{count_of};
ghost use Rattle.sixel_model.specs.declared.profile.Profile.{Profile};
ghost use Rattle.sixel_fit_laws.specs.Laws.{FittedIsPicture, FittedIsPortable, NoneChangesNothing, NothingIsLost};
ghost use Rattle.sixel_fit_laws.specs.Laws.{UnfitHasNone};

/// A fitted picture is a picture. It has the given one at its top, and below it only rows of their colour. Each colour
/// of the palette stays in its register.
pub fn fitted_has_the_picture()
    ensures { (profile : Profile) → FittedIsPicture (count_of profile) }
{}

/// The canonical text of a fitted picture is a document, of which a check for the terminals says that it is portable,
/// with this picture, if no rule of theirs is ignored. Each of these terminals shows it, on each screen of one colour
/// with room.
pub fn fitted_is_portable_and_shown()
    ensures { (profile : Profile) → FittedIsPortable (count_of profile) }
{}

/// If a picture is refused, but for memory, there is none that could stand in its place: each picture with it at its
/// top, and rows of the colour below, breaks a rule that the terminals ask for, as `encode` writes it.
pub fn what_is_refused_has_none()
    ensures { (profile : Profile) → UnfitHasNone (count_of profile) }
{}

/// Each point that a data command of a string touches lies in its mended and fitted picture, and has the colour there
/// that the mending terminal shows at it.
pub fn nothing_of_a_string_is_lost()
    ensures { (profile : Profile) → NothingIsLost (count_of profile) }
{}

/// For no terminal the fitted picture is the same, and each picture has one.
pub fn without_terminals_nothing_changes()
    ensures { NoneChangesNothing }
{}
