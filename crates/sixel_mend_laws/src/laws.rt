//! Laws about the definitions. Each function's contract is the law.

ghost use Rattle.sixel_mend_laws.specs.Laws.{ColoursInOrder, MendedIsPortable, NothingIsLost, OneSize, PortableStays};
ghost use Rattle.sixel_mend_laws.specs.Laws.{SomeSize};
ghost use Rattle.sixel_model.specs.Profiles.{count_of};
ghost use Rattle.sixel_model.specs.declared.profile.Profile.{Profile};

/// A list of events has exactly one size.
pub fn lists_have_one_size()
    ensures some { SomeSize }
    ensures once { OneSize }
{}

/// The canonical text of a mended picture is a document. Its verdict, in the picture's profile, is that picture, and each
/// terminal of the class with room shows it.
pub fn mended_is_portable()
    ensures { (profile : Profile) → MendedIsPortable (count_of profile) }
{}

/// Each point that a data command touches lies in the mended picture. There it has the colour that the terminal shows,
/// on any screen that has the point, whatever the background.
pub fn nothing_is_lost()
    ensures { (profile : Profile) → NothingIsLost (count_of profile) }
{}

/// If no rule is broken in a whole list, mending gives a picture. It has the size of the picture that the events leave,
/// and each pixel has the same colour.
pub fn portable_stays()
    ensures { (profile : Profile) → PortableStays (count_of profile) }
{}

/// The palette of a mended picture has each colour of its pixels once, from register 0 on, in the order in which they
/// are first seen row by row, and no other colour.
pub fn colours_are_in_order()
    ensures { (profile : Profile) → ColoursInOrder (count_of profile) }
{}
