//! Laws about the definitions. Each function's contract is the law.

ghost use Rattle.sixel_ppm_laws.specs.Laws.{PictureFilesAreRead, PixelsHaveColours};
ghost use Rattle.sixel_model.specs.Profiles.{count_of};
ghost use Rattle.sixel_model.specs.declared.profile.Profile.{Profile};

/// Each pixel of a picture has a colour, so its PPM has samples for every pixel.
pub fn pixels_have_colours()
    ensures { (profile : Profile) → PixelsHaveColours (count_of profile) }
{}

/// Reading a PPM agrees with the grammar of picture files: each file of a picture is read as that picture, and bytes
/// that are read as a picture are a file of it.
pub fn picture_files_are_read()
    ensures { (profile : Profile) → PictureFilesAreRead (count_of profile) }
{}
