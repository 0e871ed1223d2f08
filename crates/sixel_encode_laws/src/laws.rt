//! Laws about the definitions. Each function's contract is the law.

ghost use Rattle.sixel_grammar.specs.Document.{most_bytes};
ghost use Rattle.sixel_model.specs.Profiles.{count_of};
ghost use Rattle.sixel_model.specs.declared.profile.Profile.{Profile};
ghost use Rattle.sixel_model.specs.declared.profile.Profile.TheVariants.{Registers16, Registers256};
ghost use Rattle.sixel_encode_laws.specs.Laws.{EventsCanBeWritten, ListsAreWhole, ListsBreakNoRule};
ghost use Rattle.sixel_encode_laws.specs.Laws.{ListsLeaveTheirPicture};
ghost use Rattle.sixel_encode_laws.specs.Laws.{RunsAreLongest, RunsGiveTheirRow, TextsAreDocuments, TextsAreShort};
ghost use Rattle.sixel_encode_laws.specs.Laws.{TextsHaveAtMost};

/// The runs of a row, joined, are the row, and each run is as long as it can be.
pub fn runs_are_longest()
    ensures joined { RunsGiveTheirRow }
    ensures longest { RunsAreLongest }
{}

/// Bounds on the length of a picture's text: by size and palette, and for any picture. No text is over the limit of a
/// document.
pub fn texts_are_short()
    ensures bound { (profile : Profile) → TextsAreShort (count_of profile) }
    ensures most { TextsHaveAtMost 11234326 (count_of Registers16) }
    ensures most_wide { TextsHaveAtMost 179748886 (count_of Registers256) }
    ensures within_limit { (profile : Profile) → TextsHaveAtMost most_bytes (count_of profile) }
{}

/// The canonical list of a picture is a start, commands and a finish. Each of them can be written, and the text of the
/// picture is a document of exactly this list.
pub fn canonical_lists_can_be_written()
    ensures whole { ListsAreWhole }
    ensures each { (profile : Profile) → EventsCanBeWritten (count_of profile) }
    ensures documents { (profile : Profile) → TextsAreDocuments (count_of profile) }
{}

/// The canonical list of a picture breaks no rule, and the picture that it leaves is the same, with its palette.
pub fn canonical_lists_lead_back()
    ensures unbroken { (profile : Profile) → ListsBreakNoRule (count_of profile) }
    ensures left { (profile : Profile) → ListsLeaveTheirPicture (count_of profile) }
{}
