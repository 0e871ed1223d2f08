//! What the program prints is true. Each function's contract is the law.
//!
//! The laws are about what a task gives for the bytes of its input (`Gives`): that is what `run` of `sixel_run` writes
//! and answers if no allocation and no device fails. No code and no other law needs them.

ghost use Rattle.sixel_model.specs.Profiles.{count_of};
ghost use Rattle.sixel_model.specs.declared.profile.Profile.{Profile};
ghost use Rattle.sixel_promise_laws.specs.Broken.{AskedLineIsTrue, BrokenLineIsTrue, UnbrokenIsDone};
ghost use Rattle.sixel_promise_laws.specs.Portable.{PortableLineIsTrue};
ghost use Rattle.sixel_promise_laws.specs.Twice.{CheckGivesTheVerdict, DifferSaysSame, PngIsThePicture, SameInCheck};
ghost use Rattle.sixel_promise_laws.specs.Twice.{ShowBoxGivesWhatRenderGives, ShowGivesWhatRenderGives};

/// If a check for some terminals, or for none, is done, it printed `portable` and the size of a picture, the one that
/// the document leaves. `render` of the same bytes writes this picture, or refuses a colour that isn't RGB. Every
/// terminal of the class with room shows it in the box, and paints nothing outside it. So does each of the terminals of
/// the check of which no rule is ignored, on each screen of one colour, from each origin with room.
pub fn a_portable_line_is_true()
    ensures { PortableLineIsTrue }
{}

/// If a check for some terminals, or for none, finds a broken rule, it printed this rule and its offset. The rule is
/// broken there. No rule that counts is broken at a smaller offset, and none of a smaller number at this one. At an
/// `Uncovered`, an `Outside`, and an `EightBit` at the terminator, two terminals of the class show different colours.
pub fn a_broken_line_is_true()
    ensures broken { BrokenLineIsTrue }
    ensures asked { AskedLineIsTrue }
{}

/// If no rule that counts is broken in a document, a check of it is done.
pub fn an_unbroken_document_is_portable()
    ensures { UnbrokenIsDone }
{}

/// If a check for some terminals is done, `show --on NAME --box` writes for each of them of which no rule is ignored what
/// `render` writes, on each background, in the same format. So does `show --box` without `--on`, after any check that is
/// done, with each of its options.
pub fn show_gives_what_render_gives()
    ensures named { ShowGivesWhatRenderGives }
    ensures class { ShowBoxGivesWhatRenderGives }
{}

/// If a check is done, `render --png` writes a PNG of the picture whose PPM `render` writes, or both refuse a colour that
/// isn't RGB. It has the picture's width and height, and of each percentage of a pixel the nearest of 0 to 255.
pub fn a_png_is_the_picture()
    ensures { PngIsThePicture }
{}

/// If a check for all four terminals is done, `differ` writes `same` and the size that the check printed, on each
/// background.
pub fn differ_says_that_all_are_the_same()
    ensures { DifferSaysSame }
{}

/// A check for no terminal gives the line and the status of a verdict if and only if `check` of `sixel_check` may
/// answer this verdict, a portable picture or a broken rule.
pub fn a_check_for_none_gives_the_verdict()
    ensures given { CheckGivesTheVerdict }
    ensures answered { (profile : Profile) → SameInCheck (count_of profile) }
{}
