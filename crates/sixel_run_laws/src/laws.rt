//! Laws about the definitions. Each function's contract is the law.

ghost use Rattle.std.specs.Prelude.{◌≡◌, ℕ, List, Result};
ghost use Rattle.sixel_model.specs.Profiles.{count_of};
ghost use Rattle.sixel_model.specs.declared.profile.Profile.{Profile};
ghost use Rattle.sixel_report.specs.declared.fault.RunFault.{RunFault};
ghost use Rattle.sixel_report.specs.declared.task.Status.{Status};
ghost use Rattle.sixel_report.specs.declared.task.Task.{Task};
ghost use Rattle.sixel_run_laws.specs.Laws.{BoxIsShown, EncodedAnswers, EncodedChecks, EncodedIsPortable, FaultIsShown};
ghost use Rattle.sixel_run_laws.specs.Laws.{NoBoxIsShown, RunsGiveOnePicture, RunsWriteWhatTheyGive, ScanIsCheck};
ghost use Rattle.sixel_scan.specs.Laws.{DocumentIsOneString};
ghost use Rattle.sixel_run.specs.Outputs.{Gives};
ghost use Rattle.sixel_report.specs.Texts.{Text};

/// A task gives some text and answer for any bytes, a picture as a PPM.
pub fn tasks_give_an_output()
    ensures { (task : Task) (bytes : List ℕ) →
        (text : Text) × (answer : Result Status RunFault) × Gives task bytes text answer }
{}

/// A task gives one text and answer for the same bytes, a picture as a PPM.
pub fn tasks_give_one_output()
    ensures { (task : Task) (bytes : List ℕ) (first second : Text) (a b : Result Status RunFault) →
        Gives task bytes first a → Gives task bytes second b → (first ≡ second) × (a ≡ b) }
{}

/// Runs of a task over the same bytes answer the same and, without `--png`, write the same text. With `--png` they write
/// the same, or two PNGs of one picture. A run with a status wrote what a run gives.
pub fn runs_give_one_picture()
    ensures one { RunsGiveOnePicture }
    ensures written { RunsWriteWhatTheyGive }
{}

/// The text that `encode` writes for a picture is a document. Its verdict, in the picture's profile, is that picture
/// with its palette, and each terminal of the class with room shows it. A check of it can only answer that this picture
/// is portable, or `OutOfMemory`, or `Read`; and it writes the line of a portable picture.
pub fn encoded_pictures_are_portable()
    ensures portable { (profile : Profile) → EncodedIsPortable (count_of profile) }
    ensures answered { (profile : Profile) → EncodedAnswers (count_of profile) }
    ensures checked { (profile : Profile) → EncodedChecks (count_of profile) }
{}

/// `show --box` gives what `show` gives on a screen with the sides of the declared box, if a screen can have them. For
/// any other document it gives `NoBox` and no text; for bytes that are no document, their fault, as `show` does.
pub fn a_box_is_shown_as_its_screen()
    ensures shown { BoxIsShown }
    ensures refused { NoBoxIsShown }
    ensures faulty { FaultIsShown }
{}

/// A document that begins with ESC P, and has no filler after its end, is the only string of its bytes, whether 8-bit
/// controls count or not. So a scan of it answers as a check does.
pub fn scan_of_one()
    ensures { DocumentIsOneString }
{}

/// Of a document that begins with ESC P, and has no filler after its end, `scan` writes what `check` writes, after the
/// offset 0 and a space, whether 8-bit controls count or not. It is done exactly if the picture is portable.
pub fn a_scan_of_one_string_is_its_check()
    ensures { ScanIsCheck }
{}
