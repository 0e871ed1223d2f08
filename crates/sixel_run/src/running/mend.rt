//! Makes a portable sixel picture of a sixel string.

ghost use Rattle.std.specs.Prelude.{◌≡◌, ◌≢◌, Err, IfErr, IfOk, IfSome};
ghost use Rattle.sixel_grammar.specs.declared.fault.InputFault.TheVariants.{Read as ReadFault};
ghost use Rattle.sixel_grammar.specs.Reading.{Explains, NoFaultBefore, failures_after};
ghost use Rattle.sixel_io.specs.Devices.{ReadsToEnd};
ghost use Rattle.sixel_mend.specs.Measuring.{HasMeasured};
ghost use Rattle.sixel_model.specs.Profiles.{count_of};
ghost use Rattle.sixel_report.specs.declared.fault.RunFault.TheVariants.{Read};
ghost use Rattle.sixel_report.specs.Outputs.{CountsWrites, WroteBy, WroteNothing, failures_by};
ghost use Rattle.sixel_sheet.specs.Outputs.{HasPictureSize};
ghost use Rattle.sixel_run.specs.Outputs.{MendGives, mended_status};

use sixel_fit::{Fitting, fit};
use sixel_io::{PIECE, Sink, Source};
use sixel_mend::{Mended, Mending, mend_measured, size_of};
use sixel_model::Profile;
use sixel_report::{Note, RunFault, Status};
use sixel_sheet::read_document;
use std::alloc::Global;

/// Reads the whole input, and writes the canonical sixel text of its mended picture, or of the one that the terminals
/// show in its place. It doesn't flush.
///
/// The size of the picture is known at the end only, so the bytes are kept, and measured while they come. Nothing is
/// allocated for the picture of a string whose size no picture may have. Without memory to keep the bytes they are still
/// measured, so that such a string, or one that is no document, gets its own fault.
pub fn mend<S: Source, K: Sink>(
    alloc: Global,
    profile: Profile,
    mending: &Mending,
    fitting: Fitting,
    input: &mut S,
    piece: &mut [u8; PIECE],
    output: &mut K,
) -> Result<Status, RunFault>
    ensures wrote { IfSome (S.state input.old).remaining (λ bytes.
        WroteBy (MendGives (count_of profile) mending.now fitting bytes) WroteNothing result
        (K.state output.old).taken (K.state output.new).taken) }
    ensures memory { result ≡ Err RunFault.OutOfMemory →
        IfSome (S.state input.old).remaining (HasPictureSize mending.now) }
    ensures reads { (S.state input.new).failures ≡ failures_by Read result (S.state input.old).failures }
    ensures unread { result ≡ Err Read →
        IfSome (S.state input.old).remaining (NoFaultBefore (S.state input.new).remaining) }
    ensures writes { CountsWrites result (K.state output.old).failures (K.state output.new).failures }
{
    let (kept, extent) = read_document(alloc, input, piece)?;
    let Some(bytes) = kept else {
        size_of(&extent)?;
        return Err(RunFault::OutOfMemory);
    };
    let mended = mend_measured(alloc, profile, mending, &extent, &bytes)?;
    let Mended { picture, hidden } = mended;
    let fitted = fit(alloc, fitting, picture)?;
    match sixel_encode::encode(&fitted, output) {
        Ok(()) => Ok(status_of(hidden)),
        Err(_) => Err(RunFault::Write),
    }
}

/// The status of a mended picture that hides this many painted pixels: done, perhaps with a note.
fn status_of(hidden: u32) -> Status
    ensures { result ≡ mended_status hidden }
{
    if hidden == 0 {
        Status::Done
    } else {
        Status::Noted(Note::Hidden { pixels: hidden })
    }
}
