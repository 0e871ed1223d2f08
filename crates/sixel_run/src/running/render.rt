//! Writes a portable sixel picture as a PPM or a PNG.

ghost use Rattle.std.specs.Prelude.{◌≡◌, Err, IfSome};
ghost use Rattle.sixel_grammar.specs.Reading.{NoFaultBefore};
ghost use Rattle.sixel_model.specs.Profiles.{count_of};
ghost use Rattle.sixel_ppm.specs.Ppm.{colours_of};
ghost use Rattle.sixel_judge.specs.Growth.{MayGrowIn};
ghost use Rattle.sixel_report.specs.declared.fault.RunFault.TheVariants.{Read};
ghost use Rattle.sixel_report.specs.Outputs.{CountsWrites, WritesFile, WrotePicture, failures_by};
ghost use Rattle.sixel_run.specs.Outputs.{RenderGives};

use sixel_check::{Verdict, check_with};
use sixel_io::{PIECE, Sink, Source};
use sixel_model::{Picture, Profile};
use sixel_png::write_png;
use sixel_ppm::write_ppm;
use sixel_report::{PictureFormat, RunFault, Status};
use std::alloc::Global;

/// Reads the whole input, and writes the picture in this format if it is portable; if not, it writes nothing. It doesn't
/// flush.
pub fn render<S: Source, K: Sink>(
    alloc: Global,
    profile: Profile,
    format: PictureFormat,
    input: &mut S,
    piece: &mut [u8; PIECE],
    output: &mut K,
) -> Result<Status, RunFault>
    ensures wrote { IfSome (S.state input.old).remaining (λ bytes.
        WrotePicture format (RenderGives (count_of profile) bytes) result
        (K.state output.old).taken (K.state output.new).taken) }
    ensures memory { result ≡ Err RunFault.OutOfMemory →
        IfSome (S.state input.old).remaining (MayGrowIn (count_of profile)) }
    ensures reads { (S.state input.new).failures ≡ failures_by Read result (S.state input.old).failures }
    ensures unread { result ≡ Err Read →
        IfSome (S.state input.old).remaining (NoFaultBefore (S.state input.new).remaining) }
    ensures writes { CountsWrites result (K.state output.old).failures (K.state output.new).failures }
{
    match check_with(alloc, profile, input, piece)? {
        Verdict::Portable(picture) => {
            write_picture(format, &picture, output)?;
            Ok(Status::Done)
        }
        Verdict::Broken(finding) => Ok(Status::Broken(finding)),
    }
}

/// Writes a picture in a format.
fn write_picture<K: Sink>(
    format: PictureFormat,
    picture: &Picture,
    output: &mut K,
) -> Result<(), RunFault>
    ensures { WritesFile format result (K.state output.old) (K.state output.new) picture.now.width picture.now.height
        (colours_of picture.now) }
{
    match format {
        PictureFormat::Ppm => write_ppm(picture, output)?,
        PictureFormat::Png => write_png(picture, output)?,
    }
    Ok(())
}
