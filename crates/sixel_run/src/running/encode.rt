//! Writes a picture from a PPM as sixel text.

ghost use Rattle.std.specs.Prelude.{◌≡◌, Err, IfSome};
ghost use Rattle.sixel_ppm.specs.PpmReading.{HasWholeHeader, NoPpmFaultBefore, ppm_read};
ghost use Rattle.sixel_model.specs.Profiles.{count_of};
ghost use Rattle.sixel_report.specs.declared.fault.RunFault.TheVariants.{Read};
ghost use Rattle.sixel_report.specs.Outputs.{CountsWrites, WroteBy, WroteNothing, failures_by};
ghost use Rattle.sixel_run.specs.Outputs.{EncodeGives};

use sixel_fit::{Fitting, fit};
use sixel_io::{Sink, Source};
use sixel_model::Profile;
use sixel_ppm::read_ppm;
use sixel_report::{RunFault, Status};
use std::alloc::Global;

/// Reads a whole PPM, and writes the canonical sixel text of its picture, or of the one that the terminals show in its
/// place. It doesn't flush.
pub fn encode<S: Source, K: Sink>(
    alloc: Global,
    profile: Profile,
    fitting: Fitting,
    input: &mut S,
    output: &mut K,
) -> Result<Status, RunFault>
    ensures wrote { IfSome (S.state input.old).remaining (λ bytes.
        WroteBy (EncodeGives (count_of profile) fitting bytes) WroteNothing result
        (K.state output.old).taken (K.state output.new).taken) }
    ensures memory { result ≡ Err RunFault.OutOfMemory → IfSome (S.state input.old).remaining HasWholeHeader }
    ensures reads { (S.state input.new).failures ≡ failures_by Read result (S.state input.old).failures }
    ensures unread { result ≡ Err Read → IfSome (S.state input.old).remaining
        (NoPpmFaultBefore (ppm_read (count_of profile)) (S.state input.new).remaining) }
    ensures writes { CountsWrites result (K.state output.old).failures (K.state output.new).failures }
{
    let picture = read_ppm(alloc, profile, input)?;
    let fitted = fit(alloc, fitting, picture)?;
    match sixel_encode::encode(&fitted, output) {
        Ok(()) => Ok(Status::Done),
        Err(_) => Err(RunFault::Write),
    }
}
