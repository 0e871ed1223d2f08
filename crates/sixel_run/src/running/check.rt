//! Checks a sixel picture, and writes the verdict.

ghost use Rattle.std.specs.Prelude.{◌≡◌};
ghost use Rattle.sixel_io.specs.Devices.{change};
ghost use Rattle.sixel_report.specs.declared.task.Task.TheVariants.{Check};
ghost use Rattle.sixel_run.specs.LineTasks.{WritesItems};
ghost use Rattle.sixel_run.specs.Outputs.{outcome_status};

use sixel_emulator_check::{NamedOutcome, outcome_on};
use sixel_emulator_rules::Terminals;
use sixel_io::{PIECE, Sink, Source};
use sixel_model::Profile;
use sixel_report::{PutItem, RunFault, Status, item_of};
use std::alloc::Global;

/// Reads the whole input, and puts the outcome. It doesn't flush.
pub fn check<P: PutItem, S: Source, K: Sink>(
    alloc: Global,
    profile: Profile,
    terminals: Terminals,
    put: &P,
    input: &mut S,
    piece: &mut [u8; PIECE],
    output: &mut K,
) -> Result<Status, RunFault>
    ensures { WritesItems (Check profile terminals) (P.written put.now) result
        (change (S.state input.old) (S.state input.new)) (change (K.state output.old) (K.state output.new)) }
{
    let outcome = outcome_on(alloc, profile, terminals, input, piece)?;
    match put.put_item(&item_of(&outcome), output) {
        Ok(()) => Ok(status_of(&outcome)),
        Err(_) => Err(RunFault::Write),
    }
}

/// The status of an outcome: `Done` for a portable picture, `Broken` or `Asked` for a finding.
fn status_of(outcome: &NamedOutcome) -> Status
    ensures { result ≡ outcome_status outcome.now }
{
    match outcome {
        NamedOutcome::Portable { .. } => Status::Done,
        NamedOutcome::Broken(finding) => Status::Broken(*finding),
        NamedOutcome::Asked(finding) => Status::Asked(*finding),
    }
}
