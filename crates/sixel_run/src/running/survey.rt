//! Surveys a sixel picture, and writes a line for each broken rule.

ghost use Rattle.sixel_io.specs.Devices.{change};
ghost use Rattle.sixel_report.specs.declared.task.Task.TheVariants.{Survey as Surveying};
ghost use Rattle.sixel_run.specs.LineTasks.{IsStatusOf, WritesItems};

use sixel_emulator_check::{NamedSurvey, survey_on};
use sixel_emulator_rules::Terminals;
use sixel_io::{PIECE, Sink, Source};
use sixel_model::Profile;
use sixel_report::{PutItem, RunFault, Status, first_of, rules_of, survey_items};
use std::alloc::Global;

/// Reads the whole input, and puts the items of its survey. It doesn't flush.
pub fn survey<P: PutItem, S: Source, K: Sink>(
    alloc: Global,
    profile: Profile,
    terminals: Terminals,
    put: &P,
    input: &mut S,
    piece: &mut [u8; PIECE],
    output: &mut K,
) -> Result<Status, RunFault>
    ensures { WritesItems (Surveying profile terminals) (P.written put.now) result
        (change (S.state input.old) (S.state input.new)) (change (K.state output.old) (K.state output.new)) }
{
    let survey = survey_on(alloc, profile, terminals, input, piece)?;
    let status = status_of(&survey);
    match put.put_items(survey_items(&survey).as_slice(), output) {
        Ok(()) => Ok(status),
        Err(_) => Err(RunFault::Write),
    }
}

/// The status after a survey.
fn status_of(survey: &NamedSurvey) -> Status
    ensures { IsStatusOf survey.now result }
{
    let Some(first) = first_of(survey) else {
        return Status::Done;
    };
    let rules = rules_of(survey.entries.as_slice(), survey.asked.as_slice());
    Status::Surveyed { first, rules }
}
