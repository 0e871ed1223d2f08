//! Scans a stream, and writes a line for each of its strings as soon as the string has ended.

ghost use Rattle.std.specs.Prelude.{◌≡◌};
ghost use Rattle.sixel_io.specs.Devices.{change};
ghost use Rattle.sixel_report.specs.declared.task.Task.TheVariants.{Scan as Scanning};
ghost use Rattle.sixel_run.specs.LineTasks.{WritesItems};
ghost use Rattle.sixel_run.specs.Scanned.{answer_with, is_portable, status_where};

use sixel_io::{Sink, Source};
use sixel_model::Profile;
use sixel_report::{Item, Note, PutItem, RunFault, Status};
use sixel_scan::{Answer, Scan, Scanned};
use std::alloc::Global;

/// Reads the stream, and puts each string as soon as the string has ended: before the source is asked for
/// the bytes after it. It doesn't flush.
pub fn scan<P: PutItem, S: Source, K: Sink>(
    alloc: Global,
    profile: Profile,
    eight_bit: bool,
    put: &P,
    input: &mut S,
    output: &mut K,
) -> Result<Status, RunFault>
    ensures { WritesItems (Scanning profile eight_bit) (P.written put.now) result
        (change (S.state input.old) (S.state input.new)) (change (K.state output.old) (K.state output.new)) }
{
    let mut scan = Scan::new(alloc, profile, eight_bit);
    let mut answer: Result<Status, RunFault> = Err(RunFault::NoString);
    loop {
        let found = scan.next_string(input)?;
        match found {
            Some(scanned) => {
                match put.put_item(&Item::String(scanned), output) {
                    Ok(()) => answer = with_string(answer, &scanned),
                    Err(_) => return Err(RunFault::Write),
                }
            }
            None => return answer,
        }
    }
}

/// The answer on some strings and one more.
fn with_string(answer: Result<Status, RunFault>, scanned: &Scanned) -> Result<Status, RunFault>
    ensures { result ≡ answer_with answer scanned.now }
{
    match answer {
        Ok(Status::Unfit { wrapped }) => Ok(Status::Unfit {
            wrapped: wrapped || scanned.wrapped,
        }),
        Ok(Status::Noted(Note::Wrapped)) => Ok(status_where(is_portable(scanned), true)),
        _ => Ok(status_where(is_portable(scanned), scanned.wrapped)),
    }
}

/// The status of strings, where the one says whether each is portable, and the other whether one of them stands in the
/// pass-through of tmux or GNU Screen.
fn status_where(portable: bool, wrapped: bool) -> Status
    ensures { result ≡ status_where portable wrapped }
{
    match (portable, wrapped) {
        (true, false) => Status::Done,
        (true, true) => Status::Noted(Note::Wrapped),
        (false, _) => Status::Unfit { wrapped },
    }
}

fn is_portable(scanned: &Scanned) -> bool
    ensures { result ≡ is_portable scanned.now }
{
    match scanned.answer {
        Answer::Portable { .. } => true,
        Answer::Broken(_) | Answer::Refused(_) => false,
    }
}
