//! Runs a row, with its input cut in many ways.

ghost use Rattle.std.specs.Prelude.{◌≡◌, true};
ghost use Rattle.sixel_report.specs.Outputs.{HasSides};

use crate::devices::{CutSource, Cutting, KeepingSink};
use crate::format::{Row, RowFault};
use crate::words::task_of;
use sixel_report::{Line, RunFault, Status, Task, fault_line, finding_line};
use sixel_run::run;
use std::alloc::Global;

/// Inputs of at most this many bytes are run in pieces of each size, and cut in two at each offset.
pub const MOST_SHORT: usize = 128;

/// The sizes of the pieces for longer inputs, in bytes.
const SIZES: [usize; 8] = [1, 2, 5, 7, 16, 64, 1_000, 65_536];

/// How a run ended.
#[derive(Drop)]
pub struct Ended {
    pub status: u8,
    pub output: Vec<u8>,
    pub said: Line,
    /// How often the output was flushed; it must be once.
    pub flushes: u64,
}

/// A run that ended in another way than the row says.
#[derive(Drop)]
pub struct Wrong {
    pub cutting: Cutting,
    pub ended: Ended,
}

/// The first cutting in which the run is wrong, and how it ended.
pub fn wrong_of(alloc: Global, row: &Row<'_>) -> Result<Option<Wrong>, RowFault> {
    let task = task_of(row.words)?;
    if row.input.len() > MOST_SHORT {
        return Ok(in_some_pieces(alloc, &task, row));
    }
    match in_all_pieces(alloc, &task, row) {
        None => Ok(in_two(alloc, &task, row)),
        wrong => Ok(wrong),
    }
}

/// The first of a few piece sizes for which the run is wrong, and how it ended.
pub fn wrong_in_some_pieces(alloc: Global, row: &Row<'_>) -> Result<Option<Wrong>, RowFault> {
    let task = task_of(row.words)?;
    Ok(in_some_pieces(alloc, &task, row))
}

/// Input and output in pieces of this size.
fn even(piece: usize) -> Cutting {
    Cutting {
        first: piece,
        later: piece,
        taken: piece,
    }
}

fn in_some_pieces(alloc: Global, task: &Task, row: &Row<'_>) -> Option<Wrong>
    requires { HasSides task.now }
{
    for piece in SIZES {
        if let Some(wrong) = wrong_in(alloc, task, row, even(piece)) {
            return Some(wrong);
        }
    }
    None
}

/// In pieces of each size, from one byte to one more than the whole input.
fn in_all_pieces(alloc: Global, task: &Task, row: &Row<'_>) -> Option<Wrong>
    requires { HasSides task.now }
{
    for less in 0..=row.input.len() {
        if let Some(wrong) = wrong_in(alloc, task, row, even(less.saturating_add(1))) {
            return Some(wrong);
        }
    }
    None
}

/// Cut in two at each offset.
fn in_two(alloc: Global, task: &Task, row: &Row<'_>) -> Option<Wrong>
    requires { HasSides task.now }
{
    for first in 1..row.input.len() {
        let cutting = Cutting {
            first,
            ..even(usize::MAX)
        };
        if let Some(wrong) = wrong_in(alloc, task, row, cutting) {
            return Some(wrong);
        }
    }
    None
}

/// How a run in this cutting ended, if the row says otherwise.
fn wrong_in(alloc: Global, task: &Task, row: &Row<'_>, cutting: Cutting) -> Option<Wrong>
    requires { HasSides task.now }
{
    let ended = end_of(alloc, task, row.input.as_slice(), cutting);
    if is_right(&ended, row) {
        return None;
    }
    Some(Wrong { cutting, ended })
}

/// Whether a run ended as the row says, with one flush.
fn is_right(ended: &Ended, row: &Row<'_>) -> bool
    ensures status { result ≡ true → ended.now.status ≡ row.now.status }
    ensures output { result ≡ true → ended.now.output.items ≡ row.now.output.items }
    ensures said { result ≡ true → ended.now.said.items ≡ row.now.said.items }
    ensures flushed { result ≡ true → ended.now.flushes ≡ 1 }
{
    ended.status == row.status
        && ended.output.as_slice() == row.output.as_slice()
        && ended.said.as_slice() == row.said.as_slice()
        && ended.flushes == 1
}

/// Runs the task on the bytes in this cutting.
fn end_of(alloc: Global, task: &Task, bytes: &[u8], cutting: Cutting) -> Ended
    requires { HasSides task.now }
{
    let mut source = CutSource::new(bytes, cutting);
    let mut sink = KeepingSink::new(alloc, cutting.taken);
    let answer = run(alloc, *task, &mut source, &mut sink);
    Ended {
        status: code_of(&answer),
        said: said_of(task, &answer),
        flushes: sink.flushes,
        output: sink.bytes,
    }
}

/// The exit status of a run.
fn code_of(answer: &Result<Status, RunFault>) -> u8 {
    match answer {
        Ok(Status::Done | Status::Noted(_)) => 0,
        Ok(
            Status::Broken(_)
            | Status::Asked(_)
            | Status::Surveyed { .. }
            | Status::Differing
            | Status::Unfit { .. },
        ) => 1,
        Err(_) => 2,
    }
}

/// The line that goes to standard error: why a run was refused, or why a picture wasn't rendered.
fn said_of(task: &Task, answer: &Result<Status, RunFault>) -> Line {
    match answer {
        Ok(Status::Broken(finding)) if matches!(task, Task::Render { .. }) => finding_line(finding),
        Ok(_) => Line::new(),
        Err(fault) => fault_line(fault),
    }
}
