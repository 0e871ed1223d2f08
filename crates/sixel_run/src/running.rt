//! Runs a task from a source to a sink. Each task has a file of its own, and `run` flushes after all of them.

ghost use Rattle.std.specs.Prelude.{◌≡◌, ◌≢◌, Err, IfSome, true};
ghost use Rattle.sixel_io.specs.Devices.{change};
ghost use Rattle.sixel_run.specs.LineTasks.{WritesItems, has_lines};
ghost use Rattle.sixel_report.specs.Outputs.{CountsReads, CountsWrites, HasSides, failures_by};
ghost use Rattle.sixel_run.specs.Outputs.{RunWrote, TakesMemory};

mod check;
mod differ;
mod encode;
mod mend;
mod render;
mod scan;
mod survey;

use sixel_io::{PIECE, Sink, Source};
use sixel_list::list;
use sixel_mend::Mending;
use sixel_report::{Plain, PutItem, RunFault, Status, Task};
use sixel_sheet::differ_sheet;
use sixel_show::{show, show_box, show_on};
use std::alloc::Global;

/// Runs a task: reads the input as far as the task needs it, writes the output, and flushes once at the end.
///
/// The output is written in blocks, and what a piece of input completes is written before the next piece is read. The
/// line of a string of a stream is written as soon as the string has ended. A device that failed isn't called again; if
/// both failed, the answer is `Write`. The sides of a screen to show must be from 1 to 4,096 pixels.
///
/// It isn't inlined, or its room would be on the stack of its caller.
#[inline(never)]
pub fn run<S: Source, K: Sink>(
    alloc: Global,
    task: Task,
    input: &mut S,
    output: &mut K,
) -> Result<Status, RunFault>
    requires { HasSides task }
    ensures wrote { IfSome (S.state input.old).remaining (λ bytes.
        RunWrote task bytes (S.state input.new).remaining result
        (K.state output.old).taken (K.state output.new).taken) }
    ensures memory { result ≡ Err RunFault.OutOfMemory → TakesMemory task (S.state input.old).remaining }
    ensures reads { CountsReads result (S.state input.old).failures (S.state input.new).failures }
    ensures writes { CountsWrites result (K.state output.old).failures (K.state output.new).failures }
    ensures flushed { result ≢ Err RunFault.Write → (K.state output.new).is_flushed ≡ true }
{
    let answer = perform(alloc, task, input, &mut [0u8; PIECE], output);
    match answer {
        Err(RunFault::Write) => Err(RunFault::Write),
        _ => match output.flush() {
            Ok(()) => answer,
            Err(_) => Err(RunFault::Write),
        },
    }
}

/// Checks, surveys, scans or compares, and writes each item by `put`. All but a scan read into the caller's room, so a
/// caller with many inputs clears it once. It doesn't flush.
pub fn write_lines<P: PutItem, S: Source, K: Sink>(
    alloc: Global,
    task: Task,
    put: &P,
    input: &mut S,
    piece: &mut [u8; PIECE],
    output: &mut K,
) -> Result<Status, RunFault>
    requires { has_lines task ≡ true }
    ensures { WritesItems task (P.written put.now) result
        (change (S.state input.old) (S.state input.new)) (change (K.state output.old) (K.state output.new)) }
{
    match task {
        Task::Check { profile, terminals } => {
            check::check(alloc, profile, terminals, put, input, piece, output)
        }
        Task::Survey { profile, terminals } => {
            survey::survey(alloc, profile, terminals, put, input, piece, output)
        }
        Task::Scan { profile, eight_bit } => {
            scan::scan(alloc, profile, eight_bit, put, input, output)
        }
        Task::Differ { background } => {
            differ::differ(alloc, background, put, input, piece, output)
        }
        _ => unreachable!(),
    }
}

/// Does all of a task except the flush. Reads into `piece`.
fn perform<S: Source, K: Sink>(
    alloc: Global,
    task: Task,
    input: &mut S,
    piece: &mut [u8; PIECE],
    output: &mut K,
) -> Result<Status, RunFault>
    requires { HasSides task }
    ensures wrote { IfSome (S.state input.old).remaining (λ bytes.
        RunWrote task bytes (S.state input.new).remaining result
        (K.state output.old).taken (K.state output.new).taken) }
    ensures memory { result ≡ Err RunFault.OutOfMemory → TakesMemory task (S.state input.old).remaining }
    ensures reads { (S.state input.new).failures ≡ failures_by RunFault.Read result (S.state input.old).failures }
    ensures writes { CountsWrites result (K.state output.old).failures (K.state output.new).failures }
{
    match task {
        Task::Check { .. } | Task::Survey { .. } | Task::Scan { .. } | Task::Differ { .. } => {
            write_lines(alloc, task, &Plain, input, piece, output)
        }
        Task::List => list::list(input, piece, output),
        Task::Render { profile, format } => {
            render::render(alloc, profile, format, input, piece, output)
        }
        Task::Encode { profile, fitting } => {
            encode::encode(alloc, profile, fitting, input, output)
        }
        Task::Mend {
            profile,
            background,
            showing,
            selects,
            fitting,
        } => {
            let mending = Mending {
                background,
                showing,
                selects,
            };
            mend::mend(alloc, profile, &mending, fitting, input, piece, output)
        }
        Task::Show {
            profile,
            showing,
            fill,
            selects,
            width,
            height,
            format,
        } => {
            let choices = show::show_choices(showing, fill, selects, width, height);
            show::show(alloc, profile, choices, format, input, piece, output)
        }
        Task::ShowBox {
            profile,
            showing,
            fill,
            selects,
            format,
        } => show_box::show_box(
            alloc, profile, showing, fill, selects, format, input, piece, output,
        ),
        Task::ShowOn {
            named,
            background,
            area,
            format,
        } => show_on::show_on(alloc, named, background, area, format, input, piece, output),
        Task::DifferSheet { background } => {
            differ_sheet::differ_sheet(alloc, background, input, piece, output)
        }
    }
}
