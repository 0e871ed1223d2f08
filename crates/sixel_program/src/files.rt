//! Requests over standard input or files.

ghost use Rattle.std.specs.Prelude.{◌≡◌, false, map, option_copied};
ghost use Rattle.std.specs.String.{string_bytes};
ghost use Rattle.sixel_io.specs.Devices.{change};
ghost use Rattle.sixel_program.specs.Exits.{RunEnds};
ghost use Rattle.sixel_program.specs.Files.{FileEnds, RequestEnds, is_dash, names_input_twice, reads_input};
ghost use Rattle.sixel_program.specs.Shown.{shown_at};
ghost use Rattle.sixel_program.specs.Openings.{folder_view};
ghost use Rattle.sixel_report.specs.Outputs.{HasSides};

use crate::checks::check_files;
use crate::folder::{Folder, open_file};
use crate::peeked::Peeked;
use crate::shown::shown_at;
use crate::terminals::Terminals;
use sixel_io::{Sink, Source};
use sixel_messages::{put_said, put_unopened};
use sixel_report::{Exit, Lines, Request, Task, all_of, exit_of};
use sixel_run::run;
use std::alloc::Global;

/// The lines of a comparison of terminals: all, and never objects of JSON.
const PLAIN: Lines = Lines::Plain { only_failed: false };

/// Runs a task over an input, which has this name or none. Writes to `errors` why the input was refused, which rule
/// kept its picture from being rendered, or what may surprise, and how to convert an input of another format. If that
/// can't be written, the exit status stays the same.
fn report<S: Source, K: Sink, E: Sink>(
    alloc: Global,
    task: &Task,
    lines: Lines,
    name: Option<&str>,
    input: &mut Peeked<S>,
    output: &mut K,
    errors: &mut E,
) -> Exit
    requires { HasSides task.now }
    ensures { RunEnds task.now lines (option_copied name.entry) result
        (change (⟦<Peeked<S> as Source>⟧.state input.old) (⟦<Peeked<S> as Source>⟧.state input.new))
        (change (K.state output.old) (K.state output.new)) (change (E.state errors.old) (E.state errors.new)) }
{
    let format = input.format();
    let answer = run(alloc, *task, input, output);
    let _ = put_said(task, lines, name, format, &answer, errors);
    exit_of(answer)
}

/// Runs a task over the file with this name, or over standard input if the name is `-`.
fn report_file<F: Folder, S: Source, K: Sink, E: Sink>(
    alloc: Global,
    task: &Task,
    lines: Lines,
    name: &str,
    folder: &F,
    input: &mut Peeked<S>,
    output: &mut K,
    errors: &mut E,
) -> Exit
    requires { HasSides task.now }
    ensures ends { FileEnds task.now lines (folder_view (F.opening folder.now) F.Opened.state) name.now result
        (change (⟦<Peeked<S> as Source>⟧.state input.old) (⟦<Peeked<S> as Source>⟧.state input.new))
        (change (K.state output.old) (K.state output.new)) (change (E.state errors.old) (E.state errors.new)) }
    ensures unread { is_dash name.now ≡ false → input.new ≡ input.old }
{
    if name == "-" {
        return report(alloc, task, lines, Some(name), input, output, errors);
    }
    match open_file(folder, name) {
        Ok(file) => {
            let mut file = Peeked::new(file);
            report(alloc, task, lines, Some(name), &mut file, output, errors)
        }
        Err(reason) => {
            let _ = put_unopened(name, reason, errors);
            Exit::Refused
        }
    }
}

/// Carries out a request that names standard input once at most. A task with lines reads all files that are named: a
/// check, a survey, a scan or a comparison of terminals. Any other task reads the first. Without names standard input is
/// read. A check and a survey end with a hint on what is wrong first, if `errors` is a terminal and they aren't quiet.
pub fn answer<F: Folder, S: Source, K: Sink, E: Sink>(
    alloc: Global,
    request: &Request,
    terminals: Terminals,
    folder: &F,
    input: &mut Peeked<S>,
    output: &mut K,
    errors: &mut E,
) -> Exit
    requires sides { HasSides request.now.task }
    requires once { names_input_twice request.now.task (map string_bytes request.now.files.items) ≡ false }
    ensures ends { RequestEnds request.now.task request.now.lines (shown_at terminals request.now.lines request.now.explains)
        (map string_bytes request.now.files.items) (folder_view (F.opening folder.now) F.Opened.state) result
        (change (⟦<Peeked<S> as Source>⟧.state input.old) (⟦<Peeked<S> as Source>⟧.state input.new))
        (change (K.state output.old) (K.state output.new)) (change (E.state errors.old) (E.state errors.new)) }
    ensures unread { reads_input request.now.task (map string_bytes request.now.files.items) ≡ false →
        input.new ≡ input.old }
{
    let task = &request.task;
    let names = request.files.as_slice();
    let lines = request.lines;
    let shown = shown_at(terminals, lines, request.explains);
    match (request.task, names) {
        (Task::Check { .. } | Task::Survey { .. }, _) => check_files(
            alloc, task, lines, shown, names, folder, input, output, errors,
        ),
        (Task::Scan { .. }, _) => check_files(
            alloc,
            task,
            all_of(lines),
            shown,
            names,
            folder,
            input,
            output,
            errors,
        ),
        (Task::Differ { .. }, _) => check_files(
            alloc, task, PLAIN, shown, names, folder, input, output, errors,
        ),
        (_, []) => report(alloc, task, lines, None, input, output, errors),
        (_, [name, ..]) => report_file(
            alloc,
            task,
            lines,
            name.as_str(),
            folder,
            input,
            output,
            errors,
        ),
    }
}
