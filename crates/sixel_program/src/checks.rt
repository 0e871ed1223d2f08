//! Checks, surveys, scans and comparisons of terminals, of files or of standard input.

ghost use Rattle.std.specs.Prelude.{◌≡◌, ◌≢◌, ◌∷◌, [], Err, IfErr, None, OnOk, count_by, false, map, nat_lt};
ghost use Rattle.std.specs.Prelude.{option_copied, true};
ghost use Rattle.std.specs.Io.KnownBytes.{Keeps};
ghost use Rattle.std.specs.String.{string_bytes};
ghost use Rattle.sixel_io.specs.Devices.{CountsFailure, change};
ghost use Rattle.sixel_report.specs.Exits.{IsPut};
ghost use Rattle.sixel_program.specs.Files.{FilesEnd, IsChecked, IsFinished, IsNamedEnd, is_dash, labels_for};
ghost use Rattle.sixel_program.specs.Files.{has_notes, reads_input, worse};
ghost use Rattle.sixel_messages.specs.Reports.{name_of, written_for};
ghost use Rattle.sixel_report.specs.Lines.{is_quiet};
ghost use Rattle.sixel_messages.specs.Formats.{IsFormat};
ghost use Rattle.sixel_program.specs.Openings.{folder_view};
ghost use Rattle.sixel_run.specs.LineTasks.{WritesItems, has_lines, scans};
ghost use Rattle.sixel_report.specs.Texts.{fault_line};

use crate::counts::{failures_in, put_count};
use crate::folder::{Folder, open_file};
use crate::nowhere::Nowhere;
use crate::peeked::Peeked;
use sixel_io::{DeviceFault, PIECE, Sink, Source};
use sixel_messages::{
    Causes, Format, Labelled, Shown, has_wrapped, name_of, put_hints, put_wrapped, say_answer,
    say_unopened,
};
use sixel_report::{
    Exit, Lines, Plain, RunFault, Status, Task, code_of, exit_of, is_json, is_quiet, write_fault,
};
use sixel_run::write_lines;
use std::alloc::Global;

/// Whether the task writes while it reads.
fn scans(task: &Task) -> bool
    ensures { result ≡ scans task.now }
{
    matches!(task, Task::Scan { .. })
}

/// The format of the input of a task, told by its first bytes. A scan only asks whether there is one: a string may end
/// in these bytes, and its line is written before more are read.
fn format_for<S: Source>(task: &Task, input: &mut Peeked<S>) -> Option<Format>
    ensures told { Keeps (⟦<Peeked<S> as Source>⟧.state input.old).remaining
        (⟦<Peeked<S> as Source>⟧.state input.new).remaining }
    ensures failures { (⟦<Peeked<S> as Source>⟧.state input.new).failures
        ≡ (⟦<Peeked<S> as Source>⟧.state input.old).failures }
    ensures format { IsFormat (⟦<Peeked<S> as Source>⟧.state input.old).remaining result }
{
    if !scans(task) {
        return input.format();
    }
    if input.is_empty() {
        Some(Format::Empty)
    } else {
        None
    }
}

/// Writes what is found in the input with this label, or without one; nothing if the task is quiet.
fn write_labelled<S: Source, K: Sink>(
    alloc: Global,
    task: &Task,
    lines: Lines,
    label: Option<&str>,
    input: &mut S,
    piece: &mut [u8; PIECE],
    output: &mut K,
) -> Result<Status, RunFault>
    requires { has_lines task.now ≡ true }
    ensures wrote { WritesItems task.now (written_for lines (option_copied label.entry))
        result (change (S.state input.old) (S.state input.new)) (change (K.state output.old) (K.state output.new)) }
    ensures loud { is_quiet lines ≡ true → result ≢ Err RunFault.Write }
    ensures untouched { is_quiet lines ≡ true → output.new ≡ output.old }
{
    match (lines, label) {
        (Lines::Nothing { .. }, _) => {
            write_lines(alloc, *task, &Plain, input, piece, &mut Nowhere::new())
        }
        (Lines::Plain { only_failed: false }, None) => {
            write_lines(alloc, *task, &Plain, input, piece, output)
        }
        _ => write_lines(
            alloc,
            *task,
            &Labelled { lines, label },
            input,
            piece,
            output,
        ),
    }
}

/// Whether the output failed.
fn is_unwritten(answer: &Result<Status, RunFault>) -> bool
    ensures yes { result ≡ true → answer.now ≡ Err RunFault.Write }
    ensures no { result ≡ false → answer.now ≢ Err RunFault.Write }
{
    matches!(answer, Err(RunFault::Write))
}

/// Checks, surveys or scans an open file, or standard input. Returns the answer, or an `Err` if `output` failed.
fn answer_labelled<S: Source, K: Sink, E: Sink>(
    alloc: Global,
    task: &Task,
    lines: Lines,
    label: Option<&str>,
    input: &mut Peeked<S>,
    piece: &mut [u8; PIECE],
    output: &mut K,
    errors: &mut E,
) -> Result<Result<Status, RunFault>, DeviceFault>
    requires { has_lines task.now ≡ true }
    ensures { IsNamedEnd task.now lines (option_copied label.entry) result
        (change (⟦<Peeked<S> as Source>⟧.state input.old) (⟦<Peeked<S> as Source>⟧.state input.new))
        (change (K.state output.old) (K.state output.new)) (change (E.state errors.old) (E.state errors.new)) }
{
    let format = format_for(task, input);
    let answer = write_labelled(alloc, task, lines, label, input, piece, output);
    if is_unwritten(&answer) {
        return Err(DeviceFault);
    }
    say_answer(lines, label, format, answer, output, errors)
}

/// Checks, surveys or scans the file with this label, or standard input if that is `-` or there is none. Returns the
/// answer, or an `Err` if `output` failed.
fn check_file<F: Folder, S: Source, K: Sink, E: Sink>(
    alloc: Global,
    task: &Task,
    lines: Lines,
    label: Option<&str>,
    folder: &F,
    input: &mut Peeked<S>,
    piece: &mut [u8; PIECE],
    output: &mut K,
    errors: &mut E,
) -> Result<Result<Status, RunFault>, DeviceFault>
    requires { has_lines task.now ≡ true }
    ensures checked { IsChecked task.now lines (folder_view (F.opening folder.now) F.Opened.state)
        (option_copied label.entry) result
        (change (⟦<Peeked<S> as Source>⟧.state input.old) (⟦<Peeked<S> as Source>⟧.state input.new))
        (change (K.state output.old) (K.state output.new)) (change (E.state errors.old) (E.state errors.new)) }
    ensures unread { is_dash (name_of (option_copied label.entry)) ≡ false → input.new ≡ input.old }
{
    let name = name_of(label);
    if name == "-" {
        return answer_labelled(alloc, task, lines, label, input, piece, output, errors);
    }
    match open_file(folder, name) {
        Ok(file) => {
            let mut file = Peeked::new(file);
            answer_labelled(alloc, task, lines, label, &mut file, piece, output, errors)
        }
        Err(reason) => {
            say_unopened(lines, label, reason, output, errors)?;
            Ok(Err(RunFault::Read))
        }
    }
}

/// The greater of two exit statuses.
fn worse(a: Exit, b: Exit) -> Exit
    ensures { result ≡ worse a b }
{
    if code_of(a) < code_of(b) { b } else { a }
}

/// Says that the output couldn't be written.
fn unwritten<E: Sink>(errors: &mut E) -> Exit
    ensures exit { result ≡ Exit.Refused }
    ensures said { IsPut (fault_line RunFault.Write)
        (change (E.state errors.old) (E.state errors.new)) }
{
    let _ = write_fault(&RunFault::Write, errors);
    Exit::Refused
}

/// Flushes the output, unless the task is quiet.
fn flush_verdicts<K: Sink>(lines: Lines, output: &mut K) -> Result<(), DeviceFault>
    ensures bytes { Keeps (K.state output.old).taken (K.state output.new).taken }
    ensures failures { CountsFailure result (K.state output.old).failures (K.state output.new).failures }
    ensures flushed { is_quiet lines ≡ false → OnOk result ((K.state output.new).is_flushed ≡ true) }
    ensures loud { IfErr result (λ _. is_quiet lines ≡ false) }
    ensures untouched { is_quiet lines ≡ true → output.new ≡ output.old }
{
    if is_quiet(lines) {
        Ok(())
    } else {
        output.flush()
    }
}

/// What was found in the inputs so far.
#[derive(Drop)]
struct Found {
    /// The greatest exit status.
    exit: Exit,
    /// What was found wrong.
    causes: Causes,
    /// Whether a scan found a wrapped string.
    wrapped: bool,
    /// How many inputs aren't portable.
    failed: usize,
    /// How many inputs there were.
    all: usize,
}

/// Whether notes are written. In JSON the object of a string says that it is wrapped.
fn has_notes(lines: Lines, shown: Shown) -> bool
    ensures { result ≡ has_notes lines shown }
{
    shown.notes && !is_json(lines)
}

/// Ends a check, a survey or a scan that found this: flushes the output, and writes the last messages.
fn finish<K: Sink, E: Sink>(
    task: &Task,
    lines: Lines,
    shown: Shown,
    found: &Found,
    output: &mut K,
    errors: &mut E,
) -> Exit
    ensures { IsFinished task.now lines shown found.now.exit found.now.causes.found.items
        found.now.wrapped found.now.failed found.now.all result (change (K.state output.old) (K.state output.new)) (change (E.state errors.old) (E.state errors.new)) }
{
    match flush_verdicts(lines, output) {
        Ok(()) => {
            put_hints(task, lines, shown, found.causes.as_slice(), errors);
            put_wrapped(has_notes(lines, shown), found.wrapped, errors);
            put_count(
                task,
                lines,
                shown.is_terminal,
                found.failed,
                found.all,
                errors,
            );
            found.exit
        }
        Err(_) => unwritten(errors),
    }
}

/// Checks, surveys or scans standard input.
fn check_input<F: Folder, S: Source, K: Sink, E: Sink>(
    alloc: Global,
    task: &Task,
    lines: Lines,
    shown: Shown,
    folder: &F,
    input: &mut Peeked<S>,
    piece: &mut [u8; PIECE],
    output: &mut K,
    errors: &mut E,
) -> Exit
    requires { has_lines task.now ≡ true }
    ensures { FilesEnd task.now lines shown (folder_view (F.opening folder.now) F.Opened.state)
        (None ∷ []) result
        (change (⟦<Peeked<S> as Source>⟧.state input.old) (⟦<Peeked<S> as Source>⟧.state input.new))
        (change (K.state output.old) (K.state output.new)) (change (E.state errors.old) (E.state errors.new)) }
{
    match check_file(
        alloc, task, lines, None, folder, input, piece, output, errors,
    ) {
        Ok(answer) => {
            let mut causes = Causes::new();
            causes.note(&answer);
            let found = Found {
                exit: exit_of(answer),
                causes,
                wrapped: has_wrapped(&answer),
                failed: failures_in(&answer),
                all: 1,
            };
            finish(task, lines, shown, &found, output, errors)
        }
        Err(_) => unwritten(errors),
    }
}

/// Checks, surveys, scans or compares the files with these names in turn; one `-` at most is among them. Without names it is over
/// standard input. A refused file doesn't end this, but a failed write does. The exit status is the greatest of theirs.
/// At a terminal a hint on what was found wrong first comes last, or if hints are asked for one on each, but only after a
/// check or a survey that isn't quiet; then a scan's note on wrapped strings; and then how many of several files failed,
/// which a check or a survey of only failures says too.
///
/// It isn't inlined, or its room would be on the stack of every task.
#[inline(never)]
pub fn check_files<F: Folder, S: Source, K: Sink, E: Sink>(
    alloc: Global,
    task: &Task,
    lines: Lines,
    shown: Shown,
    names: &[String],
    folder: &F,
    input: &mut Peeked<S>,
    output: &mut K,
    errors: &mut E,
) -> Exit
    requires lines { has_lines task.now ≡ true }
    requires once { nat_lt 1 (count_by is_dash (map string_bytes names.now)) ≡ false }
    ensures checked { FilesEnd task.now lines shown (folder_view (F.opening folder.now) F.Opened.state)
        (labels_for (map string_bytes names.now)) result
        (change (⟦<Peeked<S> as Source>⟧.state input.old) (⟦<Peeked<S> as Source>⟧.state input.new))
        (change (K.state output.old) (K.state output.new)) (change (E.state errors.old) (E.state errors.new)) }
    ensures unread { reads_input task.now (map string_bytes names.now) ≡ false → input.new ≡ input.old }
{
    let mut piece = [0u8; PIECE];
    if names.is_empty() {
        return check_input(
            alloc, task, lines, shown, folder, input, &mut piece, output, errors,
        );
    }
    let mut exit = Exit::Done;
    let mut causes = Causes::new();
    let mut wrapped = false;
    let mut failed = 0;
    for name in names {
        let label = Some(name.as_str());
        match check_file(
            alloc, task, lines, label, folder, input, &mut piece, output, errors,
        ) {
            Ok(answer) => {
                causes.note(&answer);
                wrapped |= has_wrapped(&answer);
                failed += failures_in(&answer);
                exit = worse(exit, exit_of(answer));
            }
            Err(_) => return unwritten(errors),
        }
    }
    let found = Found {
        exit,
        causes,
        wrapped,
        failed,
        all: names.len(),
    };
    finish(task, lines, shown, &found, output, errors)
}
