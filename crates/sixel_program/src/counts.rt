//! The last line of a check of several files: how many of them failed.

ghost use Rattle.std.specs.Prelude.{◌≡◌, ◌+◌, ◌≤◌, ◌++◌, ◌∷◌, cond, decimal, length};
ghost use Rattle.arrayvec.specs.ArrayVec.{array_vec_len};
ghost use Rattle.sixel_io.specs.Devices.{change};
ghost use Rattle.sixel_program.specs.Counts.{wants_failures, count_line, count_of, count_words, has_failed};
ghost use Rattle.sixel_program.specs.Counts.{is_counted};
ghost use Rattle.sixel_report.specs.Exits.{IsPut};

use arrayvec::ArrayVec;
use itoa::Buffer;
use sixel_io::{Sink, put_all};
use sixel_report::{Lines, RunFault, Status, Task};

/// Whether an input with this answer isn't portable: a rule is broken, or it is refused.
fn has_failed(answer: &Result<Status, RunFault>) -> bool
    ensures { result ≡ has_failed answer.now }
{
    !matches!(answer, Ok(Status::Done | Status::Noted(_)))
}

/// How many of one input with this answer have failed.
pub fn failures_in(answer: &Result<Status, RunFault>) -> usize
    ensures { result ≡ cond (has_failed answer.now) 1 0 }
{
    if has_failed(answer) { 1 } else { 0 }
}

/// Whether a last line counts the files.
fn is_counted(lines: Lines, is_shown: bool) -> bool
    ensures { result ≡ is_counted lines is_shown }
{
    match lines {
        Lines::Nothing { .. } => false,
        Lines::Plain { only_failed } | Lines::Json { only_failed } => only_failed || is_shown,
    }
}

/// A line of counts, with its line feed: at most 75 bytes.
type CountLine = ArrayVec<u8, 96>;

fn push_all(line: &mut CountLine, text: &[u8])
    requires { array_vec_len line.old + length text.now ≤ 96 }
    ensures items { line.new.items ≡ line.old.items ++ text.now }
    ensures len { array_vec_len line.new ≡ array_vec_len line.old + length text.now }
{
    let _ = line.try_extend_from_slice(text);
}

/// A number: at most 20 digits.
fn push_number(line: &mut CountLine, number: usize)
    requires { array_vec_len line.old + 20 ≤ 96 }
    ensures items { line.new.items ≡ line.old.items ++ decimal number }
    ensures len { array_vec_len line.new ≤ array_vec_len line.old + 20 }
{
    let mut buffer = Buffer::new();
    push_all(line, buffer.format(number).as_bytes());
}

/// What follows the numbers in the line of so many failed files.
fn count_words(failed: usize) -> &'static str
    ensures text { result.now ≡ count_words failed }
    ensures short { length result.now ≤ 21 }
{
    if failed == 1 {
        "files isn't portable"
    } else {
        "files aren't portable"
    }
}

/// The line that says how many of the files failed.
fn count_line(failed: usize, all: usize) -> CountLine
    ensures { result.items ≡ count_line failed all }
{
    let mut line = ArrayVec::new();
    push_all(&mut line, b"sixel: ");
    push_number(&mut line, failed);
    push_all(&mut line, b" of ");
    push_number(&mut line, all);
    push_all(&mut line, b" ");
    push_all(&mut line, count_words(failed).as_bytes());
    line.push(b'\n');
    line
}

/// Whether only the lines of failures are wanted.
fn wants_failures(lines: Lines) -> bool
    ensures { result ≡ wants_failures lines }
{
    match lines {
        Lines::Nothing { .. } => false,
        Lines::Plain { only_failed } | Lines::Json { only_failed } => only_failed,
    }
}

/// The line of a task over so many inputs, of which so many failed. Only a check or a survey of two or more has one.
fn count_of(task: &Task, lines: Lines, is_shown: bool, failed: usize, all: usize) -> CountLine
    ensures { result.items ≡ count_of task.now lines is_shown failed all }
{
    match task {
        Task::Check { .. } if all > 1 && is_counted(lines, is_shown) => count_line(failed, all),
        Task::Survey { .. } if all > 1 && wants_failures(lines) => count_line(failed, all),
        _ => ArrayVec::new(),
    }
}

/// Writes that line, if there is one.
pub fn put_count<E: Sink>(
    task: &Task,
    lines: Lines,
    is_shown: bool,
    failed: usize,
    all: usize,
    errors: &mut E,
)
    ensures { IsPut (count_of task.now lines is_shown failed all) (change (E.state errors.old) (E.state errors.new)) }
{
    let _ = put_all(
        errors,
        count_of(task, lines, is_shown, failed, all).as_slice(),
    );
}
