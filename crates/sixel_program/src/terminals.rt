//! What is said if standard input or standard output is a terminal.

ghost use Rattle.std.specs.Prelude.{◌≡◌, map};
ghost use Rattle.std.specs.String.{string_bytes};
ghost use Rattle.sixel_io.specs.Devices.{change};
ghost use Rattle.sixel_report.specs.Exits.{IsPut};
ghost use Rattle.sixel_run.specs.Outputs.{format_of};
ghost use Rattle.sixel_program.specs.Files.{is_misdirected, notice, redirection, redirection_as, waiting_line};

use crate::dashes::reads_input;
use sixel_io::{Sink, put_all};
use sixel_report::{PictureFormat, Request, Task, is_quiet};

/// Which of the standard streams are terminals.
#[derive(Clone, Copy, Debug, PartialEq, Eq)]
pub struct Terminals {
    /// Whether standard input is one: what is read is typed, and the task waits for it.
    pub input: bool,
    /// Whether standard output is one: it shows sixel text, but neither a PPM nor a PNG.
    pub output: bool,
    /// Whether standard error is one: it shows messages while a task runs.
    pub errors: bool,
}

/// Whether the task would write a PPM or a PNG to a terminal.
pub fn is_misdirected(terminals: Terminals, task: Task) -> bool
    ensures { result ≡ is_misdirected terminals task }
{
    terminals.output
        && matches!(
            task,
            Task::Render { .. }
                | Task::Show { .. }
                | Task::ShowBox { .. }
                | Task::ShowOn { .. }
                | Task::DifferSheet { .. }
        )
}

/// Says how to write the picture of a task to a file.
pub fn put_redirection<E: Sink>(task: Task, errors: &mut E)
    ensures { IsPut (redirection task) (change (E.state errors.old) (E.state errors.new)) }
{
    let _ = put_all(errors, redirection(format_of(task)));
}

/// The format of the picture that a task writes; `Ppm` for a task without one.
fn format_of(task: Task) -> PictureFormat
    ensures { result ≡ format_of task }
{
    match task {
        Task::Render { format, .. }
        | Task::Show { format, .. }
        | Task::ShowBox { format, .. }
        | Task::ShowOn { format, .. } => format,
        _ => PictureFormat::Ppm,
    }
}

/// What is said of a picture in this format.
fn redirection(format: PictureFormat) -> &'static [u8]
    ensures { result.now ≡ redirection_as format }
{
    match format {
        PictureFormat::Ppm => {
            b"sixel: a terminal can't show a PPM; redirect the output, as in `> picture.ppm`\n"
        }
        PictureFormat::Png => {
            b"sixel: a terminal can't show a PNG; redirect the output, as in `> picture.png`\n"
        }
    }
}

/// What the task says if it waits for a terminal.
fn waiting_line(task: Task) -> &'static [u8]
    ensures { result.now ≡ waiting_line task }
{
    match task {
        Task::Encode { .. } => b"sixel: waiting for a PPM on standard input\n",
        _ => b"sixel: waiting for sixel text on standard input\n",
    }
}

/// The notice before a task: one that reads a terminal says that it waits, unless it is quiet.
fn notice(terminals: Terminals, request: &Request) -> &'static [u8]
    ensures { result.now
        ≡ notice terminals request.now.task request.now.lines (map string_bytes request.now.files.items) }
{
    if terminals.input && !is_quiet(request.lines) && reads_input(request) {
        waiting_line(request.task)
    } else {
        b""
    }
}

/// Says that the task waits, if it is to read a terminal and isn't quiet.
pub fn announce<E: Sink>(terminals: Terminals, request: &Request, errors: &mut E)
    ensures { IsPut (notice terminals request.now.task request.now.lines (map string_bytes request.now.files.items))
        (change (E.state errors.old) (E.state errors.new)) }
{
    let _ = put_all(errors, notice(terminals, request));
}
