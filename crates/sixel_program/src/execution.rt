//! Carries out a request over streams and a folder.

ghost use Rattle.std.specs.Prelude.{◌≡◌, All, Contains, false, map, true};
ghost use Rattle.std.specs.String.{string_bytes};
ghost use Rattle.sixel_io.specs.Devices.{change};
ghost use Rattle.sixel_report.specs.Exits.{IsPut};
ghost use Rattle.sixel_program.specs.Files.{IsBrokenOver, IsDoneOver, IsJudgedOver, NoticedEnds, is_misasked};
ghost use Rattle.sixel_program.specs.Files.{is_misdirected, mistake, names_input_twice, names_read, notice};
ghost use Rattle.sixel_program.specs.Files.{reads_input, told_of};
ghost use Rattle.sixel_program.specs.Shown.{shown_at};
ghost use Rattle.sixel_program.specs.Openings.{bytes_of, folder_view};
ghost use Rattle.sixel_report.specs.Outputs.{HasSides};
ghost use Rattle.sixel_report.specs.Texts.{Text};

use crate::dashes::{names_input_twice, put_named_twice};
use crate::files::answer;
use crate::folder::Folder;
use crate::peeked::Peeked;
use crate::terminals::{Terminals, announce, is_misdirected, put_redirection};
use sixel_io::{Sink, Source};
use sixel_report::{Exit, Request};
use std::alloc::Global;

/// Carries out a request over `input` and the files of `folder`. Results go to `output`, messages to `errors`. A task
/// that is to read a terminal says first that it waits. If `errors` is a terminal, a check or a survey ends with a hint
/// on the first broken rule, unless it is quiet. `Usage`: a picture would be written to a terminal, or a task with lines names
/// standard input twice. Nothing is read then.
pub fn execute<F: Folder, S: Source, K: Sink, E: Sink>(
    alloc: Global,
    request: &Request,
    folder: &F,
    terminals: Terminals,
    input: &mut Peeked<S>,
    output: &mut K,
    errors: &mut E,
) -> Exit
    requires { HasSides request.now.task }
    ensures ends { is_misasked terminals request.now.task (map string_bytes request.now.files.items) ≡ false →
        NoticedEnds (notice terminals request.now.task request.now.lines (map string_bytes request.now.files.items))
        request.now.task request.now.lines (shown_at terminals request.now.lines request.now.explains) (map string_bytes request.now.files.items)
        (folder_view (F.opening folder.now) F.Opened.state) result
        (change (⟦<Peeked<S> as Source>⟧.state input.old) (⟦<Peeked<S> as Source>⟧.state input.new))
        (change (K.state output.old) (K.state output.new)) (change (E.state errors.old) (E.state errors.new)) }
    ensures misdirected { is_misdirected terminals request.now.task ≡ true → result ≡ Exit.Usage }
    ensures twice { names_input_twice request.now.task (map string_bytes request.now.files.items) ≡ true →
        result ≡ Exit.Usage }
    ensures redirected { result ≡ Exit.Usage →
        IsPut (mistake terminals request.now.task) (change (E.state errors.old) (E.state errors.new)) }
    ensures usage { result ≡ Exit.Usage →
        is_misasked terminals request.now.task (map string_bytes request.now.files.items) ≡ true }
    ensures untouched { result ≡ Exit.Usage → input.new ≡ input.old }
    ensures unwritten { result ≡ Exit.Usage → output.new ≡ output.old }
    ensures unread { reads_input request.now.task (map string_bytes request.now.files.items) ≡ false →
        input.new ≡ input.old }
    ensures done { result ≡ Exit.Done → All (λ name.
        IsDoneOver request.now.task
        (told_of (bytes_of (F.opening folder.now)) (⟦<Peeked<S> as Source>⟧.state input.old).remaining name))
        (names_read request.now.task (map string_bytes request.now.files.items)) }
    ensures broken { result ≡ Exit.Broken → (name : Text)
        × Contains (names_read request.now.task (map string_bytes request.now.files.items)) name
        × IsBrokenOver request.now.task
        (told_of (bytes_of (F.opening folder.now)) (⟦<Peeked<S> as Source>⟧.state input.old).remaining name) }
    ensures judged { result ≡ Exit.Broken → All (λ name.
        IsJudgedOver request.now.task
        (told_of (bytes_of (F.opening folder.now)) (⟦<Peeked<S> as Source>⟧.state input.old).remaining name))
        (names_read request.now.task (map string_bytes request.now.files.items)) }
{
    if is_misdirected(terminals, request.task) {
        put_redirection(request.task, errors);
        return Exit::Usage;
    }
    if names_input_twice(request) {
        put_named_twice(errors);
        return Exit::Usage;
    }
    announce(terminals, request, errors);
    answer(alloc, request, terminals, folder, input, output, errors)
}
