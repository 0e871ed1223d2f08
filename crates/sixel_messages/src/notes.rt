//! Notes: lines about a task that is done, if its result may surprise.

ghost use Rattle.std.specs.Prelude.{◌≡◌, ◌≤◌, length};
ghost use Rattle.sixel_io.specs.Devices.{Writes, change};
ghost use Rattle.sixel_report.specs.declared.task.Note.TheVariants.{Hidden, HighRegister, Wrapped};
ghost use Rattle.sixel_report.specs.Exits.{IsPut};
ghost use Rattle.sixel_messages.specs.Notes.{has_wrapped, hidden_text, note_line, wrapped_line};

use arrayvec::ArrayVec;
use itoa::Buffer;
use sixel_io::{DeviceFault, Sink, put_all};
use sixel_report::{Note, RunFault, Status};

/// What follows the number of hidden pixels.
fn hidden_text(pixels: u32) -> &'static str
    ensures text { result.now ≡ hidden_text pixels }
    ensures short { length result.now ≤ 78 }
{
    if pixels == 1 {
        " painted pixel has the background's colour; --background R,G,B takes another"
    } else {
        " painted pixels have the background's colour; --background R,G,B takes another"
    }
}

/// The line of the note on hidden pixels: at most 96 bytes.
fn hidden_line(pixels: u32) -> ArrayVec<u8, 96>
    ensures { result.items ≡ note_line (Hidden pixels) }
{
    let mut line = ArrayVec::new();
    let mut number = Buffer::new();
    let _ = line.try_extend_from_slice(b"sixel: ");
    let _ = line.try_extend_from_slice(number.format(pixels).as_bytes());
    let _ = line.try_extend_from_slice(hidden_text(pixels).as_bytes());
    line.push(b'\n');
    line
}

/// The line of the note on wrapped strings.
fn wrapped_note() -> &'static [u8]
    ensures { result.now ≡ note_line Wrapped }
{
    b"sixel: a string is wrapped for GNU Screen or tmux; RECIPES.md, in share/doc/sixel/ or docs/, tells how to unwrap it\n"
}

/// The line of the note on high registers.
fn high_register_note() -> &'static [u8]
    ensures { result.now ≡ note_line HighRegister }
{
    b"sixel: the string names a register above 15; '--wide' shows 256 registers\n"
}

/// Writes the line of a note.
pub fn put_note<K: Sink>(note: Note, out: &mut K) -> Result<(), DeviceFault>
    ensures { Writes result (K.state out.old) (K.state out.new) (note_line note) }
{
    match note {
        Note::Hidden { pixels } => put_all(out, hidden_line(pixels).as_slice()),
        Note::HighRegister => put_all(out, high_register_note()),
        Note::Wrapped => put_all(out, wrapped_note()),
    }
}

/// Whether a scan with this answer found a string in the pass-through of tmux or GNU Screen.
pub fn has_wrapped(answer: &Result<Status, RunFault>) -> bool
    ensures { result ≡ has_wrapped answer.now }
{
    match answer {
        Ok(Status::Noted(Note::Wrapped)) => true,
        Ok(Status::Unfit { wrapped }) => *wrapped,
        _ => false,
    }
}

/// The note on wrapped strings, if notes are wanted and there was one.
fn wrapped_line(wanted: bool, wrapped: bool) -> &'static [u8]
    ensures { result.now ≡ wrapped_line wanted wrapped }
{
    if wanted && wrapped {
        wrapped_note()
    } else {
        b""
    }
}

/// Writes that note, if there is one.
pub fn put_wrapped<E: Sink>(wanted: bool, wrapped: bool, errors: &mut E)
    ensures { IsPut (wrapped_line wanted wrapped) (change (E.state errors.old) (E.state errors.new)) }
{
    let _ = put_all(errors, wrapped_line(wanted, wrapped));
}
