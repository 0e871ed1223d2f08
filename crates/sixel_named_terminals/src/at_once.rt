//! Shows a document as a named terminal does, while it is read.

ghost use Rattle.std.specs.Prelude.{◌≡◌, ◌≢◌, ◌&&◌, [], ℕ, Err, IfErr, IfOk, IfSome, IsTrue};
ghost use Rattle.sixel_grammar.specs.declared.fault.InputFault.TheVariants.{Read as ReadFault};
ghost use Rattle.sixel_grammar.specs.Reading.{Explains, NoFaultBefore, failures_after};
ghost use Rattle.sixel_model.specs.declared.colour.Parts.{Parts as SomeParts};
ghost use Rattle.sixel_terminal.specs.Limits.{is_screen_side};
ghost use Rattle.sixel_grammar.specs.FirstPiece.{IsFirst, with_first};
ghost use Rattle.sixel_emulator.specs.Modelled.{HasFollowed};
ghost use Rattle.sixel_named_terminals.specs.Named.{DrawsNothingFirst, GivesScreen, model_of, terminal_on};

use crate::named::Named;
use sixel_emulator::{Modelled, Reading, draw};
use sixel_foot::{as_foot, foot_terminal};
use sixel_grammar::InputFault;
use sixel_io::{PIECE, Source};
use sixel_mlterm::{as_mlterm, mlterm_terminal};
use sixel_model::Colour;
use sixel_terminal::{Drawing, Screen};
use sixel_xterm::{as_xterm, xterm_terminal};
use std::alloc::Global;

/// Reads the source, whose first bytes are the first `read` of `piece`, to its end. Gives the screen of what the
/// terminal's model makes of its document, or the offset of the event at which the model ends. `modelled` has taken no
/// event.
fn show_source<S: Source, R: Reading + Drop>(
    named: Named,
    input: &mut S,
    piece: &mut [u8; PIECE],
    read: usize,
    modelled: Modelled<R>,
) -> Result<Result<Screen, u64>, InputFault>
    requires { IsFirst piece.old read (S.state input.old).remaining }
    ensures shown { (background : SomeParts) (sides : ℕ × ℕ) → DrawsNothingFirst named
        → R.model ≡ model_of named → HasFollowed R.model R.has_seen modelled [] []
        → modelled.progress.drawing.terminal ≡ terminal_on named background [] sides
        → IfOk result (λ given. IfSome (with_first piece.old read (S.state input.old).remaining) (λ bytes.
        GivesScreen named background sides bytes given)) }
    ensures refused { IfErr result (λ fault.
        IfSome (with_first piece.old read (S.state input.old).remaining) (Explains fault)) }
    ensures failures { (S.state input.new).failures ≡ failures_after result (S.state input.old).failures }
    ensures unread { result ≡ Err ReadFault →
        IfSome (with_first piece.old read (S.state input.old).remaining)
        (NoFaultBefore (S.state input.new).remaining) }
    ensures memory { result ≢ Err InputFault.OutOfMemory }
{
    match draw(input, piece, read, named.hears(), modelled)? {
        Ok(drawing) => Ok(Ok(drawing.finish())),
        Err(place) => Ok(Err(place)),
    }
}

/// Reads the source, whose first bytes are the first `read` of `piece`, to its end, and keeps none of it. Gives what
/// `show_on` shows of its document, on a terminal whose model draws nothing before the first event, or the offset of the
/// event at which the model ends. After `OutOfMemory` nothing more is read, and `piece` is as it was.
pub fn show_at_once<S: Source>(
    alloc: Global,
    named: Named,
    background: Colour,
    width: u32,
    height: u32,
    input: &mut S,
    piece: &mut [u8; PIECE],
    read: usize,
) -> Result<Result<Screen, u64>, InputFault>
    requires first { IsFirst piece.old read (S.state input.old).remaining }
    requires sides { IsTrue (is_screen_side width && is_screen_side height) }
    requires opening { named ≢ Named.Konsole }
    ensures shown { IfOk result (λ given. IfSome (with_first piece.old read (S.state input.old).remaining) (λ bytes.
        GivesScreen named background (width, height) bytes given)) }
    ensures refused { IfErr result (λ fault.
        IfSome (with_first piece.old read (S.state input.old).remaining) (Explains fault)) }
    ensures failures { (S.state input.new).failures ≡ failures_after result (S.state input.old).failures }
    ensures unread { result ≡ Err ReadFault →
        IfSome (with_first piece.old read (S.state input.old).remaining)
        (NoFaultBefore (S.state input.new).remaining) }
    ensures memory { result ≡ Err InputFault.OutOfMemory → S.state input.new ≡ S.state input.old }
    ensures kept { result ≡ Err InputFault.OutOfMemory → piece.new ≡ piece.old }
{
    match named {
        Named::XTerm => {
            let drawing = Drawing::new(alloc, xterm_terminal(alloc, background, width, height)?)?;
            show_source(Named::XTerm, input, piece, read, as_xterm(drawing))
        }
        Named::MlTerm => {
            let drawing = Drawing::new(alloc, mlterm_terminal(alloc, background, width, height)?)?;
            show_source(Named::MlTerm, input, piece, read, as_mlterm(drawing))
        }
        Named::Foot => {
            let drawing = Drawing::new(alloc, foot_terminal(alloc, background, width, height)?)?;
            show_source(Named::Foot, input, piece, read, as_foot(alloc, drawing)?)
        }
        Named::Konsole => unreachable!(),
    }
}
