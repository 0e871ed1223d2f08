//! Reads a document, and draws what a model makes of it.

ghost use Rattle.std.specs.Prelude.{◌≡◌, ◌≢◌, [], Err, IfErr, IfOk, IfSome, List};
ghost use Rattle.sixel_grammar.specs.declared.command.Event.{Event as AnEvent};
ghost use Rattle.sixel_grammar.specs.declared.command.Placed.{Placed as Place};
ghost use Rattle.sixel_grammar.specs.declared.fault.InputFault.TheVariants.{Read as ReadFault};
ghost use Rattle.sixel_grammar.specs.Document.{Document, events_of};
ghost use Rattle.sixel_grammar.specs.Faults.{IsFaultOf};
ghost use Rattle.sixel_grammar.specs.Reading.{Explains, NoFaultBefore, failures_after};
ghost use Rattle.sixel_grammar.specs.FirstPiece.{IsFirst, with_first};
ghost use Rattle.sixel_emulator.specs.Heard.{heard_in};
ghost use Rattle.sixel_emulator.specs.Modelled.{HasFollowed, ModelGives};

use crate::heard_source::hear_rest;
use crate::hearing::{Hearing, Hears, Omitted};
use crate::looking::omitted_in;
use crate::modelled::Modelled;
use crate::reading::Reading;
use sixel_grammar::{Fault, InputFault, follow_document};
use sixel_io::{PIECE, Source};
use sixel_terminal::Drawing;

/// Reads the source, whose first bytes are the first `read` of `piece`, to its end. Gives the drawing of its document, or
/// the offset of the event at which the model ends. `modelled` has taken no event.
pub fn draw<S: Source, R: Reading + Drop>(
    input: &mut S,
    piece: &mut [u8; PIECE],
    read: usize,
    hears: Hears,
    modelled: Modelled<R>,
) -> Result<Result<Drawing, u64>, InputFault>
    requires { IsFirst piece.old read (S.state input.old).remaining }
    ensures terminal { IfOk result (λ given. IfOk given (λ d. d.terminal ≡ modelled.progress.drawing.terminal)) }
    ensures gives { IfOk result (λ given. IfSome (with_first piece.old read (S.state input.old).remaining) (λ bytes.
        (placed : List Place) × Document placed bytes × ((opening : List AnEvent)
        → HasFollowed R.model R.has_seen modelled opening []
        → ModelGives R.model opening (heard_in hears bytes placed) given))) }
    ensures refused { IfErr result (λ fault.
        IfSome (with_first piece.old read (S.state input.old).remaining) (Explains fault)) }
    ensures failures { (S.state input.new).failures ≡ failures_after result (S.state input.old).failures }
    ensures unread { result ≡ Err ReadFault →
        IfSome (with_first piece.old read (S.state input.old).remaining)
        (NoFaultBefore (S.state input.new).remaining) }
    ensures memory { result ≢ Err InputFault.OutOfMemory }
{
    let mut hearing = Hearing {
        listener: modelled,
        omitted: Omitted::nothing(),
    };
    hear_rest(input, piece, read, hears, &mut hearing)?;
    Ok(hearing.listener.finish())
}

/// The same for a document that is in memory. `Fault`: the bytes are no document.
pub fn draw_bytes<R: Reading + Drop>(
    bytes: &[u8],
    hears: Hears,
    modelled: Modelled<R>,
) -> Result<Result<Drawing, u64>, Fault>
    ensures terminal { IfOk result (λ given. IfOk given (λ d. d.terminal ≡ modelled.progress.drawing.terminal)) }
    ensures gives { IfOk result (λ given. (placed : List Place) × Document placed bytes.now × ((opening : List AnEvent)
        → HasFollowed R.model R.has_seen modelled opening []
        → ModelGives R.model opening (heard_in hears bytes.now placed) given)) }
    ensures refused { IfErr result (IsFaultOf bytes.now) }
{
    let mut hearing = Hearing {
        listener: modelled,
        omitted: omitted_in(hears, bytes),
    };
    follow_document(bytes, &mut hearing)?;
    Ok(hearing.listener.finish())
}
