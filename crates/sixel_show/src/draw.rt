//! Reads a document, and draws it or not.

ghost use Rattle.std.specs.Prelude.{◌≡◌, ◌≢◌, [], Err, IfErr, IfSome, List, OnOk};
ghost use Rattle.sixel_grammar.specs.declared.command.Placed.{Placed as Place};
ghost use Rattle.sixel_grammar.specs.Document.{Document, IsDocument, events_of};
ghost use Rattle.sixel_grammar.specs.declared.fault.InputFault.TheVariants.{Read as ReadFault};
ghost use Rattle.sixel_grammar.specs.Reading.{Explains, NoFaultBefore, failures_after};
ghost use Rattle.sixel_grammar.specs.FirstPiece.{IsFirst, with_first};
ghost use Rattle.sixel_show.specs.Watching.{HasWatched};

use crate::watched::Watched;
use sixel_emulator::follow_rest;
use sixel_grammar::{InputFault, follow_source};
use sixel_io::{PIECE, Source};

/// Reads the source to its end, and draws the events of its document. It keeps none of them.
pub fn draw<S: Source>(
    input: &mut S,
    piece: &mut [u8; PIECE],
    watched: &mut Watched,
) -> Result<(), InputFault>
    requires { HasWatched watched.old [] }
    ensures terminal { OnOk result (watched.new.drawing.terminal ≡ watched.old.drawing.terminal) }
    ensures drawn { OnOk result (IfSome (S.state input.old).remaining (λ bytes.
        (events : List Place) × Document events bytes × HasWatched watched.new (events_of events))) }
    ensures refused { IfErr result (λ fault. IfSome (S.state input.old).remaining (Explains fault)) }
    ensures failures { (S.state input.new).failures ≡ failures_after result (S.state input.old).failures }
    ensures unread { result ≡ Err ReadFault →
        IfSome (S.state input.old).remaining (NoFaultBefore (S.state input.new).remaining) }
    ensures memory { result ≢ Err InputFault.OutOfMemory }
{
    Ok(follow_source(input, piece, watched)?)
}

/// Reads the source to its end, and keeps nothing.
pub fn read_whole<S: Source>(input: &mut S, piece: &mut [u8; PIECE]) -> Result<(), InputFault>
    ensures read { OnOk result (IfSome (S.state input.old).remaining IsDocument) }
    ensures refused { IfErr result (λ fault. IfSome (S.state input.old).remaining (Explains fault)) }
    ensures failures { (S.state input.new).failures ≡ failures_after result (S.state input.old).failures }
    ensures unread { result ≡ Err ReadFault →
        IfSome (S.state input.old).remaining (NoFaultBefore (S.state input.new).remaining) }
    ensures memory { result ≢ Err InputFault.OutOfMemory }
{
    Ok(follow_source(input, piece, &mut ())?)
}

/// The same of a source whose first bytes are the first `read` of `piece`.
pub fn read_rest<S: Source>(
    input: &mut S,
    piece: &mut [u8; PIECE],
    read: usize,
) -> Result<(), InputFault>
    requires { IsFirst piece.old read (S.state input.old).remaining }
    ensures read { OnOk result (IfSome (with_first piece.old read (S.state input.old).remaining) IsDocument) }
    ensures refused { IfErr result (λ fault.
        IfSome (with_first piece.old read (S.state input.old).remaining) (Explains fault)) }
    ensures failures { (S.state input.new).failures ≡ failures_after result (S.state input.old).failures }
    ensures unread { result ≡ Err ReadFault →
        IfSome (with_first piece.old read (S.state input.old).remaining)
        (NoFaultBefore (S.state input.new).remaining) }
    ensures memory { result ≢ Err InputFault.OutOfMemory }
{
    Ok(follow_rest(input, piece, read, &mut ())?)
}
