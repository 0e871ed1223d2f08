//! Hears a source whose first bytes are read already.

ghost use Rattle.std.specs.Prelude.{◌≡◌, [], Err, IfErr, IfSome, OnOk};
ghost use Rattle.sixel_grammar.specs.Reading.{Explains, NoFaultBefore};
ghost use Rattle.sixel_grammar.specs.Source.{failures_of, fault_of_source};
ghost use Rattle.sixel_grammar.specs.declared.source.SourceHalt.TheVariants.{Read as SourceRead};
ghost use Rattle.sixel_grammar.specs.FirstPiece.{IsFirst, with_first};
ghost use Rattle.sixel_emulator.specs.Heard.{HasHeard, nothing_omitted};
ghost use Rattle.sixel_emulator.specs.Looking.{HasHeardPieces};

use crate::hearing::{Hearing, Hears};
use crate::listener::Listener;
use crate::looking::Looking;
use sixel_grammar::{Halt, PieceReader, Reader, SourceHalt, follow_bytes, read_rest};
use sixel_io::{PIECE, Source};
use std::convert::Infallible;

/// The bytes of each piece are looked at before their events are taken.
impl<F: Listener> PieceReader<Hearing<F>> for Looking {
    type Stop = Infallible;

    ghost has_read = { HasHeardPieces F.has_taken };

    ghost may_end = { λ first start hearing now stop bytes. ⊥ };

    #[inline(always)]
    fn read_piece(
        &mut self,
        reader: &mut Reader,
        hearing: &mut Hearing<F>,
        piece: &[u8],
    ) -> Result<(), Halt<Infallible>> {
        self.look(piece);
        hearing.omitted = self.omitted();
        follow_bytes(reader, hearing, piece)
    }

    ghost stands = { λ first start reader hearing now bytes h. (h.1.events, h.1.read) };

    ghost longer = { λ first start hearing now stop bytes rest h. h };
}

/// Reads a source to its end, and takes what is heard of its document. Its first bytes are read already: they are
/// the first `read` of `piece`, and `read` is 0 only at its end. `piece` is also the room for the bytes that are read at
/// once.
///
/// The bytes of each piece are looked at before their events are taken, for what the terminal `hears` otherwise. The
/// source isn't read after a fault or after its end.
#[inline(always)]
pub fn hear_rest<S: Source, F: Listener>(
    input: &mut S,
    piece: &mut [u8; PIECE],
    read: usize,
    hears: Hears,
    hearing: &mut Hearing<F>,
) -> Result<(), SourceHalt<Infallible>>
    requires first { IsFirst piece.old read (S.state input.old).remaining }
    requires unheard { hearing.old.omitted ≡ nothing_omitted }
    requires untaken { F.has_taken hearing.old.listener hearing.old.listener [] }
    ensures heard { OnOk result (HasHeard F.has_taken hears hearing.old.listener hearing.new.listener
        (with_first piece.old read (S.state input.old).remaining)) }
    ensures refused { IfErr result (λ halt. IfSome (with_first piece.old read (S.state input.old).remaining)
        (Explains (fault_of_source halt))) }
    ensures failures { (S.state input.new).failures ≡ failures_of result (S.state input.old).failures }
    ensures unread { result ≡ Err SourceRead →
        IfSome (with_first piece.old read (S.state input.old).remaining)
        (NoFaultBefore (S.state input.new).remaining) }
{
    let mut looking = Looking::new(hears);
    read_rest(input, piece, read, hearing, &mut looking)
}
