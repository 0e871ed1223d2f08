//! Reads a source to its end, hands its events on, and looks for selects without a number meanwhile.

ghost use Rattle.std.specs.Prelude.{◌≡◌, [], Err, IfErr, IfSome, OnOk};
ghost use Rattle.sixel_io.specs.Devices.{ReadsToEnd};
ghost use Rattle.sixel_grammar.specs.Following.{AreFollowed, HoldsIn};
ghost use Rattle.sixel_grammar.specs.Reading.{NoFaultBefore};
ghost use Rattle.sixel_grammar.specs.Source.{FollowsSource, HaltsSource, failures_of};
ghost use Rattle.sixel_grammar.specs.Pieces.{holds_longer};
ghost use Rattle.sixel_grammar.specs.declared.source.SourceHalt.TheVariants.{Read as SourceRead};
ghost use Rattle.sixel_omissions.specs.Seen.{HasSeenBare};

use crate::bare::BareSelects;
use sixel_grammar::{Follower, Halt, PieceReader, Reader, SourceHalt, follow_bytes, read_source};
use sixel_io::{PIECE, Source};

/// It looks at the bytes of each piece before their events are handed on.
impl<F: Follower> PieceReader<F> for BareSelects {
    type Stop = F::Stop;

    ghost has_read = { λ first start reader follower now bytes.
        AreFollowed (F.has_taken first) reader follower bytes × HasSeenBare now bytes };

    ghost may_end = { λ first start follower now stop bytes. HoldsIn (F.may_stop first follower stop) bytes };

    #[inline(always)]
    fn read_piece(
        &mut self,
        reader: &mut Reader,
        follower: &mut F,
        piece: &[u8],
    ) -> Result<(), Halt<F::Stop>> {
        self.look(piece);
        follow_bytes(reader, follower, piece)
    }

    ghost stands = { λ first start reader follower now bytes h. (h.0.events, h.0.read) };

    ghost longer = { λ first start follower now stop bytes rest h.
        holds_longer (F.may_stop first follower stop) bytes rest h };
}

/// As `follow_source`. `bare` looks at the bytes of each piece before their events are handed on.
#[inline(always)]
pub fn follow_noting<I: Source, F: Follower>(
    input: &mut I,
    piece: &mut [u8; PIECE],
    follower: &mut F,
    bare: &mut BareSelects,
) -> Result<(), SourceHalt<F::Stop>>
    requires untaken { (first : F) × F.has_taken first follower.old [] }
    requires unseen { HasSeenBare bare.old [] }
    ensures followed { OnOk result (FollowsSource F.has_taken follower.old follower.new
        (I.state input.old).remaining) }
    ensures halted { IfErr result (λ halt. IfSome (I.state input.old).remaining
        (HaltsSource F.has_taken F.may_stop follower.old follower.new halt)) }
    ensures seen { OnOk result (IfSome (I.state input.old).remaining (HasSeenBare bare.new)) }
    ensures failures { (I.state input.new).failures ≡ failures_of result (I.state input.old).failures }
    ensures unread { result ≡ Err SourceRead →
        IfSome (I.state input.old).remaining (NoFaultBefore (I.state input.new).remaining) }
    ensures left { ReadsToEnd result (I.state input.old).remaining (I.state input.new).remaining }
{
    read_source(input, piece, follower, bare)
}
