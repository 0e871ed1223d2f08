//! Follows a source whose first bytes are read already.

ghost use Rattle.std.specs.Prelude.{◌≡◌, [], Err, IfErr, IfSome, OnOk};
ghost use Rattle.sixel_grammar.specs.Reading.{NoFaultBefore};
ghost use Rattle.sixel_grammar.specs.Source.{FollowsSource, HaltsSource, failures_of};
ghost use Rattle.sixel_grammar.specs.declared.source.SourceHalt.TheVariants.{Read as SourceRead};
ghost use Rattle.sixel_grammar.specs.FirstPiece.{IsFirst, with_first};

use sixel_grammar::{Follower, SourceHalt, read_rest};
use sixel_io::{PIECE, Source};

/// Reads a source to its end, and hands on the events of its document. Its first bytes are read already: they are the
/// first `read` of `piece`, and `read` is 0 only at its end. `piece` is also the room for the bytes that are read at
/// once.
///
/// The first halt ends it, as it does in `follow_source`. The source isn't read after a halt or after its end.
#[inline(always)]
pub fn follow_rest<S: Source, F: Follower>(
    input: &mut S,
    piece: &mut [u8; PIECE],
    read: usize,
    follower: &mut F,
) -> Result<(), SourceHalt<F::Stop>>
    requires first { IsFirst piece.old read (S.state input.old).remaining }
    requires untaken { (first : F) × F.has_taken first follower.old [] }
    ensures followed { OnOk result (FollowsSource F.has_taken follower.old follower.new
        (with_first piece.old read (S.state input.old).remaining)) }
    ensures halted { IfErr result (λ halt. IfSome (with_first piece.old read (S.state input.old).remaining)
        (HaltsSource F.has_taken F.may_stop follower.old follower.new halt)) }
    ensures failures { (S.state input.new).failures ≡ failures_of result (S.state input.old).failures }
    ensures unread { result ≡ Err SourceRead →
        IfSome (with_first piece.old read (S.state input.old).remaining)
        (NoFaultBefore (S.state input.new).remaining) }
{
    read_rest(input, piece, read, follower, &mut ())
}
