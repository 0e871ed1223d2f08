//! Reads a source to its end, hands its events on, and looks meanwhile for what only its bytes tell.

ghost use Rattle.std.specs.Prelude.{◌≡◌, ◌<◌, ◌+◌, ◌++◌, ◌^◌, [], ℕ, Err, IfErr, IfSome, List, OnOk, length};
ghost use Rattle.sixel_io.specs.Devices.{ReadsToEnd};
ghost use Rattle.sixel_grammar.specs.Following.{HoldsIn};
ghost use Rattle.sixel_grammar.specs.Reading.{NoFaultBefore};
ghost use Rattle.sixel_grammar.specs.Source.{FollowsSource, HaltsSource, failures_of};
ghost use Rattle.sixel_grammar.specs.Pieces.{holds_longer};
ghost use Rattle.sixel_grammar.specs.declared.source.SourceHalt.TheVariants.{Read as SourceRead};
ghost use Rattle.sixel_emulator_check.specs.Looks.{HasFollowed, HasLooked};

use crate::trailer::TrailingSpaces;
use sixel_grammar::{Follower, Halt, PieceReader, Reader, SourceHalt, follow_bytes, read_source};
use sixel_io::{PIECE, Source};
use sixel_omissions::BareSelects;

/// The rules of which only the bytes of a string tell.
#[derive(Clone, Copy, Debug, PartialEq, Eq)]
pub struct Looks {
    /// `Bare`.
    pub bare: BareSelects,
    /// `SpaceAfter`.
    pub spaces: TrailingSpaces,
}

impl Looks {
    /// No byte has come.
    pub fn new() -> Looks
        ensures { HasLooked result [] }
    {
        Looks {
            bare: BareSelects::new(),
            spaces: TrailingSpaces::new(),
        }
    }

    /// Looks at the bytes that come next.
    #[inline(always)]
    fn look(&mut self, bytes: &[u8])
        requires { (before : List ℕ) × HasLooked self.old before × (length before + length bytes.now < 2 ^ 64) }
        ensures { (before : List ℕ) → HasLooked self.old before → HasLooked self.new (before ++ bytes.now) }
    {
        self.bare.look(bytes);
        self.spaces.look(bytes);
    }
}

/// It looks at the bytes of each piece before their events are handed on.
impl<F: Follower> PieceReader<F> for Looks {
    type Stop = F::Stop;

    ghost has_read = { HasFollowed F.has_taken };

    ghost may_end = { λ first start follower now stop bytes. HoldsIn (F.may_stop first follower stop) bytes };

    #[inline(always)]
    fn read_piece(
        &mut self,
        reader: &mut Reader,
        follower: &mut F,
        piece: &[u8],
    ) -> Result<(), Halt<F::Stop>> {
        self.look(piece);
        follow_bytes(reader, follower, piece)
    }

    ghost stands = { λ first start reader follower now bytes h. (h.0.events, h.0.read) };

    ghost longer = { λ first start follower now stop bytes rest h.
        holds_longer (F.may_stop first follower stop) bytes rest h };
}

/// As `follow_source`. `looks` looks at the bytes of each piece before their events are handed on.
#[inline(always)]
pub fn follow_looking<I: Source, F: Follower>(
    input: &mut I,
    piece: &mut [u8; PIECE],
    follower: &mut F,
    looks: &mut Looks,
) -> Result<(), SourceHalt<F::Stop>>
    requires untaken { (first : F) × F.has_taken first follower.old [] }
    requires unseen { HasLooked looks.old [] }
    ensures followed { OnOk result (FollowsSource F.has_taken follower.old follower.new
        (I.state input.old).remaining) }
    ensures halted { IfErr result (λ halt. IfSome (I.state input.old).remaining
        (HaltsSource F.has_taken F.may_stop follower.old follower.new halt)) }
    ensures seen { OnOk result (IfSome (I.state input.old).remaining (HasLooked looks.new)) }
    ensures failures { (I.state input.new).failures ≡ failures_of result (I.state input.old).failures }
    ensures unread { result ≡ Err SourceRead →
        IfSome (I.state input.old).remaining (NoFaultBefore (I.state input.new).remaining) }
    ensures left { ReadsToEnd result (I.state input.old).remaining (I.state input.new).remaining }
{
    read_source(input, piece, follower, looks)
}
