//! Keeps the bytes of a document while it is followed.

ghost use Rattle.sixel_grammar.specs.Following.{HoldsIn};
ghost use Rattle.sixel_grammar.specs.Pieces.{holds_longer};
ghost use Rattle.sixel_keeping.specs.Keeping.{HasKept};

use sixel_grammar::{Follower, Halt, PieceReader, Reader, follow_bytes};
use sixel_io::kept_with;

/// The bytes of a document so far.
#[derive(Debug, Drop)]
pub struct Keeping {
    /// None, if there was no memory for them.
    pub kept: Option<Vec<u8>>,
}

/// It keeps the bytes of each piece after their events are handed on.
impl<F: Follower> PieceReader<F> for Keeping {
    type Stop = F::Stop;

    ghost has_read = { HasKept F.has_taken };

    ghost may_end = { λ first start follower now stop bytes. HoldsIn (F.may_stop first follower stop) bytes };

    #[inline(always)]
    fn read_piece(
        &mut self,
        reader: &mut Reader,
        follower: &mut F,
        piece: &[u8],
    ) -> Result<(), Halt<F::Stop>> {
        follow_bytes(reader, follower, piece)?;
        self.kept = kept_with(self.kept.take(), piece);
        Ok(())
    }

    ghost stands = { λ first start reader follower now bytes h. (h.0.events, h.0.read) };

    ghost longer = { λ first start follower now stop bytes rest h.
        holds_longer (F.may_stop first follower stop) bytes rest h };
}
