//! Reads a source to its end, piece by piece.

ghost use Rattle.std.specs.Prelude.{◌≡◌, ◌++◌, ◌≤◌, [], ℕ, Err, IfErr, IfSome, List, OnOk, length};
ghost use Rattle.sixel_io.specs.Devices.{ReadsToEnd};
ghost use Rattle.sixel_grammar.specs.FirstPiece.{IsFirst, with_first};
ghost use Rattle.sixel_grammar.specs.Following.{AreFollowed, HoldsIn};
ghost use Rattle.sixel_grammar.specs.Reading.{NoFaultBefore};
ghost use Rattle.sixel_grammar.specs.Source.{failures_of};
ghost use Rattle.sixel_grammar.specs.Standing.{StandsAfter};
ghost use Rattle.sixel_grammar.specs.Pieces.{Begins, EndsSource, HaltsPiece, ReadsPiece, ReadsSource, holds_longer};
ghost use Rattle.sixel_grammar.specs.declared.command.Placed.{Placed as PlacedValue};
ghost use Rattle.sixel_grammar.specs.declared.reader.Reader.{Reader as AReader};
ghost use Rattle.sixel_grammar.specs.declared.source.SourceHalt.TheVariants.{Read as SourceRead};

use crate::following::{Follower, follow_bytes};
use crate::halt::Halt;
use crate::reader::Reader;
use crate::source::SourceHalt;
use sixel_io::{PIECE, Source};

/// What reads a document piece by piece, with what follows its events.
pub trait PieceReader<F> {
    /// What ends it, beside a fault of the bytes.
    type Stop;

    /// `has_read first start reader follower now bytes`: what were `first` and `start` before these bytes are `follower`
    /// and `now` after them.
    ghost has_read: { F → Self → AReader → F → Self → List ℕ → Type 0 };

    /// `may_end first start follower now stop bytes`: they may end so within these bytes.
    ghost may_end: { F → Self → F → Self → Self.Stop → List ℕ → Type 0 };

    /// Reads one more piece, and hands its events on. A piece has at most `PIECE` bytes.
    fn read_piece(
        &mut self,
        reader: &mut Reader,
        follower: &mut F,
        piece: &[u8],
    ) -> Result<(), Halt<Self::Stop>>
        requires before { (first : F) × (start : Self) × (bytes : List ℕ)
            × has_read first start reader.old follower.old self.old bytes }
        requires room { length piece.now ≤ 65536 }
        ensures read { OnOk result
            (ReadsPiece has_read reader.old follower.old self.old reader.new follower.new self.new piece.now) }
        ensures halted { IfErr result
            (HaltsPiece has_read may_end reader.old follower.old self.old follower.new self.new piece.now) };

    /// The reader stands after the bytes.
    ghost stands: { (first : F) (start : Self) (reader : AReader) (follower : F) (now : Self) (bytes : List ℕ)
        → has_read first start reader follower now bytes → (events : List PlacedValue) × StandsAfter reader events bytes };

    /// More bytes don't matter.
    ghost longer: { (first : F) (start : Self) (follower : F) (now : Self) (stop : Self.Stop) (bytes rest : List ℕ)
        → may_end first start follower now stop bytes → may_end first start follower now stop (bytes ++ rest) };
}

/// Hands its events on, and does no more.
impl<F: Follower> PieceReader<F> for () {
    type Stop = F::Stop;

    ghost has_read = { λ first start reader follower now bytes. AreFollowed (F.has_taken first) reader follower bytes };

    ghost may_end = { λ first start follower now stop bytes. HoldsIn (F.may_stop first follower stop) bytes };

    #[inline(always)]
    fn read_piece(
        &mut self,
        reader: &mut Reader,
        follower: &mut F,
        piece: &[u8],
    ) -> Result<(), Halt<F::Stop>> {
        follow_bytes(reader, follower, piece)
    }

    ghost stands = { λ first start reader follower now bytes h. (h.events, h.read) };

    ghost longer = { λ first start follower now stop bytes rest h.
        holds_longer (F.may_stop first follower stop) bytes rest h };
}

/// Reads a source to its end. Its first bytes are read already: they are the first `read` of `piece`, and `read` is 0 only
/// at its end. `piece` is also the room for the bytes that are read at once.
///
/// The first halt ends it: `Read` (a call of the source failed), `Refused` (the bytes are no document) or `Stopped` (the
/// follower stopped). The source isn't read after a halt or after its end.
#[inline(always)]
pub fn read_rest<I: Source, F, P: PieceReader<F>>(
    input: &mut I,
    piece: &mut [u8; PIECE],
    read: usize,
    follower: &mut F,
    pieces: &mut P,
) -> Result<(), SourceHalt<P::Stop>>
    requires first { IsFirst piece.old read (I.state input.old).remaining }
    requires unread { (first : F) × (start : P) × Begins P.has_read first start follower.old pieces.old }
    ensures read { OnOk result (ReadsSource P.has_read follower.old pieces.old follower.new pieces.new
        (with_first piece.old read (I.state input.old).remaining)) }
    ensures halted { IfErr result (λ halt. IfSome (with_first piece.old read (I.state input.old).remaining)
        (EndsSource P.has_read P.may_end follower.old pieces.old follower.new pieces.new halt)) }
    ensures failures { (I.state input.new).failures ≡ failures_of result (I.state input.old).failures }
    ensures unread { result ≡ Err SourceRead → IfSome (with_first piece.old read (I.state input.old).remaining)
        (NoFaultBefore (I.state input.new).remaining) }
    ensures left { ReadsToEnd result (with_first piece.old read (I.state input.old).remaining)
        (I.state input.new).remaining }
{
    let mut reader = Reader::new();
    let mut count = read;
    while count > 0 {
        pieces.read_piece(&mut reader, follower, &piece[..count])?;
        count = input.fill(piece)?;
    }
    reader.finish()?;
    Ok(())
}

/// As `read_rest`, where nothing is read yet.
#[inline(always)]
pub fn read_source<I: Source, F, P: PieceReader<F>>(
    input: &mut I,
    piece: &mut [u8; PIECE],
    follower: &mut F,
    pieces: &mut P,
) -> Result<(), SourceHalt<P::Stop>>
    requires { (first : F) × (start : P) × Begins P.has_read first start follower.old pieces.old }
    ensures read { OnOk result (ReadsSource P.has_read follower.old pieces.old follower.new pieces.new
        (I.state input.old).remaining) }
    ensures halted { IfErr result (λ halt. IfSome (I.state input.old).remaining
        (EndsSource P.has_read P.may_end follower.old pieces.old follower.new pieces.new halt)) }
    ensures failures { (I.state input.new).failures ≡ failures_of result (I.state input.old).failures }
    ensures unread { result ≡ Err SourceRead →
        IfSome (I.state input.old).remaining (NoFaultBefore (I.state input.new).remaining) }
    ensures left { ReadsToEnd result (I.state input.old).remaining (I.state input.new).remaining }
{
    let read = input.fill(piece)?;
    read_rest(input, piece, read, follower, pieces)
}
