//! Draws a document on konsole while it is read. Its bytes are kept as long as they may be needed once more.

ghost use Rattle.std.specs.Prelude.{◌≡◌, ◌≢◌, ◌&&◌, ◌++◌, [], ℕ, Err, IfErr, IfOk, IfSome, IsTrue, List, OnOk};
ghost use Rattle.sixel_grammar.specs.declared.command.Event.{Event as AnEvent};
ghost use Rattle.sixel_grammar.specs.declared.fault.InputFault.TheVariants.{Read as ReadFault};
ghost use Rattle.sixel_grammar.specs.Reading.{Explains, NoFaultBefore, failures_after};
ghost use Rattle.sixel_terminal.specs.Limits.{is_screen_side};
ghost use Rattle.sixel_grammar.specs.FirstPiece.{IsFirst, with_first};
ghost use Rattle.sixel_konsole.specs.Konsole.{konsole_model};
ghost use Rattle.sixel_konsole.specs.KonsoleSeen.{HasSeenKonsole};
ghost use Rattle.sixel_konsole.specs.Measuring.{HasTakenAll};
ghost use Rattle.sixel_emulator.specs.Heard.{nothing_omitted};
ghost use Rattle.sixel_emulator.specs.Modelled.{HasFollowed};
ghost use Rattle.sixel_konsole.specs.Settings.{konsole_display};
ghost use Rattle.sixel_report.specs.declared.task.Area.{Area as AnArea};
ghost use Rattle.sixel_show.specs.NamedScreens.{HasDrawnPieces, IsDrawnOf, ShowsIn, Suffices};

use sixel_emulator::{Hearing, Hears, Looking, Omitted};
use sixel_grammar::{Halt, InputFault, PieceReader, Reader, read_rest};
use sixel_io::{PIECE, Source, kept_with};
use sixel_konsole::{OnKonsole, as_konsole_at_once, konsole_terminal};
use sixel_model::Colour;
use sixel_named_terminals::{Named, konsole_screen, low_konsole_screen};
use sixel_report::RunFault;
use sixel_terminal::{Drawing, Screen};
use std::alloc::{AllocError, Global};
use std::convert::Infallible;

/// What is kept of the bytes of a document.
#[derive(Debug, Drop)]
pub enum Kept {
    /// All of them.
    Bytes(Vec<u8>),
    /// None. They aren't needed, as sixel pixels are one pixel high.
    Needless,
    /// None, as there was no memory for all.
    Lost,
}

/// The bytes of a document that konsole draws: what it hears otherwise in them, and what is kept of them.
#[derive(Debug, Drop)]
struct KonsoleBytes {
    looking: Looking,
    kept: Kept,
}

/// It looks at the bytes of each piece before their events are taken, and keeps them afterwards.
impl PieceReader<Hearing<OnKonsole>> for KonsoleBytes {
    type Stop = Infallible;

    ghost has_read = { HasDrawnPieces };

    ghost may_end = { λ first start konsole now stop bytes. ⊥ };

    #[inline(always)]
    fn read_piece(
        &mut self,
        reader: &mut Reader,
        konsole: &mut Hearing<OnKonsole>,
        piece: &[u8],
    ) -> Result<(), Halt<Infallible>> {
        self.looking.read_piece(reader, konsole, piece)?;
        let kept = std::mem::replace(&mut self.kept, Kept::Lost);
        self.kept = kept_after(kept, &konsole.listener, piece);
        Ok(())
    }

    ghost stands = { λ first start reader konsole now bytes h. (h.drawn.1.events, h.drawn.1.read) };

    ghost longer = { λ first start konsole now stop bytes rest h. h };
}

/// A drawing on a screen of this width and height, before any event.
pub fn begin_konsole(
    alloc: Global,
    background: Colour,
    width: u32,
    height: u32,
) -> Result<Hearing<OnKonsole>, AllocError>
    requires { IsTrue (is_screen_side width && is_screen_side height) }
    ensures terminal { IfOk result (λ konsole. konsole.listener.one.progress.drawing.terminal
        ≡ konsole_display background 1 width height) }
    ensures unheard { IfOk result (λ konsole. konsole.omitted ≡ nothing_omitted) }
    ensures followed { IfOk result (λ konsole. HasFollowed konsole_model HasSeenKonsole konsole.listener.one [] []) }
    ensures measured { IfOk result (λ konsole. HasTakenAll konsole.listener.other []) }
{
    let terminal = konsole_terminal(alloc, background, 1, width, height)?;
    Ok(Hearing {
        listener: as_konsole_at_once(Drawing::new(alloc, terminal)?),
        omitted: Omitted::nothing(),
    })
}

/// What is kept after these bytes more. `konsole` has taken their events too.
fn kept_after(kept: Kept, konsole: &OnKonsole, more: &[u8]) -> Kept
    ensures { (bytes : List ℕ) (before later : List AnEvent) → Suffices kept bytes before
        → HasTakenAll konsole.now.other (before ++ later) → Suffices result (bytes ++ more.now) (before ++ later) }
{
    if konsole.other.stays_low() {
        return Kept::Needless;
    }
    match kept {
        Kept::Bytes(bytes) => match kept_with(Some(bytes), more) {
            Some(longer) => Kept::Bytes(longer),
            None => Kept::Lost,
        },
        Kept::Needless => Kept::Needless,
        Kept::Lost => Kept::Lost,
    }
}

/// Reads the source, whose first bytes are the first `read` of `piece`, to its end, and draws its document on konsole.
/// Returns what is kept of the bytes. It reads no piece after an invalid byte.
pub fn follow_on_konsole<S: Source>(
    alloc: Global,
    input: &mut S,
    piece: &mut [u8; PIECE],
    read: usize,
    konsole: &mut Hearing<OnKonsole>,
) -> Result<Kept, InputFault>
    requires first { IsFirst piece.old read (S.state input.old).remaining }
    requires unheard { konsole.old.omitted ≡ nothing_omitted }
    requires followed { HasFollowed konsole_model HasSeenKonsole konsole.old.listener.one [] [] }
    requires measured { HasTakenAll konsole.old.listener.other [] }
    ensures terminal { OnOk result (konsole.new.listener.one.progress.drawing.terminal
        ≡ konsole.old.listener.one.progress.drawing.terminal) }
    ensures drawn { IfOk result (λ kept. (bytes : List ℕ) × IsDrawnOf konsole.new.listener kept bytes
        × IfSome (with_first piece.old read (S.state input.old).remaining) (λ told. told ≡ bytes)) }
    ensures refused { IfErr result (λ fault.
        IfSome (with_first piece.old read (S.state input.old).remaining) (Explains fault)) }
    ensures memory { result ≢ Err InputFault.OutOfMemory }
    ensures failures { (S.state input.new).failures ≡ failures_after result (S.state input.old).failures }
    ensures unread { result ≡ Err ReadFault →
        IfSome (with_first piece.old read (S.state input.old).remaining)
        (NoFaultBefore (S.state input.new).remaining) }
{
    let mut bytes = KonsoleBytes {
        looking: Looking::new(Hears::Boxes),
        kept: Kept::Bytes(Vec::new(alloc)),
    };
    read_rest(input, piece, read, konsole, &mut bytes)?;
    Ok(bytes.kept)
}

/// The screen of konsole after the document that it has drawn. If its sixel pixels are higher than one pixel, the kept
/// bytes are read once more.
pub fn screen_by(
    alloc: Global,
    background: Colour,
    width: u32,
    height: u32,
    konsole: OnKonsole,
    kept: Kept,
) -> Result<Screen, RunFault>
    requires sides { IsTrue (is_screen_side width && is_screen_side height) }
    requires terminal { konsole.one.progress.drawing.terminal ≡ konsole_display background 1 width height }
    requires drawn { (bytes : List ℕ) × IsDrawnOf konsole kept bytes }
    ensures { (bytes : List ℕ) → IsDrawnOf konsole kept bytes
        → ShowsIn Named.Konsole background (AnArea.Sides width height) bytes result }
{
    match kept {
        Kept::Bytes(bytes) => Ok(konsole_screen(
            alloc, background, width, height, konsole, &bytes,
        )?),
        Kept::Needless => match low_konsole_screen(konsole) {
            Ok(screen) => Ok(screen),
            Err(place) => Err(RunFault::Unmodelled { place }),
        },
        Kept::Lost => Err(RunFault::OutOfMemory),
    }
}
