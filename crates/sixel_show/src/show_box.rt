//! Shows a sixel picture on a screen as large as its declared box.

ghost use Rattle.std.specs.Prelude.{◌≡◌, ◌++◌, ◌≤◌, [], ℕ, Err, List, IfErr, IfOk, IfSome, IsTrue, OnOk};
ghost use Rattle.sixel_grammar.specs.declared.command.Event.{Event as AnEvent};
ghost use Rattle.sixel_grammar.specs.declared.command.Placed.{Placed as Place};
ghost use Rattle.sixel_grammar.specs.Document.{Document, events_of};
ghost use Rattle.sixel_grammar.specs.Following.{AreFollowed, FollowsBytes};
ghost use Rattle.sixel_grammar.specs.Prefixes.{CompleteIn};
ghost use Rattle.sixel_grammar.specs.declared.fault.InputFault.TheVariants.{Grammar, Read as ReadFault};
ghost use Rattle.sixel_grammar.specs.Reading.{Explains, ExplainsAlways, NoFaultBefore, failures_after};
ghost use Rattle.sixel_ppm.specs.Ppm.{is_file_side};
ghost use Rattle.sixel_terminal.specs.Displays.{Display};
ghost use Rattle.sixel_show.specs.Boxes.{EndsStage, HasRead, HasReadInBox, IsShownInBox, IsStageAfter};
ghost use Rattle.sixel_show.specs.Boxes.{declared_longer, terminal_of_kind};
ghost use Rattle.sixel_report.specs.declared.fault.RunFault.TheVariants.{Read};
ghost use Rattle.sixel_report.specs.Outputs.{CountsWrites, WrotePicture, failures_by};
ghost use Rattle.sixel_show.specs.Outputs.{ShowBoxGives};
ghost use Rattle.sixel_show.specs.Screens.{DeclareScreenIn, screen_terminal, sides_of_box};
ghost use Rattle.sixel_show.specs.Watching.{HasWatched};

use crate::box_finder::BoxFinder;
use crate::screen::{Shown, write_shown};
use crate::show::{nothing_drawn, show_choices};
use crate::watched::Watched;
use sixel_grammar::{
    Fault, Follower, Halt, InputFault, PieceReader, Reader, follow_bytes, read_source,
};
use sixel_io::{PIECE, Sink, Source, kept_with};
use sixel_model::Profile;
use sixel_report::{MOST_SCREEN_SIDE, PictureFormat, RunFault, Status};
use std::alloc::{AllocError, Global};
use std::convert::Infallible;

/// A terminal of `show`, whose screen may have any sides.
#[derive(Clone, Copy, Debug)]
struct Kind {
    profile: Profile,
    showing: bool,
    fill: bool,
    selects: bool,
}

/// What is known of the screen after a part of a document.
#[derive(Debug, Drop)]
enum Stage {
    /// No box is declared yet. All bytes so far are kept, since the box may come after painting; none, if there was no
    /// memory for them.
    Undeclared(Option<Vec<u8>>),
    /// The events so far are drawn on a screen with the sides of the declared box.
    Drawn(Watched),
    /// No screen can have the sides of the declared box.
    Unshowable,
}

/// A document that is drawn on a screen with the sides of its declared box.
#[derive(Drop)]
struct InBox {
    alloc: Global,
    kind: Kind,
    stage: Stage,
}

/// It ends without memory only once a box of a screen's size is declared.
impl PieceReader<()> for InBox {
    type Stop = AllocError;

    ghost has_read = { HasReadInBox };

    ghost may_end = { λ first start nothing now stop bytes. DeclareScreenIn bytes };

    #[inline(always)]
    fn read_piece(
        &mut self,
        reader: &mut Reader,
        _nothing: &mut (),
        piece: &[u8],
    ) -> Result<(), Halt<AllocError>> {
        match std::mem::replace(&mut self.stage, Stage::Unshowable) {
            Stage::Undeclared(kept) => {
                self.stage = look_for_box(self.alloc, self.kind, kept, reader, piece)?;
                Ok(())
            }
            Stage::Drawn(mut watched) => {
                follow(reader, &mut watched, piece)?;
                self.stage = Stage::Drawn(watched);
                Ok(())
            }
            Stage::Unshowable => Ok(follow(reader, &mut (), piece)?),
        }
    }

    ghost stands = { λ first start reader nothing now bytes h. (h.1.events, h.1.read) };

    ghost longer = { λ first start nothing now stop bytes rest h. declared_longer bytes rest h };
}

/// Draws the document on a terminal with a screen of the size of the declared box while it reads it, and writes the
/// screen. It doesn't flush. The terminal is that of `show` with these choices.
pub fn show_box<S: Source, K: Sink>(
    alloc: Global,
    profile: Profile,
    showing: bool,
    fill: bool,
    selects: bool,
    format: PictureFormat,
    input: &mut S,
    piece: &mut [u8; PIECE],
    output: &mut K,
) -> Result<Status, RunFault>
    ensures wrote { IfSome (S.state input.old).remaining (λ bytes.
        WrotePicture format (ShowBoxGives profile (screen_terminal profile showing fill selects) bytes) result
        (K.state output.old).taken (K.state output.new).taken) }
    ensures memory { result ≡ Err RunFault.OutOfMemory → IfSome (S.state input.old).remaining DeclareScreenIn }
    ensures reads { (S.state input.new).failures ≡ failures_by Read result (S.state input.old).failures }
    ensures unread { result ≡ Err Read →
        IfSome (S.state input.old).remaining (NoFaultBefore (S.state input.new).remaining) }
    ensures writes { CountsWrites result (K.state output.old).failures (K.state output.new).failures }
{
    let kind = Kind {
        profile,
        showing,
        fill,
        selects,
    };
    match read_box_shown(alloc, kind, input, piece)? {
        Some(shown) => write_shown(format, &shown, output),
        None => Err(RunFault::NoBox),
    }
}

/// What the terminal shows after the document, if a screen can have the sides of its declared box.
fn read_box_shown<S: Source>(
    alloc: Global,
    kind: Kind,
    input: &mut S,
    piece: &mut [u8; PIECE],
) -> Result<Option<Shown>, InputFault>
    ensures shown { IfOk result (λ shown. IfSome (S.state input.old).remaining (λ bytes.
        (events : List Place) × Document events bytes
        × IsShownInBox kind.profile (terminal_of_kind kind) shown (events_of events))) }
    ensures refused { IfErr result (λ fault. IfSome (S.state input.old).remaining (Explains fault)) }
    ensures failures { (S.state input.new).failures ≡ failures_after result (S.state input.old).failures }
    ensures unread { result ≡ Err ReadFault →
        IfSome (S.state input.old).remaining (NoFaultBefore (S.state input.new).remaining) }
    ensures memory { result ≡ Err InputFault.OutOfMemory → IfSome (S.state input.old).remaining DeclareScreenIn }
{
    let mut in_box = InBox {
        alloc,
        kind,
        stage: Stage::Undeclared(Some(Vec::new(alloc))),
    };
    read_source(input, piece, &mut (), &mut in_box)?;
    Ok(in_box.stage.shown(kind.profile))
}

impl Stage {
    /// What is shown, if there is a screen.
    fn shown(self, profile: Profile) -> Option<Shown>
        ensures { (terminal : ℕ × ℕ → Display) (events : List AnEvent) (bytes : List ℕ) →
            IsStageAfter terminal self events bytes → IsShownInBox profile terminal result events }
    {
        match self {
            Stage::Drawn(watched) => Some(watched.finish(profile)),
            _ => None,
        }
    }
}

/// Reads one more piece after these bytes, in which no box is declared. If the piece declares the box, draws all of
/// them.
fn look_for_box(
    alloc: Global,
    kind: Kind,
    kept: Option<Vec<u8>>,
    reader: &mut Reader,
    piece: &[u8],
) -> Result<Stage, Halt<AllocError>>
    requires { (bytes : List ℕ) × HasRead (terminal_of_kind kind) reader.old (Stage.Undeclared kept) bytes }
    ensures read { IfOk result (λ stage. (bytes : List ℕ) →
        HasRead (terminal_of_kind kind) reader.old (Stage.Undeclared kept) bytes →
        HasRead (terminal_of_kind kind) reader.new stage (bytes ++ piece.now)) }
    ensures halted { IfErr result (EndsStage (terminal_of_kind kind) reader.old (Stage.Undeclared kept) piece.now) }
{
    let mut finder = BoxFinder { found: None };
    follow(reader, &mut finder, piece)?;
    match finder.found {
        None => Ok(Stage::Undeclared(kept_with(kept, piece))),
        Some((width, height)) => match sides_of_box(width, height) {
            None => Ok(Stage::Unshowable),
            Some((width, height)) => {
                let Some(kept) = kept else {
                    return Err(Halt::Stopped(AllocError));
                };
                let Ok(watched) = begin_in_box(alloc, kind, width, height) else {
                    return Err(Halt::Stopped(AllocError));
                };
                Ok(Stage::Drawn(draw_bytes(watched, &kept, piece)?))
            }
        },
    }
}

/// A drawing of no events, on a screen of these sides.
fn begin_in_box(alloc: Global, kind: Kind, width: u32, height: u32) -> Result<Watched, AllocError>
    requires width { IsTrue (is_file_side width) }
    requires height { IsTrue (is_file_side height) }
    ensures terminal { IfOk result (λ watched. watched.drawing.terminal ≡ terminal_of_kind kind (width, height)) }
    ensures watched { IfOk result (λ watched. HasWatched watched []) }
{
    let choices = show_choices(kind.showing, kind.fill, kind.selects, width, height);
    nothing_drawn(alloc, kind.profile, choices)
}

/// Draws the events that are complete in these bytes and the piece after them.
fn draw_bytes(mut watched: Watched, bytes: &[u8], piece: &[u8]) -> Result<Watched, Fault>
    requires { HasWatched watched [] }
    ensures terminal { IfOk result (λ drawn. drawn.drawing.terminal ≡ watched.drawing.terminal) }
    ensures watched { IfOk result (λ drawn. (events : List Place) → CompleteIn events (bytes.now ++ piece.now) →
        HasWatched drawn (events_of events)) }
    ensures refused { IfErr result (λ fault. ExplainsAlways (Grammar fault) (bytes.now ++ piece.now)) }
{
    let mut reader = Reader::new();
    follow(&mut reader, &mut watched, bytes)?;
    follow(&mut reader, &mut watched, piece)?;
    Ok(watched)
}

/// Reads the bytes of a piece, and hands the events that they complete on to what never stops.
pub(crate) fn follow<F: Follower<Stop = Infallible>>(
    reader: &mut Reader,
    follower: &mut F,
    piece: &[u8],
) -> Result<(), Fault>
    requires { (first : F) × (prefix : List ℕ) × AreFollowed (F.has_taken first) reader.old follower.old prefix }
    ensures followed { OnOk result (FollowsBytes F.has_taken reader.old follower.old reader.new follower.new piece.now) }
    ensures refused { IfErr result (λ fault. (first : F) (prefix : List ℕ) →
        AreFollowed (F.has_taken first) reader.old follower.old prefix →
        ExplainsAlways (Grammar fault) (prefix ++ piece.now)) }
{
    Ok(follow_bytes(reader, follower, piece)?)
}

/// This width and height, if a screen can have them.
pub(crate) fn sides_of_box(width: u16, height: u16) -> Option<(u32, u32)>
    ensures value { result ≡ sides_of_box width height }
    ensures sides { IfSome result (λ sides. IsTrue (is_file_side sides.0) × IsTrue (is_file_side sides.1)) }
{
    if is_side(width) && is_side(height) {
        Some((width as u32, height as u32))
    } else {
        None
    }
}

/// Whether a screen can have this side, in pixels.
fn is_side(side: u16) -> bool
    ensures { result ≡ is_file_side side }
{
    1 <= side && u32::from(side) <= MOST_SCREEN_SIDE
}
