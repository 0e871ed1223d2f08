//! The named terminals draw a document in one reading.

ghost use Rattle.std.specs.Prelude.{◌≡◌, ◌&&◌, [], ℕ, IfErr, IfOk, IsTrue, List};
ghost use Rattle.sixel_grammar.specs.declared.command.Placed.{Placed as Place};
ghost use Rattle.sixel_grammar.specs.Document.{Document};
ghost use Rattle.sixel_model.specs.declared.colour.Parts.{Parts as SomeParts};
ghost use Rattle.sixel_terminal.specs.Limits.{is_screen_side};
ghost use Rattle.sixel_named_terminals.specs.declared.named.Named.{Named as ANamed};
ghost use Rattle.sixel_foot.specs.FootSeen.{HasSeenFoot};
ghost use Rattle.sixel_mlterm.specs.MlTermSeen.{HasSeenMlTerm};
ghost use Rattle.sixel_named_terminals.specs.Named.{DrawsNothingFirst, heard_on, model_of};
ghost use Rattle.sixel_xterm.specs.XTermSeen.{HasSeenXTerm};
ghost use Rattle.sixel_differ.specs.Drawings.{HasDrawn, HasDrawnKonsole, HaveDrawn, drawings_in, hearing_all};
ghost use Rattle.sixel_differ.specs.Drawings.{nothing_heard};
ghost use Rattle.sixel_differ.specs.Faults.{IsReadingFault};
ghost use Rattle.sixel_differ.specs.Views.{IsView, view_in};

use crate::apart::Apart;
use crate::fault::DifferFault;
use crate::view::{View, Views};
use sixel_emulator::{Hearing, Modelled, Omitted, RasterHeard, Reading, omitted_in};
use sixel_foot::{Foot, as_foot, foot_terminal};
use sixel_grammar::{Both, follow_document};
use sixel_konsole::{OnKonsole, as_konsole_at_once, konsole_terminal};
use sixel_mlterm::{MlTerm, as_mlterm, mlterm_terminal};
use sixel_model::Colour;
use sixel_named_terminals::{Named, ShowFault, konsole_screen};
use sixel_terminal::Drawing;
use sixel_xterm::{XTerm, as_xterm, xterm_terminal};
use std::alloc::{AllocError, Global};

/// The drawings while they take events.
type Hearings = Both<
    Both<Hearing<Modelled<XTerm>>, Hearing<Modelled<MlTerm>>>,
    Both<Modelled<Foot>, Hearing<OnKonsole>>,
>;

/// A drawing by the model of each terminal.
pub(crate) type Drawings = Both<
    Both<Modelled<XTerm>, Modelled<MlTerm>>,
    Both<Modelled<Foot>, OnKonsole>,
>;

/// The drawing of xterm, before any event.
fn begin_xterm(
    alloc: Global,
    background: Colour,
    width: u32,
    height: u32,
) -> Result<Modelled<XTerm>, AllocError>
    requires { IsTrue (is_screen_side width && is_screen_side height) }
    ensures { IfOk result (λ modelled.
        HasDrawn Named.XTerm HasSeenXTerm background (width, height) modelled []) }
{
    let terminal = xterm_terminal(alloc, background, width, height)?;
    Ok(as_xterm(Drawing::new(alloc, terminal)?))
}

/// The drawing of mlterm, before any event.
fn begin_mlterm(
    alloc: Global,
    background: Colour,
    width: u32,
    height: u32,
) -> Result<Modelled<MlTerm>, AllocError>
    requires { IsTrue (is_screen_side width && is_screen_side height) }
    ensures { IfOk result (λ modelled.
        HasDrawn Named.MlTerm HasSeenMlTerm background (width, height) modelled []) }
{
    let terminal = mlterm_terminal(alloc, background, width, height)?;
    Ok(as_mlterm(Drawing::new(alloc, terminal)?))
}

/// The drawing of foot, before any event.
fn begin_foot(
    alloc: Global,
    background: Colour,
    width: u32,
    height: u32,
) -> Result<Modelled<Foot>, AllocError>
    requires { IsTrue (is_screen_side width && is_screen_side height) }
    ensures { IfOk result (λ modelled.
        HasDrawn Named.Foot HasSeenFoot background (width, height) modelled []) }
{
    let terminal = foot_terminal(alloc, background, width, height)?;
    as_foot(alloc, Drawing::new(alloc, terminal)?)
}

/// The drawing of konsole, before any event.
fn begin_konsole(
    alloc: Global,
    background: Colour,
    width: u32,
    height: u32,
) -> Result<OnKonsole, AllocError>
    requires { IsTrue (is_screen_side width && is_screen_side height) }
    ensures { IfOk result (λ drawing. HasDrawnKonsole background (width, height) drawing []) }
{
    let terminal = konsole_terminal(alloc, background, 1, width, height)?;
    Ok(as_konsole_at_once(Drawing::new(alloc, terminal)?))
}

/// The drawings on screens of these sides, before any event.
pub(crate) fn begin(
    alloc: Global,
    background: Colour,
    width: u32,
    height: u32,
) -> Result<Drawings, AllocError>
    requires { IsTrue (is_screen_side width && is_screen_side height) }
    ensures { IfOk result (λ drawings. HaveDrawn background (width, height) drawings nothing_heard) }
{
    let xterm = begin_xterm(alloc, background, width, height)?;
    let mlterm = begin_mlterm(alloc, background, width, height)?;
    let foot = begin_foot(alloc, background, width, height)?;
    let konsole = begin_konsole(alloc, background, width, height)?;
    Ok(Both {
        one: Both {
            one: xterm,
            other: mlterm,
        },
        other: Both {
            one: foot,
            other: konsole,
        },
    })
}

/// The drawings while they take events: xterm, mlterm and konsole hear these otherwise.
fn hearing_all(drawings: Drawings, xterm: Omitted, mlterm: Omitted, konsole: Omitted) -> Hearings
    ensures { result ≡ hearing_all drawings xterm mlterm konsole }
{
    let Both { one, other } = drawings;
    Both {
        one: Both {
            one: Hearing {
                listener: one.one,
                omitted: xterm,
            },
            other: Hearing {
                listener: one.other,
                omitted: mlterm,
            },
        },
        other: Both {
            one: other.one,
            other: Hearing {
                listener: other.other,
                omitted: konsole,
            },
        },
    }
}

/// The drawings that have taken events.
fn drawings_in(hearings: Hearings) -> Drawings
    ensures { result ≡ drawings_in hearings }
{
    let Both { one, other } = hearings;
    Both {
        one: Both {
            one: one.one.listener,
            other: one.other.listener,
        },
        other: Both {
            one: other.one,
            other: other.other.listener,
        },
    }
}

/// The drawings after the document of these bytes. `drawings` have taken no event.
pub(crate) fn draw_all(bytes: &[u8], drawings: Drawings) -> Result<Drawings, DifferFault>
    ensures drawn { IfOk result (λ drawn. (placed : List Place) × Document placed bytes.now
        × ((background : SomeParts) (sides : ℕ × ℕ) → HaveDrawn background sides drawings nothing_heard
        → HaveDrawn background sides drawn (λ named. heard_on named bytes.now placed))) }
    ensures refused { IfErr result (IsReadingFault bytes.now) }
{
    let xterm = omitted_in(Named::XTerm.hears(), bytes);
    let mlterm = Omitted {
        bare: xterm.bare,
        raster: RasterHeard::AsTheyAre,
    };
    let konsole = omitted_in(Named::Konsole.hears(), bytes);
    let mut apart = Apart {
        follower: hearing_all(drawings, xterm, mlterm, konsole),
    };
    follow_document(bytes, &mut apart)?;
    Ok(drawings_in(apart.follower))
}

/// What is shown by the drawing of a terminal whose model draws nothing before the first event.
fn view_of<R: Reading + Drop>(modelled: Modelled<R>) -> View
    ensures { (named : ANamed) (background : SomeParts) (sides : ℕ × ℕ) (placed : List Place)
        → DrawsNothingFirst named → R.model ≡ model_of named
        → HasDrawn named R.has_seen background sides modelled placed
        → IsView named background sides placed result }
{
    match modelled.finish() {
        Ok(drawing) => View::Screen(drawing.finish()),
        Err(place) => View::Unmodelled(place),
    }
}

/// What konsole shows of the document of these bytes, which `drawing` has followed.
fn konsole_view(
    alloc: Global,
    background: Colour,
    width: u32,
    height: u32,
    drawing: OnKonsole,
    bytes: &[u8],
) -> Result<View, DifferFault>
    requires sides { IsTrue (is_screen_side width && is_screen_side height) }
    requires drawn { (placed : List Place) × Document placed bytes.now
        × HasDrawnKonsole background (width, height) drawing (heard_on Named.Konsole bytes.now placed) }
    ensures view { IfOk result (λ view. (placed : List Place) → Document placed bytes.now
        → IsView Named.Konsole background (width, height) (heard_on Named.Konsole bytes.now placed) view) }
    ensures refused { IfErr result (IsReadingFault bytes.now) }
{
    match konsole_screen(alloc, background, width, height, drawing, bytes) {
        Ok(screen) => Ok(View::Screen(screen)),
        Err(ShowFault::Grammar(_)) => unreachable!(),
        Err(ShowFault::Unmodelled(place)) => Ok(View::Unmodelled(place)),
        Err(ShowFault::OutOfMemory) => Err(DifferFault::OutOfMemory),
    }
}

/// What is shown by the drawings, which have followed the document of these bytes, on screens of these sides.
pub(crate) fn views_of(
    alloc: Global,
    background: Colour,
    width: u32,
    height: u32,
    drawings: Drawings,
    bytes: &[u8],
) -> Result<Views, DifferFault>
    requires sides { IsTrue (is_screen_side width && is_screen_side height) }
    requires drawn { (placed : List Place) × Document placed bytes.now
        × HaveDrawn background (width, height) drawings (λ named. heard_on named bytes.now placed) }
    ensures width { IfOk result (λ views. views.width ≡ width) }
    ensures height { IfOk result (λ views. views.height ≡ height) }
    ensures views { IfOk result (λ views. (named : ANamed) (placed : List Place) → Document placed bytes.now
        → IsView named background (width, height) (heard_on named bytes.now placed) (view_in views named)) }
    ensures refused { IfErr result (IsReadingFault bytes.now) }
{
    let Both { one, other } = drawings;
    let Both {
        one: xterm,
        other: mlterm,
    } = one;
    let Both {
        one: foot,
        other: konsole,
    } = other;
    Ok(Views {
        width,
        height,
        xterm: view_of(xterm),
        mlterm: view_of(mlterm),
        foot: view_of(foot),
        konsole: konsole_view(alloc, background, width, height, konsole, bytes)?,
    })
}
