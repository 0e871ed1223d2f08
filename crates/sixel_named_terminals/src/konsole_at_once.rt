//! Draws a document on konsole while it is read. Its rectangle is measured meanwhile, and laid under the drawing at the
//! end.

ghost use Rattle.std.specs.Prelude.{◌≡◌, ◌&&◌, ◌++◌, [], ℕ, IfSome, IsSome, IsTrue, List, false, true};
ghost use Rattle.sixel_grammar.specs.Document.{Document, events_of};
ghost use Rattle.sixel_grammar.specs.declared.command.Event.{Event as AnEvent};
ghost use Rattle.sixel_grammar.specs.declared.command.Placed.{Placed as Place};
ghost use Rattle.sixel_model.specs.declared.colour.Parts.{Parts as SomeParts};
ghost use Rattle.sixel_terminal.specs.Drawing.{screen_on};
ghost use Rattle.sixel_terminal.specs.Drawings.{HasDrawn};
ghost use Rattle.sixel_terminal.specs.Limits.{is_screen_side};
ghost use Rattle.sixel_named_terminals.specs.AtOnce.{IsLow};
ghost use Rattle.sixel_konsole.specs.Konsole.{StaysLow, konsole_model};
ghost use Rattle.sixel_konsole.specs.KonsoleSeen.{HasSeenKonsole};
ghost use Rattle.sixel_konsole.specs.Measuring.{HasTakenAll};
ghost use Rattle.sixel_emulator.specs.Modelled.{HasFollowed, opening_of};
ghost use Rattle.sixel_named_terminals.specs.Named.{GivesScreen, ShowsDocument, heard_on, tall_in};
ghost use Rattle.sixel_konsole.specs.Settings.{konsole_display};

use crate::named::Named;
use crate::showing::{ShowFault, show_on};
use sixel_grammar::{Both, Command};
use sixel_konsole::OnKonsole;
use sixel_model::Colour;
use sixel_terminal::{Drawing, Screen};
use std::alloc::Global;

/// Whether raster attributes of this ratio make sixel pixels one pixel high.
fn is_one_to_one(pan: u16, pad: u16) -> bool
    ensures { result ≡ true → (pan ≡ 1) × (pad ≡ 1) }
{
    pan == 1 && pad == 1
}

/// The screen of the drawing over this rectangle, if its sixel pixels are one pixel high.
fn screen_over(drawing: Drawing, rectangle: Option<Command>) -> Option<Screen>
    requires binds { drawing.terminal.choices.binds_at_showing ≡ true }
    requires unclipped { drawing.terminal.choices.clips ≡ false }
    ensures width { IfSome result (λ screen. screen.width ≡ drawing.terminal.choices.screen_width) }
    ensures height { IfSome result (λ screen. screen.height ≡ drawing.terminal.choices.screen_height) }
    ensures low { IsSome result → tall_in (opening_of rectangle) ≡ 1 }
    ensures shown { IfSome result (λ screen. (before : List AnEvent) → drawing.terminal.choices.tall ≡ 1
        → HasDrawn drawing before
        → screen.colours ≡ screen_on drawing.terminal (opening_of rectangle ++ before)) }
{
    match rectangle {
        None => Some(drawing.finish()),
        Some(
            Command::Raster {
                pan,
                pad,
                width,
                height,
            },
        ) if is_one_to_one(pan, pad) => Some(drawing.finish_over(width, height)),
        Some(_) => None,
    }
}

/// The screen of the drawing over this rectangle, if there is one. Its sixel pixels are one pixel high.
fn low_screen_over(drawing: Drawing, rectangle: Option<Command>) -> Screen
    requires binds { drawing.terminal.choices.binds_at_showing ≡ true }
    requires unclipped { drawing.terminal.choices.clips ≡ false }
    requires low { IsLow rectangle }
    ensures width { result.width ≡ drawing.terminal.choices.screen_width }
    ensures height { result.height ≡ drawing.terminal.choices.screen_height }
    ensures shown { (before : List AnEvent) → drawing.terminal.choices.tall ≡ 1 → HasDrawn drawing before
        → result.colours ≡ screen_on drawing.terminal (opening_of rectangle ++ before) }
{
    match rectangle {
        None => drawing.finish(),
        Some(Command::Raster { width, height, .. }) => drawing.finish_over(width, height),
        Some(_) => unreachable!(),
    }
}

/// The screen of konsole after a document that `konsole` has heard, and whose sixel pixels are one pixel high. `Err`: the
/// offset of the event at which the model ends.
pub fn low_konsole_screen(konsole: OnKonsole) -> Result<Screen, u64>
    requires binds { konsole.one.progress.drawing.terminal.choices.binds_at_showing ≡ true }
    requires unclipped { konsole.one.progress.drawing.terminal.choices.clips ≡ false }
    requires low { (events : List AnEvent) × HasTakenAll konsole.other events × StaysLow events }
    ensures { (background : SomeParts) (width height : ℕ) (placed : List Place) (bytes : List ℕ)
        → konsole.one.progress.drawing.terminal ≡ konsole_display background 1 width height → Document placed bytes
        → HasFollowed konsole_model HasSeenKonsole konsole.one [] (heard_on Named.Konsole bytes placed)
        → HasTakenAll konsole.other (events_of (heard_on Named.Konsole bytes placed))
        → GivesScreen Named.Konsole background (width, height) bytes result }
{
    let Both { one, other } = konsole;
    match one.finish() {
        Ok(drawing) => Ok(low_screen_over(drawing, other.finish())),
        Err(place) => Err(place),
    }
}

/// The screen of konsole after the document of these bytes, which `konsole` has heard. If its sixel pixels are higher
/// than one pixel, the bytes are read once more.
pub fn konsole_screen(
    alloc: Global,
    background: Colour,
    width: u32,
    height: u32,
    konsole: OnKonsole,
    bytes: &[u8],
) -> Result<Screen, ShowFault>
    requires sides { IsTrue (is_screen_side width && is_screen_side height) }
    requires terminal { konsole.one.progress.drawing.terminal ≡ konsole_display background 1 width height }
    requires taken { (placed : List Place) × Document placed bytes.now
        × HasFollowed konsole_model HasSeenKonsole konsole.one [] (heard_on Named.Konsole bytes.now placed)
        × HasTakenAll konsole.other (events_of (heard_on Named.Konsole bytes.now placed)) }
    ensures { ShowsDocument Named.Konsole background (width, height) bytes.now result }
{
    let Both { one, other } = konsole;
    let drawing = match one.finish() {
        Ok(drawing) => drawing,
        Err(place) => return Err(ShowFault::Unmodelled(place)),
    };
    let rectangle = other.finish();
    match screen_over(drawing, rectangle) {
        Some(screen) => Ok(screen),
        None => show_on(
            alloc,
            Named::Konsole,
            background,
            width,
            height,
            rectangle,
            bytes,
        ),
    }
}
