//! Shows a document as a named terminal does.

ghost use Rattle.std.specs.Prelude.{◌≡◌, ◌&&◌, ◌<◌, [], ℕ, IsTrue, List};
ghost use Rattle.sixel_grammar.specs.declared.command.Event.{Event as AnEvent};
ghost use Rattle.sixel_model.specs.declared.colour.Parts.{Parts as SomeParts};
ghost use Rattle.sixel_terminal.specs.Limits.{is_screen_side};
ghost use Rattle.sixel_emulator.specs.Modelled.{HasFollowed, opening_of};
ghost use Rattle.sixel_named_terminals.specs.Named.{ShowsOn, model_of, tall_in, terminal_on};

use crate::named::Named;
use sixel_emulator::{Modelled, Reading, draw_bytes};
use sixel_foot::{as_foot, foot_terminal};
use sixel_grammar::{Command, Fault};
use sixel_konsole::{as_konsole, konsole_terminal};
use sixel_mlterm::{as_mlterm, mlterm_terminal};
use sixel_model::Colour;
use sixel_terminal::{Drawing, Screen};
use sixel_xterm::{as_xterm, xterm_terminal};
use std::alloc::{AllocError, Global};

/// Why nothing is shown.
#[derive(Clone, Copy, Debug, PartialEq, Eq)]
pub enum ShowFault {
    /// The bytes are no document.
    Grammar(Fault),
    /// The model ends at the event with this offset.
    Unmodelled(u64),
    /// An allocation failed.
    OutOfMemory,
}

impl From<AllocError> for ShowFault {
    ghost use Rattle.std.specs.Prelude.{◌≡◌};
    ghost use Rattle.sixel_named_terminals.specs.declared.showing.ShowFault.TheVariants.{OutOfMemory};

    ghost from_gives = { λ fault result. result ≡ OutOfMemory };

    fn from(_: AllocError) -> ShowFault {
        ShowFault::OutOfMemory
    }
}

/// The screen of what the terminal's model makes of the document of these bytes. `modelled` has taken no event.
fn show_bytes<R: Reading + Drop>(
    named: Named,
    bytes: &[u8],
    modelled: Modelled<R>,
) -> Result<Screen, ShowFault>
    ensures { (background : SomeParts) (sides : ℕ × ℕ) (opening : List AnEvent)
        → R.model ≡ model_of named → HasFollowed R.model R.has_seen modelled opening []
        → modelled.progress.drawing.terminal ≡ terminal_on named background opening sides
        → ShowsOn named background sides opening bytes.now result }
{
    match draw_bytes(bytes, named.hears(), modelled) {
        Ok(Ok(drawing)) => Ok(drawing.finish()),
        Ok(Err(place)) => Err(ShowFault::Unmodelled(place)),
        Err(fault) => Err(ShowFault::Grammar(fault)),
    }
}

/// What xterm shows.
fn show_on_xterm(
    alloc: Global,
    background: Colour,
    width: u32,
    height: u32,
    bytes: &[u8],
) -> Result<Screen, ShowFault>
    requires { IsTrue (is_screen_side width && is_screen_side height) }
    ensures { ShowsOn Named.XTerm background (width, height) [] bytes.now result }
{
    let terminal = xterm_terminal(alloc, background, width, height)?;
    show_bytes(
        Named::XTerm,
        bytes,
        as_xterm(Drawing::new(alloc, terminal)?),
    )
}

/// What mlterm shows.
fn show_on_mlterm(
    alloc: Global,
    background: Colour,
    width: u32,
    height: u32,
    bytes: &[u8],
) -> Result<Screen, ShowFault>
    requires { IsTrue (is_screen_side width && is_screen_side height) }
    ensures { ShowsOn Named.MlTerm background (width, height) [] bytes.now result }
{
    let terminal = mlterm_terminal(alloc, background, width, height)?;
    show_bytes(
        Named::MlTerm,
        bytes,
        as_mlterm(Drawing::new(alloc, terminal)?),
    )
}

/// What foot shows.
fn show_on_foot(
    alloc: Global,
    background: Colour,
    width: u32,
    height: u32,
    bytes: &[u8],
) -> Result<Screen, ShowFault>
    requires { IsTrue (is_screen_side width && is_screen_side height) }
    ensures { ShowsOn Named.Foot background (width, height) [] bytes.now result }
{
    let terminal = foot_terminal(alloc, background, width, height)?;
    show_bytes(
        Named::Foot,
        bytes,
        as_foot(alloc, Drawing::new(alloc, terminal)?)?,
    )
}

/// The height of a sixel pixel that konsole's rectangle gives. It is at least 1.
#[tactic(auto, unfolding(sixel_model::specs::Positions::latest))]
fn tall_in(opening: Option<Command>) -> u16
    ensures value { result ≡ tall_in (opening_of opening) }
    ensures positive { 0 < result }
{
    match opening {
        Some(Command::Raster { pan, .. }) => pan.max(1),
        _ => 1,
    }
}

/// What konsole shows. `opening` is its rectangle.
fn show_on_konsole(
    alloc: Global,
    background: Colour,
    width: u32,
    height: u32,
    opening: Option<Command>,
    bytes: &[u8],
) -> Result<Screen, ShowFault>
    requires { IsTrue (is_screen_side width && is_screen_side height) }
    ensures { ShowsOn Named.Konsole background (width, height) (opening_of opening) bytes.now result }
{
    let terminal = konsole_terminal(alloc, background, tall_in(opening), width, height)?;
    show_bytes(
        Named::Konsole,
        bytes,
        as_konsole(Drawing::new(alloc, terminal)?, opening),
    )
}

/// What a named terminal shows of the document of these bytes. Its whole screen has the background before; its width
/// and height are in pixels, and the picture begins at its top left. `opening` is what the model draws before the first
/// event.
pub fn show_on(
    alloc: Global,
    named: Named,
    background: Colour,
    width: u32,
    height: u32,
    opening: Option<Command>,
    bytes: &[u8],
) -> Result<Screen, ShowFault>
    requires { IsTrue (is_screen_side width && is_screen_side height) }
    ensures { ShowsOn named background (width, height) (opening_of opening) bytes.now result }
{
    match named {
        Named::XTerm => show_on_xterm(alloc, background, width, height, bytes),
        Named::MlTerm => show_on_mlterm(alloc, background, width, height, bytes),
        Named::Foot => show_on_foot(alloc, background, width, height, bytes),
        Named::Konsole => show_on_konsole(alloc, background, width, height, opening, bytes),
    }
}
