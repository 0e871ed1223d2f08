//! A drawing as konsole reads events, before any event.

ghost use Rattle.std.specs.Prelude.{◌≡◌, []};
ghost use Rattle.sixel_terminal.specs.Drawings.{HasDrawn};
ghost use Rattle.sixel_konsole.specs.Konsole.{konsole_model};
ghost use Rattle.sixel_konsole.specs.KonsoleSeen.{HasSeenKonsole};
ghost use Rattle.sixel_emulator.specs.Modelled.{HasFollowed, opening_of};
ghost use Rattle.sixel_konsole.specs.Measuring.{HasTakenAll};

use crate::konsole::Konsole;
use crate::measuring::Measuring;
use sixel_emulator::{Modelled, UnsaidControls};
use sixel_grammar::{Both, Command};
use sixel_terminal::Drawing;

/// A drawing as konsole reads events. It draws `opening` first: the rectangle of the document, if it has one.
pub fn as_konsole(drawing: Drawing, opening: Option<Command>) -> Modelled<Konsole>
    requires { HasDrawn drawing [] }
    ensures terminal { result.progress.drawing.terminal ≡ drawing.terminal }
    ensures followed { HasFollowed konsole_model HasSeenKonsole result (opening_of opening) [] }
{
    let controls = UnsaidControls {
        introducer: true,
        terminator: true,
    };
    Modelled::new(Konsole::new(), controls, drawing, opening)
}

/// A drawing as konsole reads events, without its rectangle, which is measured meanwhile.
pub type OnKonsole = Both<Modelled<Konsole>, Measuring>;

/// Such a drawing, before any event.
pub fn as_konsole_at_once(drawing: Drawing) -> OnKonsole
    requires { HasDrawn drawing [] }
    ensures terminal { result.one.progress.drawing.terminal ≡ drawing.terminal }
    ensures followed { HasFollowed konsole_model HasSeenKonsole result.one [] [] }
    ensures measured { HasTakenAll result.other [] }
{
    Both {
        one: as_konsole(drawing, None),
        other: Measuring::new(),
    }
}
