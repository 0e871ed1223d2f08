//! A drawing as xterm reads events, before any event.

ghost use Rattle.std.specs.Prelude.{◌≡◌, []};
ghost use Rattle.sixel_terminal.specs.Drawings.{HasDrawn};
ghost use Rattle.sixel_emulator.specs.Modelled.{HasFollowed};
ghost use Rattle.sixel_xterm.specs.XTerm.{xterm_model};
ghost use Rattle.sixel_xterm.specs.XTermSeen.{HasSeenXTerm};

use crate::xterm::XTerm;
use sixel_emulator::{Modelled, UnsaidControls};
use sixel_terminal::Drawing;

/// A drawing as xterm reads events.
pub fn as_xterm(drawing: Drawing) -> Modelled<XTerm>
    requires { HasDrawn drawing [] }
    ensures terminal { result.progress.drawing.terminal ≡ drawing.terminal }
    ensures followed { HasFollowed xterm_model HasSeenXTerm result [] [] }
{
    let controls = UnsaidControls {
        introducer: true,
        terminator: true,
    };
    Modelled::new(XTerm::new(), controls, drawing, None)
}
