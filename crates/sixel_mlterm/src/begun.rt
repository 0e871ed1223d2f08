//! A drawing as mlterm reads events, before any event.

ghost use Rattle.std.specs.Prelude.{◌≡◌, []};
ghost use Rattle.sixel_terminal.specs.Drawings.{HasDrawn};
ghost use Rattle.sixel_mlterm.specs.MlTerm.{mlterm_model};
ghost use Rattle.sixel_mlterm.specs.MlTermSeen.{HasSeenMlTerm};
ghost use Rattle.sixel_emulator.specs.Modelled.{HasFollowed};

use crate::mlterm::MlTerm;
use sixel_emulator::{Modelled, UnsaidControls};
use sixel_terminal::Drawing;

/// A drawing as mlterm reads events.
pub fn as_mlterm(drawing: Drawing) -> Modelled<MlTerm>
    requires { HasDrawn drawing [] }
    ensures terminal { result.progress.drawing.terminal ≡ drawing.terminal }
    ensures followed { HasFollowed mlterm_model HasSeenMlTerm result [] [] }
{
    let controls = UnsaidControls {
        introducer: false,
        terminator: false,
    };
    Modelled::new(MlTerm::new(), controls, drawing, None)
}
