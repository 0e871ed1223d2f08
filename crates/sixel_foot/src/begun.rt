//! A drawing as foot reads events, before any event.

ghost use Rattle.std.specs.Prelude.{◌≡◌, [], IfOk};
ghost use Rattle.sixel_terminal.specs.Drawings.{HasDrawn};
ghost use Rattle.sixel_foot.specs.Foot.{foot_model};
ghost use Rattle.sixel_foot.specs.FootSeen.{HasSeenFoot};
ghost use Rattle.sixel_emulator.specs.Modelled.{HasFollowed};

use crate::foot::Foot;
use sixel_emulator::{Modelled, UnsaidControls};
use sixel_terminal::Drawing;
use std::alloc::{AllocError, Global};

/// A drawing as foot reads events. `AllocError`: an allocation failed.
pub fn as_foot(alloc: Global, drawing: Drawing) -> Result<Modelled<Foot>, AllocError>
    requires { HasDrawn drawing [] }
    ensures terminal { IfOk result (λ modelled. modelled.progress.drawing.terminal ≡ drawing.terminal) }
    ensures followed { IfOk result (λ modelled. HasFollowed foot_model HasSeenFoot modelled [] []) }
{
    let foot = Foot::new(alloc)?;
    let controls = UnsaidControls {
        introducer: true,
        terminator: false,
    };
    Ok(Modelled::new(foot, controls, drawing, None))
}
