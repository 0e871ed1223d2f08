//! Laws about the definitions. Each function's contract is the law.

ghost use Rattle.sixel_model.specs.Laws.{BlankGridsAreBlank, RunsPaintTheirPixels};

/// No pixel of a blank plane has a register.
pub fn blank_grids_are_blank()
    ensures { BlankGridsAreBlank }
{}

/// A run gives its pixels the register, and leaves each other pixel as it was.
pub fn runs_paint_their_pixels()
    ensures { RunsPaintTheirPixels }
{}
