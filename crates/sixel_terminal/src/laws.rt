//! Laws about the definitions. Each function's contract is the law.

ghost use Rattle.sixel_terminal.specs.Laws.{ClippedIsUnpainted, KnownIsSelected, SamePointsOnEach};
ghost use Rattle.sixel_terminal.specs.Laws.{TerminalsAreInClass, UnpaintedStays, UnseenIsUnpainted};

/// Parts without a fault make a terminal of the class, for pictures with at most as many registers as it has.
pub fn terminals_are_in_class()
    ensures { TerminalsAreInClass }
{}

/// If a list has no repeat of 0, and each ratio is given as 1 to 1, an event after raster attributes covers the same
/// points on each terminal, before any clipping: those that it covers with bits of one row.
pub fn same_points_on_each()
    ensures { SamePointsOnEach }
{}

/// The known register, which was selected last and named last, is the selected one on each terminal that has it.
pub fn known_is_selected()
    ensures { KnownIsSelected }
{}

/// A pixel that no event paints shows what was there before.
pub fn unpainted_pixels_stay()
    ensures { UnpaintedStays }
{}

/// A terminal without 8-bit controls paints nothing of a list with an 8-bit start or finish. A terminal that clips and
/// keeps its ground paints no point outside the box of the first raster attributes, with any event after them.
pub fn some_pixels_are_unpainted()
    ensures unseen { UnseenIsUnpainted }
    ensures clipped { ClippedIsUnpainted }
{}
