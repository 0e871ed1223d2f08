//! What the named terminals show of a document.

ghost use Rattle.std.specs.Prelude.{◌≡◌, ◌≢◌, ◌≤◌, ◌&&◌, ℕ, Err, IfErr, IfOk, IsTrue, List, MatchResult};
ghost use Rattle.sixel_grammar.specs.declared.command.Placed.{Placed as Place};
ghost use Rattle.sixel_grammar.specs.Document.{Document, events_of};
ghost use Rattle.sixel_model.specs.Pictures.{is_side};
ghost use Rattle.sixel_terminal.specs.Limits.{is_screen_side};
ghost use Rattle.sixel_named_terminals.specs.declared.named.Named.{Named as ANamed};
ghost use Rattle.sixel_named_terminals.specs.Named.{heard_on};
ghost use Rattle.sixel_mend.specs.declared.mending.Mending.{Mending as AMending};
ghost use Rattle.sixel_mend.specs.Measuring.{HasMeasured};
ghost use Rattle.sixel_mend.specs.Mended.{Mends};
ghost use Rattle.sixel_mend.specs.Sizes.{IsSize};
ghost use Rattle.sixel_differ.specs.declared.view.Views.{Views as SomeViews};
ghost use Rattle.sixel_differ.specs.Comparisons.{IsComparison};
ghost use Rattle.sixel_differ.specs.Faults.{IsDifferFault, IsReadingFault};
ghost use Rattle.sixel_differ.specs.Views.{AreViews, HaveSides, IsInBands, IsView, view_in};

use crate::comparison::Comparison;
use crate::drawings::{begin, draw_all, views_of};
use crate::fault::DifferFault;
use crate::view::Views;
use sixel_mend::{Extent, MendFault, extent_of, size_of};
use sixel_model::{BAND_ROWS, Colour};
use std::alloc::Global;

/// The same fault. No size has too many colours.
fn fault_of_size(fault: MendFault) -> DifferFault
    requires { (bytes : List ℕ) × ((registers : ℕ) (mending : AMending) → Mends registers mending bytes (Err fault)) }
    ensures { (bytes : List ℕ) → ((registers : ℕ) (mending : AMending) → Mends registers mending bytes (Err fault))
        → (mending : AMending) → IsDifferFault mending bytes result }
{
    match fault {
        MendFault::Grammar(fault) => DifferFault::Grammar(fault),
        MendFault::Empty => DifferFault::Empty,
        MendFault::TooLarge => DifferFault::TooLarge,
        MendFault::TooManyColours => unreachable!(),
        MendFault::OutOfMemory => DifferFault::OutOfMemory,
    }
}

/// The width and the height of the mended picture of a document of this extent.
fn sides_of(extent: &Extent) -> Result<(u32, u32), DifferFault>
    requires { (bytes : List ℕ) × HasMeasured extent.now bytes }
    ensures sides { IfOk result (λ sides. IsTrue (is_side sides.0 && is_side sides.1)) }
    ensures sized { IfOk result (λ sides. (bytes : List ℕ) → HasMeasured extent.now bytes
        → (placed : List Place) × Document placed bytes
        × ((mending : AMending) → IsSize mending (events_of placed) sides.0 sides.1)) }
    ensures refused { IfErr result (λ fault. (bytes : List ℕ) → HasMeasured extent.now bytes
        → (mending : AMending) → IsDifferFault mending bytes fault) }
{
    match size_of(extent) {
        Ok(sides) => Ok(sides),
        Err(fault) => Err(fault_of_size(fault)),
    }
}

/// The least height of whole bands that isn't less.
fn in_bands(height: u32) -> u32
    requires { IsTrue (is_side height) }
    ensures bands { IsInBands height result }
    ensures side { IsTrue (is_screen_side result) }
{
    height.div_ceil(BAND_ROWS) * BAND_ROWS
}

/// What each named terminal shows of a document, on screens of these sides.
fn views_on(
    alloc: Global,
    background: Colour,
    width: u32,
    height: u32,
    bytes: &[u8],
) -> Result<Views, DifferFault>
    requires { IsTrue (is_screen_side width && is_screen_side height) }
    ensures width { IfOk result (λ views. views.width ≡ width) }
    ensures height { IfOk result (λ views. views.height ≡ height) }
    ensures views { IfOk result (λ views. (named : ANamed) (placed : List Place) → Document placed bytes.now
        → IsView named background (width, height) (heard_on named bytes.now placed) (view_in views named)) }
    ensures refused { IfErr result (IsReadingFault bytes.now) }
{
    let begun = begin(alloc, background, width, height)?;
    let drawn = draw_all(bytes, begun)?;
    views_of(alloc, background, width, height, drawn, bytes)
}

/// What each named terminal shows of a document of this extent. Each screen has the size of the mended
/// picture, with the height rounded up to whole bands, and the background before; the picture begins at its top left.
///
/// The string is read once more, and again for konsole if its sixel pixels are higher than one pixel.
pub fn views_measured(
    alloc: Global,
    background: Colour,
    extent: &Extent,
    bytes: &[u8],
) -> Result<Views, DifferFault>
    requires { HasMeasured extent.now bytes.now }
    ensures views { IfOk result (AreViews background bytes.now) }
    ensures sides { IfOk result HaveSides }
    ensures refused { IfErr result (λ fault. (mending : AMending) → IsDifferFault mending bytes.now fault) }
{
    let (width, height) = sides_of(extent)?;
    views_on(alloc, background, width, in_bands(height), bytes)
}

/// As `views_measured`, of any bytes.
pub fn views(alloc: Global, background: Colour, bytes: &[u8]) -> Result<Views, DifferFault>
    ensures views { IfOk result (AreViews background bytes.now) }
    ensures sides { IfOk result HaveSides }
    ensures refused { IfErr result (λ fault. (mending : AMending) → IsDifferFault mending bytes.now fault) }
{
    let extent = extent_of(bytes)?;
    views_measured(alloc, background, &extent, bytes)
}

/// Compares what the named terminals show of a document, on screens of its size.
pub fn differ(alloc: Global, background: Colour, bytes: &[u8]) -> Result<Comparison, DifferFault>
    ensures compared { IfOk result (λ comparison. (views : SomeViews) × AreViews background bytes.now views
        × IsComparison views comparison) }
    ensures refused { IfErr result (λ fault. (mending : AMending) → IsDifferFault mending bytes.now fault) }
{
    Ok(views(alloc, background, bytes)?.compare())
}
