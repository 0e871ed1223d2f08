//! Makes a portable picture of a string.

ghost use Rattle.std.specs.Prelude.{◌≡◌, ◌&&◌, ℕ, Err, IfErr, IfOk, IsTrue, List};
ghost use Rattle.sixel_grammar.specs.declared.command.Placed.{Placed as Place};
ghost use Rattle.sixel_grammar.specs.Document.{Document, events_of};
ghost use Rattle.sixel_grammar.specs.Faults.{IsFaultOf};
ghost use Rattle.sixel_model.specs.Pictures.{is_side};
ghost use Rattle.sixel_model.specs.Profiles.{count_of};
ghost use Rattle.sixel_mend.specs.declared.mending.Mending.{Mending as AMending};
ghost use Rattle.sixel_mend.specs.Judging.{IsReadingFault, judged};
ghost use Rattle.sixel_mend.specs.Measuring.{HasMeasured};
ghost use Rattle.sixel_mend.specs.Marking.{IsMarkedScreen};
ghost use Rattle.sixel_mend.specs.Mended.{Mends, MendsNoting, mended_colours};
ghost use Rattle.sixel_mend.specs.Sizes.{IsSize};

use crate::extent::Extent;
use crate::hiding::hidden_between;
use crate::marking::{mark_for, settled_parts};
use crate::mending::{MendFault, Mended, Mending};
use crate::numbering::parts_of;
use crate::terminal::terminal_of;
use sixel_grammar::{Fault, follow_document};
use sixel_model::{MOST_SIDE, Picture, Profile};
use sixel_terminal::{Drawing, Screen};
use std::alloc::Global;

/// Makes a portable picture of a sixel string: what a terminal shows of it, on a screen that has all of its paint and its
/// declared box. `encode` writes it as text.
///
/// The string is read two or three times, first for its size. Nothing is allocated for a string whose size no picture
/// may have.
pub fn mend(
    alloc: Global,
    profile: Profile,
    mending: &Mending,
    bytes: &[u8],
) -> Result<Picture, MendFault>
    ensures { Mends (count_of profile) mending.now bytes.now result }
{
    let extent = extent_of(bytes)?;
    let mended = mend_measured(alloc, profile, mending, &extent, bytes)?;
    Ok(mended.picture)
}

/// The extent of the document of these bytes.
pub fn extent_of(bytes: &[u8]) -> Result<Extent, Fault>
    ensures measured { IfOk result (λ extent. HasMeasured extent bytes.now) }
    ensures refused { IfErr result (IsFaultOf bytes.now) }
{
    let mut extent = Extent::new();
    follow_document(bytes, &mut extent)?;
    Ok(extent)
}

/// As `mend`, for a document of this extent. It also counts the painted pixels that look like those that
/// aren't painted.
///
/// The string is drawn over a mark, a colour that shows which pixels aren't painted. It is drawn again, over the
/// background, only if the first screen doesn't tell the picture: if some pixels aren't painted, and others may be
/// painted in the mark or in the background's colour, or if there are too many colours.
pub fn mend_measured(
    alloc: Global,
    profile: Profile,
    mending: &Mending,
    extent: &Extent,
    bytes: &[u8],
) -> Result<Mended, MendFault>
    requires { HasMeasured extent.now bytes.now }
    ensures { MendsNoting (count_of profile) mending.now bytes.now result }
{
    let (width, height) = size_of(extent)?;
    let has_hls = extent.has_hls;
    let background = mending.background;
    let mark = mark_for(background);
    let marking = Mending {
        background: mark,
        ..*mending
    };
    let screen = screen_of(alloc, &marking, width, height, bytes)?;
    match settled_parts(alloc, profile, mark, background, has_hls, screen.pixels())? {
        Some(parts) => Ok(Mended {
            picture: parts.into_picture(width, height),
            hidden: 0,
        }),
        None => mend_again(alloc, profile, mending, width, height, bytes, &screen),
    }
}

/// The picture of a string that was drawn over a mark, and what it hides. The string is drawn again, over the background.
fn mend_again(
    alloc: Global,
    profile: Profile,
    mending: &Mending,
    width: u32,
    height: u32,
    bytes: &[u8],
    marked: &Screen,
) -> Result<Mended, MendFault>
    requires sides { IsTrue (is_side width && is_side height) }
    requires marked { IsMarkedScreen mending.now bytes.now width height marked.now.colours }
    ensures { MendsNoting (count_of profile) mending.now bytes.now result }
{
    let screen = screen_of(alloc, mending, width, height, bytes)?;
    let parts = parts_of(alloc, profile, screen.pixels())?;
    let hidden = hidden_between(marked.pixels(), screen.pixels());
    Ok(Mended {
        picture: parts.into_picture(width, height),
        hidden,
    })
}

/// Refuses a size that no picture may have.
fn judge(width: u32, height: u32) -> Result<(), MendFault>
    ensures { result ≡ judged width height }
{
    if width == 0 || height == 0 {
        return Err(MendFault::Empty);
    }
    if width > MOST_SIDE || height > MOST_SIDE {
        return Err(MendFault::TooLarge);
    }
    Ok(())
}

/// The width and the height of the picture that `mend` makes of a document of this extent, in pixels. `Empty`,
/// `TooLarge`: there is no such picture.
pub fn size_of(extent: &Extent) -> Result<(u32, u32), MendFault>
    ensures sides { IfOk result (λ sides. IsTrue (is_side sides.0 && is_side sides.1)) }
    ensures sized { IfOk result (λ sides. (bytes : List ℕ) → HasMeasured extent.now bytes
        → (events : List Place) × Document events bytes
        × ((mending : AMending) → IsSize mending (events_of events) sides.0 sides.1)) }
    ensures refused { IfErr result (λ fault. (bytes : List ℕ) → HasMeasured extent.now bytes
        → (registers : ℕ) (mending : AMending) → Mends registers mending bytes (Err fault)) }
{
    let (width, height) = extent.size();
    judge(width, height)?;
    Ok((width, height))
}

/// What the terminal shows of a document.
fn screen_of(
    alloc: Global,
    mending: &Mending,
    width: u32,
    height: u32,
    bytes: &[u8],
) -> Result<Screen, MendFault>
    requires { IsTrue (is_side width && is_side height) }
    ensures shown { IfOk result (λ screen. (events : List Place) × Document events bytes.now
        × (screen.colours ≡ mended_colours mending.now (events_of events) width height)) }
    ensures refused { IfErr result (IsReadingFault bytes.now) }
{
    let mut drawing = Drawing::new(alloc, terminal_of(alloc, mending, width, height)?)?;
    follow_document(bytes, &mut drawing)?;
    Ok(drawing.finish())
}
