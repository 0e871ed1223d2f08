//! Makes a picture of a screen that was drawn over a mark: a colour that shows which pixels aren't painted.

ghost use Rattle.std.specs.Prelude.{◌≡◌, ◌≤◌, ℕ, IfErr, IfOk, IfSome, IsTrue, List, Option, false, map};
ghost use Rattle.sixel_model.specs.declared.colour.Parts.{Parts as AColour};
ghost use Rattle.sixel_model.specs.declared.colour.Parts.TheVariants.{Hls};
ghost use Rattle.sixel_model.specs.Colours.{is_same};
ghost use Rattle.sixel_model.specs.Profiles.{count_of};
ghost use Rattle.sixel_terminal.specs.Screens.{colour_in_ink};
ghost use Rattle.sixel_mend.specs.declared.mending.MendFault.TheVariants.{OutOfMemory};
ghost use Rattle.sixel_mend.specs.Marking.{IsMarked, IsNumbered, IsSettled, is_hls};

use crate::mending::MendFault;
use crate::numbering::{PictureParts, parts_of};
use sixel_model::{Colour, Palette, Parts, Profile};
use sixel_terminal::Pixel;
use std::alloc::Global;

/// A lightness with which an HLS colour isn't this one.
fn other_lightness(colour: Colour) -> u8
    ensures small { result ≤ 100 }
    ensures other { is_same (Hls 0 result 0) colour ≡ false }
{
    match colour.parts() {
        Parts::Rgb(_, _, _) => 0,
        Parts::Hls(_, lightness, _) => { if lightness == 0 { 100 } else { 0 } }
    }
}

/// The mark: an HLS colour that isn't the background's. A string without a definition in HLS paints nothing in it.
pub(crate) fn mark_for(background: Colour) -> Colour
    ensures hls { IsTrue (is_hls result) }
    ensures other { is_same result background ≡ false }
{
    Colour::hls(0, other_lightness(background), 0).unwrap()
}

/// Makes the palette of a screen over the mark that of the same screen over the background. `false`: with this palette
/// that can't be done, and it stays as it is.
///
/// Without the mark in it, each pixel is painted. Otherwise the background's colour takes the mark's place, if the
/// string paints in neither.
fn settle(palette: &mut Palette, mark: Colour, background: Colour, has_hls: bool) -> bool
    requires { is_same mark background ≡ false }
    ensures { IsTrue result → (count : ℕ) (registers : List ℕ) (colours : List AColour)
        (painted : List (Option AColour)) → IsNumbered count palette.old registers colours
        → IsMarked mark has_hls painted colours → IsSettled count palette.new registers background painted }
{
    let Some(register) = palette.index_of(mark) else {
        return true;
    };
    if has_hls || palette.index_of(background).is_some() {
        return false;
    }
    palette.set(register as u8, background);
    true
}

/// The parts of the picture over the background, from the pixels of a screen over the mark. `None`: they can't be told
/// from these pixels.
pub(crate) fn settled_parts(
    alloc: Global,
    profile: Profile,
    mark: Colour,
    background: Colour,
    has_hls: bool,
    pixels: &[Pixel],
) -> Result<Option<PictureParts>, MendFault>
    requires { is_same mark background ≡ false }
    ensures settled { IfOk result (λ found. IfSome found (λ parts. (painted : List (Option AColour))
        → IsMarked mark has_hls painted (map colour_in_ink pixels.now)
        → IsSettled (count_of profile) parts.palette parts.registers.items background painted)) }
    ensures refused { IfErr result (λ fault. fault ≡ OutOfMemory) }
{
    match parts_of(alloc, profile, pixels) {
        Ok(parts) => Ok(settled(parts, mark, background, has_hls)),
        Err(MendFault::TooManyColours) => Ok(None),
        Err(_) => Err(MendFault::OutOfMemory),
    }
}

/// These parts, with the background in place of the mark, if that can be done.
fn settled(
    parts: PictureParts,
    mark: Colour,
    background: Colour,
    has_hls: bool,
) -> Option<PictureParts>
    requires { is_same mark background ≡ false }
    ensures { IfSome result (λ settled. (count : ℕ) (colours : List AColour) (painted : List (Option AColour))
        → IsNumbered count parts.palette parts.registers.items colours → IsMarked mark has_hls painted colours
        → IsSettled count settled.palette settled.registers.items background painted) }
{
    let PictureParts {
        mut palette,
        registers,
    } = parts;
    if settle(&mut palette, mark, background, has_hls) {
        Some(PictureParts { palette, registers })
    } else {
        None
    }
}
