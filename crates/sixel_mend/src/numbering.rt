//! Makes the parts of a picture of pixels, whose colours get registers in the order in which they are first seen.

ghost use Rattle.std.specs.Prelude.{◌≡◌, ◌≤◌, ◌*◌, ◌&&◌, [], ℕ, IfErr, IfOk, IfSome, IsTrue, List, None, OnSome, Some};
ghost use Rattle.std.specs.Prelude.{◌≢◌, ◌+◌, ◌-◌, ◌++◌, OnOk, length, map, replicate, slice_get, vec_capacity};
ghost use Rattle.std.specs.Prelude.{vec_len};
ghost use Rattle.sixel_model.specs.declared.colour.Parts.{Parts};
ghost use Rattle.sixel_model.specs.Pictures.{is_side, picture_of_parts};
ghost use Rattle.sixel_model.specs.Profiles.{count_of};
ghost use Rattle.sixel_ppm.specs.PpmColours.{Fills, HasRegister, Numbers};
ghost use Rattle.sixel_ppm.specs.PpmReading.{with_colour};
ghost use Rattle.sixel_ppm.specs.PpmSamples.{HoldsPixels};
ghost use Rattle.sixel_terminal.specs.Screens.{colour_in_ink};
ghost use Rattle.sixel_mend.specs.Marking.{IsNumbered};
ghost use Rattle.sixel_mend.specs.Numbering.{AreAll, AreNumbered, IsNumberingFault, KnowsLast};

use crate::mending::MendFault;
use sixel_model::{Palette, Picture, Profile};
use sixel_ppm::Numbering;
use sixel_terminal::Pixel;
use std::alloc::Global;

/// A pixel, and the register of its colour.
#[derive(Clone, Copy, Debug)]
pub(crate) struct Numbered {
    pub pixel: Pixel,
    pub register: u8,
}

/// The palette of a picture, and the register of each pixel, row by row.
#[derive(Debug, Drop)]
pub(crate) struct PictureParts {
    pub palette: Palette,
    pub registers: Vec<u8>,
}

impl PictureParts {
    /// The picture of this size. The parts are those of some colours, one for each pixel.
    pub(crate) fn into_picture(self, width: u32, height: u32) -> Picture
        requires sides { IsTrue (is_side width && is_side height) }
        requires numbered { (count : ℕ) × (colours : List Parts)
            × IsNumbered count self.palette self.registers.items colours × (length colours ≡ width * height) }
        ensures { result ≡ picture_of_parts width height self.palette self.registers.items }
    {
        let PictureParts { palette, registers } = self;
        Picture::of_parts(width, height, palette, registers)
    }
}

/// The register of the last pixel, if this one shows the same.
fn repeated(last: &Option<Numbered>, pixel: &Pixel) -> Option<u8>
    ensures { IfSome result (λ register.
        last.now ≡ Some (record { pixel = pixel.now; register = register })) }
{
    match last {
        Some(numbered) if numbered.pixel.is_same(pixel) => Some(numbered.register),
        _ => None,
    }
}

/// The register of a pixel's colour, if it is an RGB colour that the cache has.
fn cached(numbering: &Numbering, pixel: &Pixel) -> Option<u8>
    ensures { (seen : List Parts) → Fills numbering.now.colours seen
        → IfSome result (HasRegister seen (colour_in_ink pixel.now)) }
{
    if !pixel.is_rgb() {
        return None;
    }
    let percentages = pixel.bytes();
    numbering.cached(percentages[0], percentages[1], percentages[2])
}

/// The register of a pixel's colour, by a search.
#[inline(never)]
fn searched(numbering: &mut Numbering, pixel: &Pixel) -> Option<u8>
    ensures numbers { (seen : List Parts) → Fills numbering.old.colours seen
        → Numbers result numbering.new.colours (with_colour seen (colour_in_ink pixel.now))
        (colour_in_ink pixel.now) }
    ensures profile { length numbering.new.colours.palette ≡ length numbering.old.colours.palette }
{
    numbering.register_of(pixel.colour())
}

/// The register of a pixel's colour. A pixel that repeats the last one needs no search, even without the cache.
#[inline(always)]
fn register_of(numbering: &mut Numbering, last: &mut Option<Numbered>, pixel: &Pixel) -> Option<u8>
    ensures numbers { (seen : List Parts) → Fills numbering.old.colours seen → KnowsLast last.old seen
        → Numbers result numbering.new.colours (with_colour seen (colour_in_ink pixel.now))
        (colour_in_ink pixel.now) }
    ensures known { (seen : List Parts) → Fills numbering.old.colours seen → KnowsLast last.old seen
        → OnSome result (KnowsLast last.new (with_colour seen (colour_in_ink pixel.now))) }
    ensures profile { length numbering.new.colours.palette ≡ length numbering.old.colours.palette }
{
    if let Some(register) = cached(numbering, pixel) {
        return Some(register);
    }
    if let Some(register) = repeated(last, pixel) {
        return Some(register);
    }
    match searched(numbering, pixel) {
        None => None,
        Some(register) => {
            *last = Some(Numbered {
                pixel: *pixel,
                register,
            });
            Some(register)
        }
    }
}

/// How many pixels are compared at once.
const LANES: usize = 8;

/// After how many pixels a run is looked for again: after a run the fewest, then twice as many each time that there is
/// none, up to the most. So a picture without runs pays little for the looks.
const FEWEST: usize = 4;

const MOST: usize = 64;

/// Whether these pixels from an index on show the same as this one.
#[inline(always)]
fn are_same(pixels: &[Pixel], at: usize, pixel: &Pixel) -> bool
    requires { at + LANES ≤ length pixels.now }
    ensures { IsTrue result → AreAll pixels.now at (at + LANES) pixel.now }
{
    pixels[at].is_same(pixel)
        && pixels[at + 1].is_same(pixel)
            & pixels[at + 2].is_same(pixel)
            & pixels[at + 3].is_same(pixel)
            & pixels[at + 4].is_same(pixel)
            & pixels[at + 5].is_same(pixel)
            & pixels[at + 6].is_same(pixel)
            & pixels[at + 7].is_same(pixel)
}

/// Where a run of pixels that show the same as this one ends, if it begins at an index.
#[inline(never)]
fn end_of_run(pixels: &[Pixel], at: usize, pixel: &Pixel) -> usize
    requires { at ≤ length pixels.now }
    ensures within { (at ≤ result) × (result ≤ length pixels.now) }
    ensures same { AreAll pixels.now at result pixel.now }
    ensures stops { IfSome (slice_get pixels.now result) (λ next. next ≢ pixel.now) }
{
    let mut end = at;
    while end + LANES <= pixels.len() && are_same(pixels, end, pixel) {
        end += LANES;
    }
    while end < pixels.len() && pixels[end].is_same(pixel) {
        end += 1;
    }
    end
}

/// Pushes the registers of the pixels up to an index. `TooManyColours`: there are more different ones than registers.
#[inline(always)]
fn number_to(
    numbering: &mut Numbering,
    last: &mut Option<Numbered>,
    pixels: &[Pixel],
    registers: &mut Vec<u8>,
    end: usize,
) -> Result<(), MendFault>
    requires within { (vec_len registers.old ≤ end) × (end ≤ length pixels.now) }
    requires room { length pixels.now ≤ vec_capacity registers.old }
    requires numbered { AreNumbered numbering.old.colours last.old registers.old.items pixels.now
        (vec_len registers.old) }
    ensures numbered { OnOk result (AreNumbered numbering.new.colours last.new registers.new.items pixels.now end) }
    ensures long { OnOk result (vec_len registers.new ≡ end) }
    ensures room { vec_capacity registers.old ≤ vec_capacity registers.new }
    ensures profile { length numbering.new.colours.palette ≡ length numbering.old.colours.palette }
    ensures refused { IfErr result (IsNumberingFault (length numbering.old.colours.palette)
        (map colour_in_ink pixels.now)) }
{
    let mut at = registers.len();
    while at < end {
        match register_of(numbering, last, &pixels[at]) {
            Some(register) => registers.push_reserved(register),
            None => return Err(MendFault::TooManyColours),
        }
        at += 1;
    }
    Ok(())
}

/// Pushes a register until there are so many. There must be room for them.
///
/// It isn't `resize`: that call would keep the list's length in memory, where each push would look for it.
#[inline(always)]
fn push_until(registers: &mut Vec<u8>, end: usize, register: u8)
    requires ordered { vec_len registers.old ≤ end }
    requires room { end ≤ vec_capacity registers.old }
    ensures items { registers.new.items
        ≡ registers.old.items ++ replicate (end - vec_len registers.old) register }
    ensures long { vec_len registers.new ≡ end }
    ensures room { vec_capacity registers.old ≤ vec_capacity registers.new }
{
    while registers.len() < end {
        registers.push_reserved(register);
    }
}

/// The registers of the colours that these pixels show. `TooManyColours`: there are more different ones than registers.
///
/// A group of pixels that repeats the one before it begins a run. It isn't inlined, so that its loops keep all that they
/// need in the processor's registers.
#[inline(never)]
fn registers_of(
    alloc: Global,
    numbering: &mut Numbering,
    pixels: &[Pixel],
) -> Result<Vec<u8>, MendFault>
    requires { Fills numbering.old.colours [] }
    ensures profile { length numbering.new.colours.palette ≡ length numbering.old.colours.palette }
    ensures held { IfOk result (λ registers. HoldsPixels numbering.new.colours None 0 registers.items 0
        (length pixels.now) (map colour_in_ink pixels.now)) }
    ensures refused { IfErr result (IsNumberingFault (length numbering.old.colours.palette)
        (map colour_in_ink pixels.now)) }
{
    let mut last = None;
    let mut registers = Vec::with_capacity(alloc, pixels.len())?;
    let mut at = 0;
    let mut step = FEWEST;
    while at < pixels.len() {
        if at > 0 && at + LANES <= pixels.len() && are_same(pixels, at, &pixels[at - 1]) {
            let register = registers[at - 1];
            at = end_of_run(pixels, at + LANES, &pixels[at - 1]);
            push_until(&mut registers, at, register);
            step = FEWEST;
        } else {
            at = (at + step).min(pixels.len());
            number_to(numbering, &mut last, pixels, &mut registers, at)?;
            step = (2 * step).min(MOST);
        }
    }
    Ok(registers)
}

/// The palette and the registers of the colours that these pixels show. `TooManyColours`: there are more different ones
/// than registers.
pub(crate) fn parts_of(
    alloc: Global,
    profile: Profile,
    pixels: &[Pixel],
) -> Result<PictureParts, MendFault>
    ensures numbered { IfOk result (λ parts. IsNumbered (count_of profile) parts.palette parts.registers.items
        (map colour_in_ink pixels.now)) }
    ensures refused { IfErr result (IsNumberingFault (count_of profile) (map colour_in_ink pixels.now)) }
{
    let mut numbering = Numbering::new(profile);
    let registers = registers_of(alloc, &mut numbering, pixels)?;
    let palette = numbering.into_palette();
    Ok(PictureParts { palette, registers })
}
