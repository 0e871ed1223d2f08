//! Covering the pixels of the box.

ghost use Rattle.std.specs.Prelude.{◌≡◌, ◌≤◌, ◌<◌, ◌*◌, ◌+◌, ◌-◌, ◌^◌, ◌++◌, ◌∷◌, [], ℕ, List, IsSomeAnd, IsTrue};
ghost use Rattle.std.specs.Prelude.{OnErr, OnOk, IfOk, None, false, is_none};
ghost use Rattle.std.specs.Int.{bit_at};
ghost use Rattle.std.specs.Option.{option_map};
ghost use Rattle.sixel_grammar.specs.declared.command.Event.{Event as EventValue};
ghost use Rattle.sixel_model.specs.Events.{has_sides, raster_of};
ghost use Rattle.sixel_model.specs.Geometry.{band_rows};
ghost use Rattle.sixel_model.specs.Grids.{cell};
ghost use Rattle.sixel_judge.specs.Verdicts.{capped};
ghost use Rattle.sixel_judge.specs.Covering.{IsCoverAfter};
ghost use Rattle.sixel_survey.specs.Covering.{AreCells, IsCoveredBy, blank_cells, blank_cells_in_row};
ghost use Rattle.sixel_judge.specs.Notes.{IsNotesAfter};

use sixel_grammar::Event;
use sixel_judge::events::{bits_of, columns_of, is_raster, sides_of};
use sixel_judge::notes::Notes;
use sixel_judge::rules::breaks_box_size;
use sixel_model::BAND_ROWS;
use sixel_plane::Cover;
use std::alloc::{AllocError, Global};

/// The lowest bits: as many as there are rows, which are at most six.
#[inline(always)]
fn lowest_bits(rows: u64) -> u8
    requires { rows ≤ 6 }
    ensures { result ≡ 2 ^ rows - 1 }
{
    match rows {
        0 => 0,
        1 => 0b1,
        2 => 0b11,
        3 => 0b111,
        4 => 0b1111,
        5 => 0b11111,
        _ => 0b111111,
    }
}

/// The bits of a band whose rows lie above the height.
#[inline(always)]
fn bits_within(bits: u8, band: u32, height: u32) -> u8
    ensures within { result ≤ 63 }
    ensures kept { (k : ℕ) → k < band_rows → band_rows * band + k < height → bit_at result k ≡ bit_at bits k }
    ensures left_out { (k : ℕ) → k < band_rows → height ≤ band_rows * band + k → bit_at result k ≡ 0 }
{
    let top = BAND_ROWS as u64 * band as u64;
    let rows = (height as u64).saturating_sub(top).min(BAND_ROWS as u64);
    bits & lowest_bits(rows)
}

/// Covers the pixels of the box that `count` columns from `column` on paint, in the rows of the band whose bits are
/// set. What lies outside the box is left out. A column or band of `u64::MAX` means that number or any greater one.
#[inline(always)]
pub(crate) fn cover<P: Cover>(plane: &mut P, column: u64, band: u64, count: u16, bits: u8)
    ensures { (left line : ℕ) → column ≡ capped left → band ≡ capped line
        → IsCoveredBy (P.grid plane.old) left count line bits (P.grid plane.new) }
{
    if bits == 0 {
        return;
    }
    let width = plane.width();
    let height = plane.height();
    if column >= width as u64 {
        return;
    }
    if band >= height as u64 {
        return;
    }
    let column = column as u32;
    let band = band as u32;
    let count = (count as u32).min(width - column);
    plane.paint_run(column, band, count, bits_within(bits, band, height), 0);
}

/// A blank plane of the declared size, for the first raster attributes, if both sides are in range.
#[inline(never)]
fn first_plane<P: Cover>(
    alloc: Global,
    notes: &Notes,
    event: &Event,
) -> Result<Option<P>, AllocError>
    ensures ok { IfOk result (λ plane. (before : List EventValue) → IsNotesAfter notes.now before
        → IsCoverAfter None before → IsCoverAfter (option_map P.grid plane) (before ++ event.now ∷ [])) }
    ensures sides { OnErr result (IsSomeAnd (raster_of event.now) (λ a. IsTrue (has_sides a))) }
    ensures first { OnErr result (notes.now.declared ≡ false) }
{
    if notes.declared {
        return Ok(None);
    }
    if breaks_box_size(event) {
        return Ok(None);
    }
    match sides_of(event) {
        Some((width, height)) => Ok(Some(P::blank(alloc, width, height)?)),
        None => Ok(None),
    }
}

/// Makes the plane at the first raster attributes, and covers its pixels after that.
#[inline(always)]
pub(crate) fn draw<P: Cover>(
    alloc: Global,
    notes: &Notes,
    plane: &mut Option<P>,
    event: &Event,
) -> Result<(), AllocError>
    ensures ok { OnOk result ((before : List EventValue) → IsNotesAfter notes.now before
        → IsCoverAfter (option_map P.grid plane.old) before
        → IsCoverAfter (option_map P.grid plane.new) (before ++ event.now ∷ [])) }
    ensures sides { OnErr result (IsSomeAnd (raster_of event.now) (λ a. IsTrue (has_sides a))) }
    ensures first { OnErr result (notes.now.declared ≡ false) }
{
    match plane {
        Some(plane) => {
            cover(
                plane,
                notes.column,
                notes.band,
                columns_of(event),
                bits_of(event),
            );
            Ok(())
        }
        None => {
            if is_raster(event) {
                *plane = first_plane(alloc, notes, event)?;
            }
            Ok(())
        }
    }
}

/// Whether the pixel is blank. It must be in the box.
fn is_blank<P: Cover>(plane: &P, x: u32, y: u32) -> bool
    requires inside_x { x < (P.grid plane.now).width }
    requires inside_y { y < (P.grid plane.now).height }
    ensures { result ≡ is_none (cell (P.grid plane.now) x y) }
{
    plane.is_blank(x, y)
}

/// How many pixels of the row are blank. It must be in the box.
fn blank_in_row<P: Cover>(plane: &P, y: u32) -> u64
    requires { y < (P.grid plane.now).height }
    ensures value { result ≡ blank_cells_in_row (P.grid plane.now) y (P.grid plane.now).width }
    ensures few { result ≤ (P.grid plane.now).width }
    ensures narrow { (P.grid plane.now).width ≤ u32.MAX }
{
    let mut count = 0;
    for x in 0..plane.width() {
        if is_blank(plane, x, y) {
            count += 1;
        }
    }
    count
}

/// How many pixels are blank, row by row.
fn count_rows<P: Cover>(plane: &P) -> u64
    ensures { result ≡ blank_cells (P.grid plane.now) }
{
    let mut count = 0;
    for y in 0..plane.height() {
        count += blank_in_row(plane, y);
    }
    count
}

/// How many pixels are blank. If the search for the first one finds none, it doesn't look at each.
pub(crate) fn count_blank<P: Cover>(plane: &P) -> u64
    ensures { AreCells (P.grid plane.now) → result ≡ blank_cells (P.grid plane.now) }
{
    if plane.first_blank().is_none() {
        0
    } else {
        count_rows(plane)
    }
}
