//! The pixels of a screen during drawing.

ghost use Rattle.std.specs.Prelude.{◌≡◌, ◌≤◌, ◌<◌, ◌+◌, ◌*◌, ◌/◌, ◌%◌, ◌&&◌, ◌^◌, nat_le, nat_lt, EachIndex, length};
ghost use Rattle.std.specs.Prelude.{slice_index_or, if◌then◌else◌};
ghost use Rattle.sixel_terminal.specs.Canvases.{black, is_in_span, laid_under, span_of};

use crate::pixel::Pixel;

/// Adjacent columns or rows of the screen, from `start` up to `end`.
#[derive(Clone, Copy, Debug)]
pub(crate) struct Span {
    pub start: usize,
    pub end: usize,
}

impl Span {
    /// `count` columns or rows from `start` on, as far as they are below `limit`.
    pub(crate) fn new(start: u64, count: u64, limit: u32) -> Span
        requires { start + count < 2 ^ 64 }
        ensures { result ≡ span_of start count limit }
    {
        Span {
            start: start.min(limit as u64) as usize,
            end: (start + count).min(limit as u64) as usize,
        }
    }
}

/// Sets the pixels in these columns of these rows to the ink.
pub(crate) fn fill(inks: &mut [Pixel], width: usize, columns: Span, rows: Span, ink: &Pixel)
    requires some { 0 < width }
    requires columns_are { (columns.start ≤ columns.end) × (columns.end ≤ width) }
    requires rows_are { (rows.start ≤ rows.end) × (rows.end * width ≤ length inks.old) }
    ensures { EachIndex inks.old (λ i. slice_index_or inks.new i black
        ≡ (if is_in_span columns (i % width) && is_in_span rows (i / width)
        then ink.now else slice_index_or inks.old i black)) }
{
    for row in rows.start..rows.end {
        let start = row * width + columns.start;
        fill_row(inks, start, columns.end - columns.start, ink);
    }
}

/// Sets `count` pixels from `start` on to the ink.
fn fill_row(inks: &mut [Pixel], start: usize, count: usize, ink: &Pixel)
    requires { start + count ≤ length inks.old }
    ensures { EachIndex inks.old (λ i. slice_index_or inks.new i black
        ≡ (if nat_le start i && nat_lt i (start + count)
        then ink.now else slice_index_or inks.old i black)) }
{
    let end = start + count;
    inks[start..end].fill(*ink);
}

/// Sets the pixels in these columns of these rows to the ink, except those that show a register.
pub(crate) fn fill_under(inks: &mut [Pixel], width: usize, columns: Span, rows: Span, ink: &Pixel)
    requires some { 0 < width }
    requires columns_are { (columns.start ≤ columns.end) × (columns.end ≤ width) }
    requires rows_are { (rows.start ≤ rows.end) × (rows.end * width ≤ length inks.old) }
    ensures { EachIndex inks.old (λ i. slice_index_or inks.new i black
        ≡ (if is_in_span columns (i % width) && is_in_span rows (i / width)
        then laid_under ink.now (slice_index_or inks.old i black) else slice_index_or inks.old i black)) }
{
    for row in rows.start..rows.end {
        let start = row * width + columns.start;
        fill_row_under(inks, start, columns.end - columns.start, ink);
    }
}

/// Sets `count` pixels from `start` on to the ink, except those that show a register.
fn fill_row_under(inks: &mut [Pixel], start: usize, count: usize, ink: &Pixel)
    requires { start + count ≤ length inks.old }
    ensures { EachIndex inks.old (λ i. slice_index_or inks.new i black
        ≡ (if nat_le start i && nat_lt i (start + count)
        then laid_under ink.now (slice_index_or inks.old i black) else slice_index_or inks.old i black)) }
{
    let end = start + count;
    lay_under(&mut inks[start..end], ink);
}

/// Sets the pixels of a row to the ink, except those that show a register. The loop has no branch, so that the compiler
/// uses lanes.
#[inline(always)]
fn lay_under(row: &mut [Pixel], ink: &Pixel)
    ensures { EachIndex row.old (λ j. slice_index_or row.new j black
        ≡ laid_under ink.now (slice_index_or row.old j black)) }
{
    for index in 0..row.len() {
        row[index] = laid_under(ink, &row[index]);
    }
}

/// The ink, or the old pixel if that shows a register.
#[inline(always)]
fn laid_under(ink: &Pixel, old: &Pixel) -> Pixel
    ensures { result ≡ laid_under ink.now old.now }
{
    match old.register() {
        Some(_) => *old,
        None => *ink,
    }
}
