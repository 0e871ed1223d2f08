//! Painting on the screen.

ghost use Rattle.std.specs.Prelude.{◌≡◌, ◌<◌, ◌≤◌, ◌+◌, ◌*◌, ◌/◌, ◌%◌, ℕ, EachIndex, IsTrue, false, length};
ghost use Rattle.std.specs.Prelude.{slice_index, slice_index_or, true, if◌then◌else◌};
ghost use Rattle.sixel_model.specs.Geometry.{band_rows};
ghost use Rattle.sixel_terminal.specs.Canvases.{black, span_of};
ghost use Rattle.sixel_grammar.specs.Bytes.{is_data};
ghost use Rattle.sixel_terminal.specs.Steps.{bottom_edge, box_covers, most, pen_covers, right_edge};
ghost use Rattle.sixel_terminal.specs.Stretches.{stretch_covers};

use crate::canvas::{Span, fill};
use crate::pen::Pen;
use crate::pixel::Pixel;
use crate::stretch::paint_sixels;
use crate::terminal::Terminal;
use sixel_model::{BAND_ROWS, is_set};

impl Terminal {
    /// The column of the screen where data commands stop painting.
    #[inline(always)]
    fn right_edge(&self, pen: Pen) -> u32
        ensures value { result ≡ right_edge self.now pen.declared }
        ensures most { result ≤ self.now.choices.screen_width }
    {
        match pen.declared {
            Some(sides) if self.choices.clips => {
                let end = self.choices.origin_x + sides.width as u32;
                self.choices.screen_width.min(end)
            }
            _ => self.choices.screen_width,
        }
    }

    /// The row of the screen where data commands stop painting.
    #[inline(always)]
    fn bottom_edge(&self, pen: Pen) -> u32
        ensures value { result ≡ bottom_edge self.now pen.declared }
        ensures most { result ≤ self.now.choices.screen_height }
    {
        match pen.declared {
            Some(sides) if self.choices.clips => {
                let end = self.choices.origin_y + sides.height as u32;
                self.choices.screen_height.min(end)
            }
            _ => self.choices.screen_height,
        }
    }

    /// The rows of the screen that a bit of the pen's band covers.
    fn rows_of(&self, pen: Pen, bit: u32) -> Span
        requires { bit < band_rows }
        ensures span { result ≡ span_of (self.now.choices.origin_y + (band_rows * pen.band + bit) * pen.height)
            pen.height (bottom_edge self.now pen.declared) }
        ensures within { result.end ≤ self.now.choices.screen_height }
    {
        let row = (BAND_ROWS as u64 * pen.band as u64 + bit as u64) * pen.height as u64;
        let start = self.choices.origin_y as u64 + row;
        Span::new(start, pen.height as u64, self.bottom_edge(pen))
    }

    /// Paints the set bits of `count` columns, from the pen on, with the ink.
    pub(crate) fn paint_columns(
        &self,
        pen: Pen,
        count: u16,
        bits: u8,
        ink: &Pixel,
        inks: &mut [Pixel],
    )
        requires { length inks.old ≡ self.now.choices.screen_width * self.now.choices.screen_height }
        ensures { EachIndex inks.old (λ i. slice_index_or inks.new i black
            ≡ (if pen_covers self.now pen count bits (i % self.now.choices.screen_width)
            (i / self.now.choices.screen_width) then ink.now else slice_index_or inks.old i black)) }
    {
        let left = self.choices.origin_x as u64 + pen.column as u64;
        let columns = Span::new(left, count as u64, self.right_edge(pen));
        // No column is before the edge, so no row needs a look.
        if columns.start == columns.end {
            return;
        }
        for bit in 0..BAND_ROWS {
            if is_set(bits, bit) {
                let rows = self.rows_of(pen, bit);
                fill(inks, self.choices.screen_width as usize, columns, rows, ink);
            }
        }
    }

    /// Paints the sixels of these data bytes, from the pen on, as far as they are before the edges.
    #[inline(always)]
    pub(crate) fn paint_stretch(&self, pen: Pen, bytes: &[u8], ink: &Pixel, inks: &mut [Pixel])
        requires screen { length inks.old ≡ self.now.choices.screen_width * self.now.choices.screen_height }
        requires data { (k : ℕ) → k < length bytes.now → IsTrue (is_data (slice_index bytes.now k)) }
        requires height { pen.height ≡ 1 }
        ensures { EachIndex inks.old (λ i. slice_index_or inks.new i black
            ≡ (if stretch_covers self.now pen bytes.now (i % self.now.choices.screen_width)
            (i / self.now.choices.screen_width) then ink.now else slice_index_or inks.old i black)) }
    {
        let left = self.choices.origin_x as u64 + pen.column as u64;
        let top = self.choices.origin_y as u64 + BAND_ROWS as u64 * pen.band as u64;
        let right = self.right_edge(pen) as u64;
        let bottom = self.bottom_edge(pen) as u64;
        if left >= right || top >= bottom {
            return;
        }
        let width = self.choices.screen_width as usize;
        let count = bytes.len().min((right - left) as usize);
        let rows = BAND_ROWS.min((bottom - top) as u32);
        paint_sixels(
            inks,
            width,
            left as usize,
            top as usize,
            rows,
            &bytes[..count],
            ink,
        );
    }

    /// Paints a box at the origin with the ink.
    pub(crate) fn paint_box(&self, width: u16, height: u16, ink: &Pixel, inks: &mut [Pixel])
        requires { length inks.old ≡ self.now.choices.screen_width * self.now.choices.screen_height }
        ensures { EachIndex inks.old (λ i. slice_index_or inks.new i black
            ≡ (if box_covers self.now width height (i % self.now.choices.screen_width)
            (i / self.now.choices.screen_width) then ink.now else slice_index_or inks.old i black)) }
    {
        let left = self.choices.origin_x as u64;
        let top = self.choices.origin_y as u64;
        let columns = Span::new(left, width as u64, self.choices.screen_width);
        let rows = Span::new(top, height as u64, self.choices.screen_height);
        fill(inks, self.choices.screen_width as usize, columns, rows, ink);
    }
}
