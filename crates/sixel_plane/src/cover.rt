//! What is painted of a box.

ghost use Rattle.std.specs.Prelude.{◌≡◌, ◌<◌, ◌≤◌, ◌+◌, ◌*◌, ℕ, Bool, IfOk, IsTrue, false, is_none, length};
ghost use Rattle.std.specs.Prelude.{slice_index, true};
ghost use Rattle.std.specs.Int.{bit_at};
ghost use Rattle.sixel_model.specs.Grids.{Grid, blank_grid, cell, first_blank, painted_grid};
ghost use Rattle.sixel_model.specs.Geometry.{band_rows};
ghost use Rattle.sixel_model.specs.Pictures.{is_side};
ghost use Rattle.sixel_plane.specs.Covers.{kept_by};
ghost use Rattle.sixel_plane.specs.Stretches.{sixel_of, stretched_grid};
ghost use Rattle.sixel_grammar.specs.Bytes.{is_data};

use std::alloc::{AllocError, Global};

/// The pixels of a box that are painted so far.
///
/// Contracts see any implementation as a grid: a width and a height in pixels, and for each pixel, row by row from the
/// top left, what is kept of its register, or none. `blank` makes all allocations; no other call allocates.
pub trait Cover: Drop {
    /// The width, the height, and an optional register for each pixel, row by row.
    ghost grid: { Self → Grid };

    /// Whether the grid has the registers that paint. If not, each painted pixel has 0.
    ghost keeps: { Bool };

    /// A box whose pixels are all blank. Each side is from 1 to 2,048 pixels. `AllocError`: an allocation failed.
    fn blank(alloc: Global, width: u32, height: u32) -> Result<Self, AllocError>
        requires width { IsTrue (is_side width) }
        requires height { IsTrue (is_side height) }
        ensures { IfOk result (λ p. grid p ≡ blank_grid width height) };

    /// The width in pixels.
    fn width(&self) -> u32
        ensures { result ≡ (grid self.now).width };

    /// The height in pixels.
    fn height(&self) -> u32
        ensures { result ≡ (grid self.now).height };

    /// Paints `count` columns from `column` on, in the rows of the band whose bits are set. Any register from 0 to 255
    /// is allowed. A band is six rows; band 0 is at the top, and bit 0 is the top row of the band.
    fn paint_run(&mut self, column: u32, band: u32, count: u32, bits: u8, register: u8)
        requires bits { bits ≤ 63 }
        requires columns { column + count ≤ (grid self.old).width }
        requires rows { (k : ℕ) → k < band_rows → bit_at bits k ≡ 1 → band_rows * band + k < (grid self.old).height }
        ensures { grid self.new ≡ painted_grid (grid self.old) column band count bits (kept_by keeps register) };

    /// Paints `count` columns from `column` on, many at a time, if it can. Each of the first `count` bytes is a data
    /// byte, and paints the rows of the band whose bits are set in it. Returns whether it painted; if not, nothing has
    /// changed, and `paint_run` can paint each column.
    ///
    /// A data byte is `?` plus six bits. All six rows of the band must be in the box. An implementation may need 16 more
    /// bytes after the first `count`; these aren't painted.
    fn try_paint_stretch(
        &mut self,
        column: u32,
        band: u32,
        bytes: &[u8],
        count: usize,
        register: u8,
    ) -> bool
        requires sixels { (j : ℕ) → j < count → IsTrue (is_data (slice_index bytes.now j)) }
        requires bytes { count ≤ length bytes.now }
        requires columns { column + count ≤ (grid self.old).width }
        requires rows { band_rows * band + band_rows ≤ (grid self.old).height }
        ensures painted { result ≡ true → grid self.new
            ≡ stretched_grid (grid self.old) column band count (sixel_of bytes.now count) (kept_by keeps register) }
        ensures kept { result ≡ false → self.new ≡ self.old }
    {
        false
    }

    /// Whether the pixel in column `x` and row `y` is blank, both from 0 at the top left.
    fn is_blank(&self, x: u32, y: u32) -> bool
        requires inside_x { x < (grid self.now).width }
        requires inside_y { y < (grid self.now).height }
        ensures { result ≡ is_none (cell (grid self.now) x y) };

    /// The column and the row of the first blank pixel in row order, or `None` if no pixel is blank.
    fn first_blank(&self) -> Option<(u32, u32)>
        ensures { result ≡ first_blank (grid self.now) };
}
