//! The memory that mlterm keeps the pixels of a picture in.

ghost use Rattle.std.specs.Prelude.{◌≡◌, ◌<◌, ◌^◌, ◌≤◌, ◌*◌, false, nat_lt};
ghost use Rattle.sixel_mlterm.specs.MlTerm as rule;
ghost use Rattle.sixel_mlterm.specs.MlTermSeen.{buffer_of, free_columns};

use sixel_emulator::words::is_painting;
use sixel_grammar::Event;
use sixel_model::BAND_ROWS;

/// The last column and the last row at which mlterm goes on.
pub(crate) const MOST: u64 = 32767;

/// How many columns more it has, if a data command ends right of it.
const COLUMNS: u16 = 512;

/// How many rows more it has, if a band ends below it.
const ROWS: u32 = 516;

/// The buffer.
#[derive(Clone, Copy, Debug, PartialEq, Eq)]
pub(crate) struct Buffer {
    pub width: u16,
    pub height: u32,
    /// How many pixels its block of memory has room for.
    pub room: u64,
    /// The greatest column at which a data command ended.
    pub reach: u16,
    /// Whether a new line has cut its width.
    pub cut: bool,
}

/// A height in whole bands.
fn in_bands(height: u16) -> u32
    ensures { result ≡ rule.in_bands height }
{
    (u32::from(height) + 5) / BAND_ROWS * BAND_ROWS
}

/// Whether a data command that ends at this column, in a band that ends at this row, may end mlterm.
#[inline(always)]
pub(crate) fn is_past_all(end: u64, rows: u64) -> bool
    ensures { result ≡ rule.is_past_all end rows }
{
    end > MOST || rows > MOST
}

/// Whether with these sides the band ends below the buffer, or the command paints and ends right of it.
#[inline(always)]
fn is_outside(sides: (u16, u32), end: u64, rows: u64, event: &Event) -> bool
    ensures { result ≡ rule.is_outside sides end rows event.now }
{
    u64::from(sides.1) < rows || (is_painting(event) && u64::from(sides.0) < end)
}

impl Buffer {
    /// At the start.
    pub(crate) fn new() -> Buffer
        ensures { buffer_of result ≡ rule.no_buffer }
    {
        Buffer {
            width: 0,
            height: 0,
            room: 0,
            reach: 0,
            cut: false,
        }
    }

    /// Whether a width and a height have more pixels.
    #[inline(always)]
    fn has_more(self, sides: (u16, u32)) -> bool
        ensures { result ≡ rule.has_more (buffer_of self) sides }
    {
        u64::from(self.width) * u64::from(self.height) < u64::from(sides.0) * u64::from(sides.1)
    }

    /// The buffer with these sides.
    #[inline(always)]
    pub(crate) fn resized(self, sides: (u16, u32)) -> Buffer
        ensures { buffer_of result ≡ rule.resized (buffer_of self) sides }
    {
        let (width, height) = sides;
        let room = if self.has_more(sides) {
            u64::from(width) * u64::from(height)
        } else {
            self.room
        };
        Buffer {
            width,
            height,
            room,
            ..self
        }
    }

    /// Whether so many rows are copied past a block of memory, if it gets these sides.
    #[inline(always)]
    pub(crate) fn copies_past(self, rows: u64, sides: (u16, u32)) -> bool
        ensures { result ≡ rule.copies_past (buffer_of self) rows sides }
    {
        self.width > 0
            && self.width < sides.0
            && self.has_more(sides)
            && (u64::from(sides.1) < rows || self.has_room_for_less(rows as u32))
    }

    /// Whether its block has room for fewer than so many rows.
    fn has_room_for_less(self, rows: u32) -> bool
        ensures { result ≡ nat_lt self.room (rows * self.width) }
    {
        self.room < u64::from(rows) * u64::from(self.width)
    }

    /// The sides that raster attributes give it.
    pub(crate) fn raster_sides(self, width: u16, height: u16) -> (u16, u32)
        ensures value { result ≡ rule.raster_sides (buffer_of self) width height }
        ensures low { result.1 < 2 ^ 32 }
    {
        if width == 0 || height == 0 {
            (self.width, self.height)
        } else {
            (width.max(self.width), in_bands(height).max(self.height))
        }
    }

    /// The height that a band wants that ends at this row.
    #[inline(always)]
    fn wanted_height(self, rows: u64) -> u32
        requires { rows ≤ 32767 }
        ensures { result ≡ rule.wanted_height (buffer_of self) rows }
    {
        if rows <= u64::from(self.height) {
            self.height
        } else {
            self.height + ROWS
        }
    }

    /// How many rows of 512 columns more its pixels are.
    fn wider_rows(self) -> u32
        ensures { result ≡ rule.wider_rows (buffer_of self) }
    {
        let pixels = u64::from(self.width) * u64::from(self.height);
        (pixels / (u64::from(self.width) + u64::from(COLUMNS))) as u32
    }

    /// The height that it gets as it gets wider.
    fn wider_height(self, rows: u64) -> u32
        requires { rows ≤ 32767 }
        ensures { result ≡ rule.wider_height (buffer_of self) rows }
    {
        let wider = self.wider_rows();
        if rows + 5 <= u64::from(wider) {
            wider / BAND_ROWS * BAND_ROWS
        } else {
            self.wanted_height(rows)
        }
    }

    /// The sides that a data command gives it.
    #[inline(always)]
    fn data_sides(self, end: u64, rows: u64) -> (u16, u32)
        requires { rule.is_past_all end rows ≡ false }
        ensures { result ≡ rule.data_sides (buffer_of self) end rows }
    {
        if end <= u64::from(self.width) {
            (self.width, self.wanted_height(rows))
        } else {
            (self.width + COLUMNS, self.wider_height(rows))
        }
    }

    /// Whether it isn't said what a data command does, by the buffer.
    #[inline(always)]
    pub(crate) fn is_lost(self, end: u64, rows: u64, event: &Event) -> bool
        requires { rule.is_past_all end rows ≡ false }
        ensures { result ≡ rule.is_lost (buffer_of self) end rows event.now }
    {
        let sides = self.data_sides(end, rows);
        self.copies_past(rows, sides) || is_outside(sides, end, rows, event)
    }

    /// With a data command that ends at this column.
    #[inline(always)]
    pub(crate) fn reaching(self, end: u64) -> Buffer
        requires { end ≤ 32767 }
        ensures { buffer_of result ≡ rule.reaching (buffer_of self) end }
    {
        Buffer {
            reach: self.reach.max(end as u16),
            ..self
        }
    }

    /// Notes a data command that ends at this column.
    #[inline(always)]
    pub(crate) fn reach_to(&mut self, end: u64)
        requires { end ≤ 32767 }
        ensures { buffer_of self.new ≡ rule.reaching (buffer_of self.old) end }
    {
        self.reach = self.reach.max(end as u16);
    }

    /// With a data command that ends at this column, in a band that ends at this row.
    #[inline(always)]
    pub(crate) fn with_data(self, end: u64, rows: u64) -> Buffer
        ensures { buffer_of result ≡ rule.with_data (buffer_of self) end rows }
    {
        if is_past_all(end, rows) {
            return self;
        }
        self.resized(self.data_sides(end, rows)).reaching(end)
    }

    /// With a new line.
    pub(crate) fn with_line(self) -> Buffer
        ensures { buffer_of result ≡ rule.with_line (buffer_of self) }
    {
        if !self.cut && self.reach > 0 && self.reach < self.width {
            Buffer {
                width: self.reach,
                cut: true,
                ..self
            }
        } else {
            self
        }
    }

    /// How many columns there are from this one on, in a band that ends at this row.
    #[inline(always)]
    pub(crate) fn free_columns(self, column: u32, rows: u64) -> u32
        ensures { result ≡ free_columns (buffer_of self) column rows }
    {
        if rows <= u64::from(self.height) && rows <= MOST {
            u32::from(self.width).min(32767).saturating_sub(column)
        } else {
            0
        }
    }
}
