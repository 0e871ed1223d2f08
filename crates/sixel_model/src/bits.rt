//! The bits of a sixel.

ghost use Rattle.std.specs.Prelude.{◌≡◌, ◌==◌, ◌<◌};
ghost use Rattle.std.specs.Int.{bit_at};

/// How many rows of pixels a band has. A sixel is one column of a band, and each of its bits is one row.
pub const BAND_ROWS: u32 = 6;

/// Whether a sixel with these bits paints the row of `bit`. Bit 0 is the top row of the band.
#[inline]
pub fn is_set(bits: u8, bit: u32) -> bool
    requires { bit < BAND_ROWS }
    ensures { result ≡ (bit_at bits bit == 1) }
{
    bits >> bit & 1 == 1
}
