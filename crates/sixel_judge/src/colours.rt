//! Colours that definitions give.

ghost use Rattle.std.specs.Prelude.{◌≡◌};
ghost use Rattle.sixel_judge.specs.Notes.{colour_within};

use sixel_model::Colour;

/// The colour with these coordinates in this system (1 is HLS, 2 is RGB), if the system exists and all are in range.
#[inline]
pub(crate) fn colour_in(system: u16, x: u16, y: u16, z: u16) -> Option<Colour>
    ensures { result ≡ colour_within system x y z }
{
    if y > 100 || z > 100 {
        return None;
    }
    match system {
        1 => Colour::hls(x, y as u8, z as u8),
        2 if x <= 100 => Colour::rgb(x as u8, y as u8, z as u8),
        _ => None,
    }
}
