//! Colours by hue, lightness and saturation.

ghost use Rattle.std.specs.Prelude.{◌≡◌};
ghost use Rattle.std.specs.List.{list_any};
ghost use Rattle.sixel_fit.specs.Rows.{is_hue};

use sixel_model::{Colour, Palette, Parts};

/// Whether an entry is a colour by hue, lightness and saturation.
pub(crate) fn is_hue(entry: Option<Colour>) -> bool
    ensures { result ≡ is_hue entry }
{
    match entry {
        None => false,
        Some(colour) => match colour.parts() {
            Parts::Rgb(_, _, _) => false,
            Parts::Hls(_, _, _) => true,
        },
    }
}

/// Whether some entry is one.
pub(crate) fn has_hue(palette: &Palette) -> bool
    ensures { result ≡ list_any is_hue palette.now }
{
    for register in 0..palette.profile().count() {
        if is_hue(palette.get(register as u8)) {
            return true;
        }
    }
    false
}
