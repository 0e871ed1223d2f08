//! The colours with which registers start on a VT340.

ghost use Rattle.std.specs.Prelude.{◌≡◌, slice_index_or};
ghost use Rattle.sixel_model.specs.declared.colour.Parts.TheVariants.{Rgb};
ghost use Rattle.sixel_terminal.specs.Starts.{vt340_colours};

use sixel_model::Colour;

/// The colour with which a register of a VT340 starts. It has 16; black for another.
pub fn vt340_colour(register: u16) -> Colour
    ensures { result ≡ slice_index_or vt340_colours register (Rgb 0 0 0) }
{
    match register {
        1 => Colour::of_percentages(20, 20, 80),
        2 => Colour::of_percentages(80, 13, 13),
        3 => Colour::of_percentages(20, 80, 20),
        4 => Colour::of_percentages(80, 20, 80),
        5 => Colour::of_percentages(20, 80, 80),
        6 => Colour::of_percentages(80, 80, 20),
        7 => Colour::of_percentages(53, 53, 53),
        8 => Colour::of_percentages(26, 26, 26),
        9 => Colour::of_percentages(33, 33, 60),
        10 => Colour::of_percentages(60, 26, 26),
        11 => Colour::of_percentages(33, 60, 33),
        12 => Colour::of_percentages(60, 33, 60),
        13 => Colour::of_percentages(33, 60, 60),
        14 => Colour::of_percentages(60, 60, 33),
        15 => Colour::of_percentages(80, 80, 80),
        _ => Colour::of_percentages(0, 0, 0),
    }
}
