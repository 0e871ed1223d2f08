//! The plain terminals that draw what readings give.

ghost use Rattle.std.specs.Prelude.{◌≡◌};
ghost use Rattle.sixel_emulator.specs.Settings.{plain_choices};

use sixel_terminal::{Choices, Ground};

/// Choices in which only these differ.
pub fn plain_choices(showing: bool, fill: Ground, selected: u16, width: u32, height: u32) -> Choices
    ensures { result ≡ plain_choices showing fill selected width height }
{
    Choices {
        binds_at_showing: showing,
        selects: false,
        ground: fill,
        selected,
        zero: 0,
        clamps: true,
        clips: false,
        eight_bit: true,
        tall: 1,
        screen_width: width,
        screen_height: height,
        origin_x: 0,
        origin_y: 0,
    }
}
