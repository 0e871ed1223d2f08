//! How choices of a terminal that no option of `show` makes change what it shows.

use crate::fixtures::{is_shown, plain_choices};
use sixel_terminal::{Choices, Ground};
use std::test::Fail;

/// A colour out of range, and a pixel without a select.
const OUT_OF_RANGE: &[u8] = b"\x1bPq#1;2;200;0;0@\x1b\\";
/// A hue, a lightness and a saturation out of range, and a pixel in their register.
const HUE_OUT_OF_RANGE: &[u8] = b"\x1bPq#1;1;400;120;101#1@\x1b\\";

/// A coordinate out of range becomes the nearest one, or gives no colour; its register is selected even so. A repeat of
/// 0 paints nothing. The number of a register is taken modulo 17.
#[test]
fn terminals_show_what_they_choose(rt: HostRuntime) -> Result<(), Fail> {
    let one = plain_choices(1, 1);
    let unclamped = Choices {
        clamps: false,
        ..one
    };
    let selects = Choices {
        selects: true,
        ..unclamped
    };
    let selected = Choices { selected: 2, ..one };
    let none = Choices { zero: 0, ..one };
    let rows: [(Choices, &[u8], &str); 8] = [
        (selects, OUT_OF_RANGE, "1"),
        (one, HUE_OUT_OF_RANGE, "H"),
        (unclamped, HUE_OUT_OF_RANGE, "1"),
        (selected, b"\x1bPq@\x1b\\", "2"),
        (none, b"\x1bPq!0@\x1b\\", "."),
        (one, b"\x1bPq#18@\x1b\\", "1"),
        (one, b"\x1bPq#0;2;100;0;0#17@\x1b\\", "R"),
        (one, b"\x1bPq#18;2;100;0;0#1@\x1b\\", "R"),
    ];
    for (choices, text, expected) in rows {
        assert!(rt; is_shown(rt.alloc(), choices, text, expected)?, "{text:?}");
    }
    Ok(())
}

/// The height is that of the latest raster attributes before: 1 where both numbers are 1, else the terminal's.
#[test]
fn heights_follow_the_ratio(rt: HostRuntime) -> Result<(), Fail> {
    let rows: [(&[u8], &str); 4] = [
        (b"\x1bPq\"2;2;1;1@\x1b\\", "00............"),
        (b"\x1bPq\"1;1;1;1@\x1b\\", "0............."),
        (b"\x1bPq@-\"1;1;1;1@\x1b\\", "00....0......."),
        (b"\x1bPq@-@\x1b\\", "00..........00"),
    ];
    for (text, expected) in rows {
        let choices = Choices {
            tall: 2,
            ..plain_choices(1, 14)
        };
        assert!(rt; is_shown(rt.alloc(), choices, text, expected)?, "{text:?}");
    }
    Ok(())
}

/// A register is defined, and its box of 4 by 4 pixels filled before.
const GROUND_REDEFINED: &[u8] = b"\x1bPq\"1;1;4;4#5;2;100;0;0\x1b\\";

/// Each raster attributes command fills its box, from the origin on, with the ground's register.
#[test]
fn grounds_are_filled_from_the_origin(rt: HostRuntime) -> Result<(), Fail> {
    let filled = Choices {
        ground: Ground::Filled(5),
        origin_x: 1,
        origin_y: 1,
        ..plain_choices(3, 3)
    };
    let showing = Choices {
        binds_at_showing: true,
        ..filled
    };
    let rows: [(Choices, &[u8], &str); 4] = [
        (filled, GROUND_REDEFINED, "....55.55"),
        (showing, GROUND_REDEFINED, "....RR.RR"),
        (filled, b"\x1bPq\"1;1;1;1#1@\x1b\\", "....1...."),
        (filled, b"\x1bPq\"1;1;1;1#1@@\"1;1;1;1\x1b\\", "....51..."),
    ];
    for (choices, text, expected) in rows {
        assert!(rt; is_shown(rt.alloc(), choices, text, expected)?, "{text:?}");
    }
    Ok(())
}

/// A terminal without 8-bit controls shows nothing of a string that has one, wherever it is, and fills no ground.
#[test]
fn eight_bits_are_seen_or_not(rt: HostRuntime) -> Result<(), Fail> {
    let seeing = Choices {
        ground: Ground::Filled(5),
        ..plain_choices(2, 1)
    };
    let without = Choices {
        eight_bit: false,
        ..seeing
    };
    let rows: [(Choices, &[u8], &str); 4] = [
        (seeing, b"\x90q\"1;1;2;1#0@\x9c", "05"),
        (without, b"\x1bPq\"1;1;2;1#0@\x1b\\", "05"),
        (without, b"\x90q\"1;1;2;1#0@\x1b\\", ".."),
        (without, b"\x1bPq\"1;1;2;1#0@\x9c", ".."),
    ];
    for (choices, text, expected) in rows {
        assert!(rt; is_shown(rt.alloc(), choices, text, expected)?, "{text:?}");
    }
    Ok(())
}
