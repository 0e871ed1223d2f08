//! Terminals that clip data to the declared box.

use crate::fixtures::{is_shown, plain_choices};
use sixel_terminal::{Choices, Ground};
use std::test::Fail;

/// A run of two before any box, then a box of one pixel, and a run of two in another register.
const BOX_AFTER: &[u8] = b"\x1bPq!2@$\"1;1;1;1#1!2@\x1b\\";

/// Data paints only in the box of the first raster attributes before it. Without any, nothing is clipped.
#[test]
fn the_first_box_before_clips(rt: HostRuntime) -> Result<(), Fail> {
    let clips = Choices {
        clips: true,
        ..plain_choices(4, 1)
    };
    let rows: [(&[u8], &str); 8] = [
        (b"\x1bPq!2@\"1;1;1;1\x1b\\", "00.."),
        (BOX_AFTER, "10.."),
        (b"\x1bPq\"1;1;1;1\"1;1;2;1!2@\x1b\\", "0..."),
        (b"\x1bPq\"1;1;2;1\"1;1;1;1!2@\x1b\\", "00.."),
        // Missing sides are 0, so nothing lies in the box.
        (b"\x1bPq\"1;1!2@\x1b\\", "...."),
        // A run is cut at the right side of the box, or of the screen.
        (b"\x1bPq\"1;1;2;1#1?!9@\x1b\\", ".1.."),
        (b"\x1bPq\"1;1;9;1#1??!65535@\x1b\\", "..11"),
        (b"\x1bPq\"1;1;2;1#1@?@@\x1b\\", "1..."),
    ];
    for (text, expected) in rows {
        assert!(rt; is_shown(rt.alloc(), clips, text, expected)?, "{text:?}");
    }
    Ok(())
}

/// A box of one pixel, and then one of two, and a run of two.
const GROUNDS: &[u8] = b"\x1bPq\"1;1;1;1\"1;1;2;1#1!2@\x1b\\";
/// Two bits at 2;2, in a box of three rows.
const TALL: &[u8] = b"\x1bPq\"2;2;1;3#1B\x1b\\";
/// The latest ratio sets the height, and the first box the sides.
const TALL_LATER: &[u8] = b"\x1bPq\"1;1;1;3\"2;2;1;9#1B\x1b\\";

/// The box begins at the origin, and counts pixels of the screen: so it can cut through a sixel pixel that is two of
/// them high. A ground is filled whole, even in a box that is larger than the first.
#[test]
fn boxes_are_of_pixels_from_the_origin(rt: HostRuntime) -> Result<(), Fail> {
    let filled = Choices {
        ground: Ground::Filled(5),
        ..plain_choices(2, 1)
    };
    let tall = Choices {
        tall: 2,
        ..plain_choices(1, 5)
    };
    let middle = Choices {
        origin_x: 1,
        origin_y: 1,
        ..plain_choices(3, 3)
    };
    let rows: [(Choices, &[u8], &str); 6] = [
        (filled, GROUNDS, "15"),
        (tall, TALL, "111.."),
        (tall, TALL_LATER, "111.."),
        (middle, b"\x1bPq\"1;1;2;1#1!2~\x1b\\", "....11..."),
        (middle, b"\x1bPq\"1;1;1;2#1!2~\x1b\\", "....1..1."),
        (middle, b"\x1bPq\"1;1;9;9#1!2~\x1b\\", "....11.11"),
    ];
    for (choices, text, expected) in rows {
        let clips = Choices {
            clips: true,
            ..choices
        };
        assert!(rt; is_shown(rt.alloc(), clips, text, expected)?, "{text:?}");
    }
    Ok(())
}
