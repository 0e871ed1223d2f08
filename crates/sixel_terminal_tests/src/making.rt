//! Which parts make a terminal, and for which box it has room.

use crate::fixtures::{grey_colours, plain_choices, terminal};
use sixel_terminal::{Choices, Ground, Terminal, TerminalReason};
use std::test::Fail;

#[test]
fn terminals_name_the_first_reason(rt: HostRuntime) -> Result<(), Fail> {
    let plain = plain_choices(2, 2);
    let placed = Choices {
        origin_x: 1,
        origin_y: 1,
        ..plain
    };
    let right = Choices {
        origin_x: 2,
        ..plain
    };
    let flat = Choices { tall: 0, ..right };
    let two = Choices { zero: 2, ..flat };
    let ground = Ground::Filled(16);
    let filled = Choices { ground, ..two };
    let selected = Choices {
        selected: 16,
        ..filled
    };
    for (choices, registers, pixels, expected) in [
        (selected, 15, 4, Some(TerminalReason::Registers)),
        (plain, 1025, 4, Some(TerminalReason::Registers)),
        (selected, 16, 4, Some(TerminalReason::Selected)),
        (filled, 16, 4, Some(TerminalReason::Ground)),
        (two, 17, 4, Some(TerminalReason::Zero)),
        (flat, 16, 4, Some(TerminalReason::Tall)),
        (right, 16, 5, Some(TerminalReason::Screen)),
        (
            plain_choices(4097, 1),
            16,
            4097,
            Some(TerminalReason::Screen),
        ),
        (right, 16, 4, Some(TerminalReason::Origin)),
        (placed, 16, 4, None),
        (plain_choices(1, 4096), 1024, 4096, None),
    ] {
        let colours = grey_colours(rt.alloc(), registers)?;
        let screen = grey_colours(rt.alloc(), pixels)?;
        let reason = Terminal::new(choices, colours, screen)
            .err()
            .map(|fault| fault.reason);
        assert_eq!(rt; reason, expected, "{choices:?}, {pixels} pixels");
    }
    Ok(())
}

#[test]
fn boxes_have_room_on_the_screen(rt: HostRuntime) -> Result<(), Fail> {
    let choices = Choices {
        origin_x: 1,
        origin_y: 1,
        ..plain_choices(4, 3)
    };
    let terminal = terminal(rt.alloc(), choices)?;
    assert!(rt; terminal.has_room(3, 2));
    assert!(rt; !terminal.has_room(4, 2));
    assert!(rt; !terminal.has_room(3, 3));
    assert!(rt; !terminal.has_room(u32::MAX, u32::MAX));
    Ok(())
}
