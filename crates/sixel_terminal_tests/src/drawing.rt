//! Lists of events that no document has, and screens that aren't white.

use crate::fixtures::{are_so, events_of, grey_colours, plain_choices, terminal};
use sixel_grammar::{Command, Event, Placed};
use sixel_terminal::{Choices, Terminal};
use std::test::Fail;

/// Without an event the whole screen stays as it was, each pixel with its own colour, and so it does on a terminal that
/// doesn't see the string.
#[test]
fn a_screen_stays_as_it_was(rt: HostRuntime) -> Result<(), Fail> {
    let events = events_of(rt.alloc(), b"\x1bPq#5!2@\x9c")?;
    for (eight_bit, count, expected) in [
        (true, 4, "552345"),
        (true, 0, "012345"),
        (false, 4, "012345"),
    ] {
        let choices = Choices {
            eight_bit,
            ..plain_choices(3, 2)
        };
        let colours = grey_colours(rt.alloc(), 16)?;
        let made = Terminal::new(choices, colours, grey_colours(rt.alloc(), 6)?);
        let events = events.as_slice().get(..count).ok_or("four events")?;
        let shown = made.or(Err("a terminal"))?.show(rt.alloc(), events)?;
        assert!(rt; are_so(&shown, expected), "{expected}");
    }
    Ok(())
}

/// A finish and a start in the middle of a list reset nothing. A terminal without 8-bit controls doesn't see a list with
/// one there.
#[test]
fn ends_in_the_middle_reset_nothing(rt: HostRuntime) -> Result<(), Fail> {
    for (eight_bit, end, expected) in [
        (true, b"\x1bPq#1@\x1b\\".as_slice(), "11"),
        (true, b"\x1bPq#1@\x9c", "11"),
        (false, b"\x1bPq#1@\x1b\\", "11"),
        (false, b"\x1bPq#1@\x9c", ".."),
        (false, b"\x90q#1@\x1b\\", ".."),
    ] {
        let choices = Choices {
            eight_bit,
            ..plain_choices(2, 1)
        };
        let mut events = events_of(rt.alloc(), end)?;
        for placed in events_of(rt.alloc(), b"\x1bPq@\x1b\\")? {
            events.push(placed)?;
        }
        let shown = terminal(rt.alloc(), choices)?.show(rt.alloc(), &events)?;
        assert!(rt; are_so(&shown, expected), "{end:?}");
    }
    Ok(())
}

/// The largest screen, and a list that goes far beyond its right side: six rows are black.
#[test]
fn the_largest_screen_is_shown(rt: HostRuntime) -> Result<(), Fail> {
    let mut events = Vec::with_capacity(rt.alloc(), 150_000)?;
    for _ in 0..150_000 {
        events.push(Placed {
            place: 0,
            event: Event::Step(Command::Sixel(63)),
        })?;
    }
    let terminal = terminal(rt.alloc(), plain_choices(4_096, 4_096))?;
    let colours = terminal.show(rt.alloc(), &events)?;
    assert_eq!(rt; colours.len(), 16_777_216);
    let edge = colours
        .as_slice()
        .get(24_574..24_578)
        .ok_or("the seventh row")?;
    assert!(rt; are_so(edge, "00.."));
    Ok(())
}
